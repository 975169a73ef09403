//! Examples of the rule of water, one for each choice that its definitions make, on a small flat world.
#![tactic(auto)]

#[cfg(test)]
mod coming;
#[cfg(test)]
mod drops;
#[cfg(test)]
mod examples;
#[cfg(test)]
mod expecting;
#[cfg(test)]
mod flat;
#[cfg(test)]
mod turns;
