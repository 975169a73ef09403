//! Whole runs by hand.
#![tactic(auto)]

#[cfg(test)]
mod chunks;
#[cfg(test)]
mod covered;
#[cfg(test)]
mod drawn;
#[cfg(test)]
mod gates;
#[cfg(test)]
mod given;
#[cfg(test)]
mod inputs;
#[cfg(test)]
mod kept;
#[cfg(test)]
mod parts;
#[cfg(test)]
mod refusals;
#[cfg(test)]
mod stops;
#[cfg(test)]
mod tests;
#[cfg(test)]
mod water;
