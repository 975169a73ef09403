//! Ticks in parts, for the tests of plans and of the machine, which cross crates.
#![tactic(auto)]

#[cfg(test)]
mod drawn;
#[cfg(test)]
mod drawn_tests;
#[cfg(test)]
mod machine_tests;
#[cfg(test)]
mod parts;
#[cfg(test)]
mod plan_tests;
#[cfg(test)]
mod turn_tests;
