//! The tests of the crates up to `dy_core`, apart from them, so that their own functions are not
//! proved once more.
#![tactic(auto)]

#[cfg(test)]
mod contexts;
#[cfg(test)]
mod draws;
#[cfg(test)]
mod faults;
#[cfg(test)]
mod worlds;
