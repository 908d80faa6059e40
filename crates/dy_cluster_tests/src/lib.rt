//! The tests on one thread of the crates from `dy_node` to `dy_cluster`, apart from them, so that
//! their own functions are not proved once more.
#![tactic(auto)]

#[cfg(test)]
mod absences;
#[cfg(test)]
mod alone;
#[cfg(test)]
mod closings;
#[cfg(test)]
mod mends;
