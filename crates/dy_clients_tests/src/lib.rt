//! The tests of clients in threads beside the nodes' workers, apart from what they test, so that
//! its own functions are not proved once more.
#![tactic(auto)]

#[cfg(test)]
mod crossings;
#[cfg(test)]
mod early;
#[cfg(test)]
mod full_mailboxes;
#[cfg(test)]
mod growths;
#[cfg(test)]
mod held_puts;
#[cfg(test)]
mod holds;
#[cfg(test)]
mod late_answers;
#[cfg(test)]
mod signals;
#[cfg(test)]
mod stops;
#[cfg(test)]
mod workers;
