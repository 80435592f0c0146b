//! Entries, traces, checks and compared reports, as tests: their values are from hand.
#![tactic(auto)]

#[cfg(test)]
mod checks;
#[cfg(test)]
mod entries;
#[cfg(test)]
mod records;
#[cfg(test)]
mod reports;
#[cfg(test)]
mod sets;
#[cfg(test)]
mod slices;
#[cfg(test)]
mod so_far;
#[cfg(test)]
mod traces;
