//! What a world is kept in, as tests: their values are from hand.
#![tactic(auto)]

#[cfg(test)]
mod bytes;
#[cfg(test)]
mod tables;
#[cfg(test)]
mod trees;
