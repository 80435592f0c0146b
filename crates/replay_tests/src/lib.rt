//! Desks, worlds, access sets and replays of small traces, and runs of the program, as tests: their
//! values are from hand.
#![tactic(auto)]

#[cfg(test)]
mod comparisons;
#[cfg(test)]
mod desks;
#[cfg(test)]
mod examples;
#[cfg(test)]
mod footprints;
#[cfg(test)]
mod parts;
#[cfg(test)]
mod picks;
#[cfg(test)]
mod records;
#[cfg(test)]
mod replies;
#[cfg(test)]
mod rounds;
#[cfg(test)]
mod runs;
#[cfg(test)]
mod text;
#[cfg(test)]
mod waiting;
#[cfg(test)]
mod worlds;
