//! A desk that deals one-time jobs to any number of threads, and gathers their results by place.
//!
//! A [`Desk`] is made with a list of jobs. The place of a job is its position in that list, from 0
//! on. Each thread has a [`DeskSeat`]: [`Desk::draw`] hands it a job that nobody has drawn,
//! [`Desk::put`] takes the result back, and [`Desk::close`] gives all results in the order of the
//! jobs, whichever thread made them.
//!
//! **Two words and a slot for each job.** The desk is a table of two counters and of one slot for
//! each job. Word 0 counts the draws, word 1 the results that have come home. A slot holds its job
//! until the job is drawn, is out with a seat until the result is there, and then holds the result.
//!
//! **Why each job is drawn once.** A draw is one fetch-and-add of 1 on word 0. No two of them find
//! the same number, and the one that finds k takes the job of place k. Where it finds the number of
//! jobs or more, all have been drawn: the seat is dry from then on and draws no more, so that the
//! counter passes the number of jobs by at most one for each seat. A second fetch-and-add, on word
//! 1, sends the slot home with its result. Neither is ever tried again, and no call takes a lock or
//! waits for another thread.
//!
//! **What a seat knows.** A seat carries, for the proofs alone, the jobs of the desk, the place
//! that is out with it, the places that it has put back with their results, whether it is dry, and
//! how many seats it has given and merged. The opening seat comes with the desk and gives the
//! others ([`Desk::seat`]). When their threads have ended it merges them ([`Desk::merge`]). Once it
//! has merged as many seats as it has given, is dry and has nothing out, it has put back or merged
//! every place, which is what `close` asks for.
//!
//! **Memory.** `new` makes every slot, and `close` the list of results. Either can be refused
//! memory, and then it drops what it was given. No other call takes memory.
//!
//! What holds of the desk between any two steps, in whatever threads, stands in [`laws`].
#![tactic(auto)]

mod desk;
mod hand;
mod job;
pub mod laws;
mod rule;

pub use desk::{Desk, DeskFault, DeskSeat};
pub use job::Job;
