//! A gate for trying rounds on threads.
use crate::gate::Gate;
use crate::round::WORTH_A_THREAD;
use chain_plan::Role;
use op_meaning::{Reply, run_entry};
use recording::Recording;
use std::alloc::{AllocError, Global};
use world_parts::Part;

/// Runs a place as [`crate::NoGate`] does, and weighs each as worth a thread. So where there is a
/// second worker, every round of two places or more runs on parts and threads: that is slower where
/// places do little, and shows that it gives the same.
#[derive(Clone, Copy, Debug, Drop)]
pub struct EagerGate;

impl Gate for EagerGate {
    fn run(
        &self,
        alloc: Global,
        place: u32,
        trace: &Recording,
        role_there: &Role,
        part: &mut Part,
    ) -> Result<Reply, AllocError> {
        run_entry(alloc, place, trace, role_there, part)
    }

    fn weight(&self, _trace: &Recording, _place: u32) -> u64 {
        WORTH_A_THREAD
    }
}
