// Bytes that share the pages that they were read from.
ghost use Rattle.std.specs.Prelude.{◌≡◌, ◌-◌, ◌≤◌, ◌↔◌, length, replicate, take, IfOk, IsTrue};
ghost use Rattle.extent_bytes.specs.Bytes.{range_of};

use crate::extents::{Extents, MAX_LEN};
use crate::page_run::PageRun;
use std::alloc::{AllocError, Global};
use std::marker::Model;

// How pages are shared.
#[derive(Drop)]
pub(crate) enum Sharing {
    // Each page that the bytes lie in is stored.
    Run(PageRun),
    // Some are not, or there are many, or the bytes are a whole list, which share a tree. A list
    // takes more than a run of a few, and lies apart.
    List(Box<Extents>),
}

// Bytes that share the pages that they were read from.
#[derive(Drop)]
pub(crate) struct SharedPages {
    sharing: Sharing,
}

impl Model for SharedPages {
    ghost use Rattle.std.specs.Prelude.{ℕ, List};
    ghost use Rattle.extent_bytes.specs.Sharing.{shared_bytes};

    ghost Value = { List ℕ };

    ghost view = { λ b. shared_bytes b.sharing };
}

impl SharedPages {
    // The bytes of a list from `lo` up to `hi`.
    pub(crate) fn of(
        alloc: Global,
        list: &Extents,
        lo: u64,
        hi: u64,
    ) -> Result<SharedPages, AllocError>
        requires forward { lo ≤ hi }
        requires inside { hi ≤ length list.now }
        ensures value { IfOk result (λ pages. pages ≡ range_of list.now lo hi) }
        ensures len { IfOk result (λ pages. length pages ≡ hi - lo) }
    {
        if hi - lo < list.len()
            && let Some(run) = list.run(lo, hi)?
        {
            return Ok(SharedPages {
                sharing: Sharing::Run(run),
            });
        }
        Ok(SharedPages {
            sharing: Sharing::List(Box::new(alloc, list.share(lo, hi)?)?),
        })
    }

    pub(crate) fn len(&self) -> u64
        ensures value { result ≡ length self.now }
        ensures bound { length self.now ≤ MAX_LEN }
    {
        match &self.sharing {
            Sharing::Run(run) => run.len(),
            Sharing::List(list) => list.len(),
        }
    }

    // A copy of the bytes from `lo` up to `hi`.
    pub(crate) fn read(&self, alloc: Global, lo: u64, hi: u64) -> Result<Vec<u8>, AllocError>
        requires forward { lo ≤ hi }
        requires inside { hi ≤ length self.now }
        ensures { IfOk result (λ bytes. bytes.items ≡ range_of self.now lo hi) }
    {
        match &self.sharing {
            Sharing::Run(run) => run.read(alloc, lo, hi),
            Sharing::List(list) => list.read(lo, hi),
        }
    }

    // Whether both are the same bytes. It takes no memory.
    pub(crate) fn same(&self, other: &SharedPages) -> bool
        ensures { IsTrue result ↔ (self.now ≡ other.now) }
    {
        match (&self.sharing, &other.sharing) {
            (Sharing::Run(run), Sharing::Run(others)) => run.same(others),
            (Sharing::Run(run), Sharing::List(list)) => list.is_run(run),
            (Sharing::List(list), Sharing::Run(run)) => list.is_run(run),
            (Sharing::List(list), Sharing::List(others)) => list.same(others),
        }
    }

    // Whether they are the bytes of a slice. It takes no memory.
    pub(crate) fn is_slice(&self, bytes: &[u8]) -> bool
        requires { length bytes.now ≤ MAX_LEN }
        ensures { IsTrue result ↔ (self.now ≡ bytes.now) }
    {
        match &self.sharing {
            Sharing::Run(run) => run.is_slice(bytes),
            Sharing::List(list) => list.is_slice(bytes),
        }
    }

    // How many zeros they begin with, at least. Of a run it isn't found out.
    pub(crate) fn zeros_ahead(&self) -> u64
        ensures within { result ≤ length self.now }
        ensures zeros { take result self.now ≡ replicate result 0 }
    {
        match &self.sharing {
            Sharing::Run(_) => 0,
            Sharing::List(list) => list.zeros_ahead(),
        }
    }
}
