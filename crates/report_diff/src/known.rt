//! Facts that are asked for, of many.
ghost use Rattle.std.specs.Prelude.{◌≡◌, IfOk, List, ℕ};
ghost use Rattle.std.specs.List.{list_all};
ghost use Rattle.report_diff.specs.Differences.{fits};
ghost use Rattle.report_diff.specs.Known.{IsKnown};
ghost use Rattle.report_diff.specs.Lines.{texts};
ghost use Rattle.report_diff.specs.Repeats.{all_among};

use crate::facts::fact_name;
use std::alloc::{AllocError, Global};
use std::collections::BTreeSet;

/// Facts, and the names that they have.
#[derive(Drop)]
pub(crate) struct Known<'a> {
    facts: BTreeSet<&'a [u8]>,
    names: BTreeSet<&'a [u8]>,
}

impl<'a> Known<'a> {
    pub(crate) fn of(alloc: Global, facts: &[&'a [u8]]) -> Result<Known<'a>, AllocError>
        ensures { IfOk result (λ known. IsKnown known (texts facts.now)) }
    {
        let mut known = Known {
            facts: BTreeSet::new(alloc),
            names: BTreeSet::new(alloc),
        };
        for fact in facts {
            known.facts.insert(*fact)?;
            known.names.insert(fact_name(*fact))?;
        }
        Ok(known)
    }

    /// Whether a fact is one of them, or none of them has its name.
    #[tactic(auto, unfolding(crate::specs::Differences::fits))]
    fn fits(&self, fact: &[u8]) -> bool
        ensures { (facts : List (List ℕ)) → IsKnown self.now facts → result ≡ fits facts fact.now }
    {
        self.facts.contains(fact) || !self.names.contains(fact_name(fact))
    }

    /// Whether each of other facts fits them.
    pub(crate) fn all_fit(&self, others: &[&[u8]]) -> bool
        ensures { (facts : List (List ℕ)) → IsKnown self.now facts
            → result ≡ list_all (fits facts) (texts others.now) }
    {
        for fact in others {
            if !self.fits(fact) {
                return false;
            }
        }
        true
    }

    /// Whether each of other facts is one of them.
    pub(crate) fn has_all(&self, others: &[&[u8]]) -> bool
        ensures { (facts : List (List ℕ)) → IsKnown self.now facts
            → result ≡ all_among (texts others.now) facts }
    {
        for fact in others {
            if !self.facts.contains(*fact) {
                return false;
            }
        }
        true
    }
}
