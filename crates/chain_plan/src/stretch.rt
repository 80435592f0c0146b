//! The roles of a stretch of a trace's places, found in one walk over it.
ghost use Rattle.std.specs.Prelude.{◌≡◌, ◌<◌, ◌≤◌, ◌+◌, ◌-◌, ◌^◌, ◌&&◌, leb, length, min};
ghost use Rattle.std.specs.Prelude.{◌∷◌, [], ◌++◌, IfOk, IfSome, None, OnOk, Some, false};
ghost use Rattle.std.specs.List.{slice_get};
ghost use Rattle.trace_format.specs.Sides.{SideFits};
ghost use Rattle.recording.specs.Steps.{places, step_meant, submit};
ghost use Rattle.recording.specs.Accepted.{IsAccepted};
ghost use Rattle.trace_format.specs.declared.entry.Entry.{Entry};
ghost use Rattle.recording.specs.declared.recording.Recording.{Recording};
ghost use Rattle.trace_format.specs.declared.version.Version.{Version};
ghost use Rattle.chain_plan.specs.Stretch.{AreFollowing, IsStretch, end_of};
ghost use Rattle.chain_plan.specs.Walk.{marks_of, followed, member_after};
ghost use Rattle.chain_plan.specs.Walk.{with_member, counted, link_from};
ghost use Rattle.chain_plan.specs.declared.stretch.Chain.{Chain};

use crate::role::Role;
use entry_checks::check;
use recording::{Action, Recording, Step, Version};
use sqe_codec::{CQE_SKIP_SUCCESS, IO_DRAIN, IO_HARDLINK, IO_LINK};
use std::alloc::{AllocError, Global};
use std::marker::Model;

/// A place in its chain: the chain's number, how many members stand ahead, and whether the head has
/// the skip flag.
#[derive(Clone, Copy)]
struct Member {
    chain: u32,
    ahead: u32,
    quiet: bool,
}

/// What the members of a chain share.
#[derive(Clone, Copy)]
struct Chain {
    length: u32,
    doomed: bool,
    barrier: bool,
}

/// A chain without members.
const NO_MEMBERS: Chain = Chain {
    length: 0,
    doomed: false,
    barrier: false,
};

/// What a plan asks of a step. An entry by itself isn't tested: it dooms no other one.
#[derive(Clone, Copy)]
struct Marks {
    links: bool,
    skips: bool,
    drains: bool,
    fails: bool,
}

/// A member with a link flag, and the number of its record.
#[derive(Clone, Copy)]
struct Linked {
    member: Member,
    record_number: u32,
}

/// The roles of places of a trace that follow one another, of whole chains.
#[derive(Drop)]
pub struct Stretch {
    /// The first place.
    first: u32,
    /// How many chains end before it.
    chains_before: u32,
    members: Vec<Member>,
    chains: Vec<Chain>,
}

impl Model for Stretch {
    ghost use Rattle.chain_plan.specs.Stretch.{IsHeld, Roles, roles_of};

    ghost Value = { Roles };

    ghost view = { λ s. roles_of s.first s.chains_before s.chains.items s.members.items };

    ghost invariant = { λ s. IsHeld s.first s.chains_before s.chains.items s.members.items };
}

/// What is asked of a step that follows another one of its chain, or follows none.
fn marks_of(step: &Step<'_>, version: Version, follows: bool) -> Marks
    requires { (e : Entry) → (step_meant step.now).action ≡ submit e
        → SideFits e }
    ensures { result ≡ marks_of version follows (step_meant step.now) }
{
    match &step.action {
        Action::Submit(entry) => {
            let sqe = entry.sqe();
            let links = sqe.has(IO_LINK) || sqe.has(IO_HARDLINK);
            Marks {
                links,
                skips: sqe.has(CQE_SKIP_SUCCESS),
                drains: sqe.has(IO_DRAIN),
                fails: (links || follows) && check(entry, version).is_err(),
            }
        }
        _ => Marks {
            links: false,
            skips: false,
            drains: false,
            fails: false,
        },
    }
}

/// What is asked of a step that follows none and has no link flag; nothing of one that has.
fn lone_marks(step: &Step<'_>) -> Option<Marks>
    ensures links { IfSome result (λ m. m.links ≡ false) }
    ensures marks { (v : Version) → IfSome result
        (λ m. m ≡ marks_of v false (step_meant step.now)) }
{
    match &step.action {
        Action::Submit(entry) => {
            let sqe = entry.sqe();
            if sqe.has(IO_LINK) || sqe.has(IO_HARDLINK) {
                return None;
            }
            Some(Marks {
                links: false,
                skips: sqe.has(CQE_SKIP_SUCCESS),
                drains: sqe.has(IO_DRAIN),
                fails: false,
            })
        }
        _ => Some(Marks {
            links: false,
            skips: false,
            drains: false,
            fails: false,
        }),
    }
}

/// The member that a step of a record follows.
fn followed(linked: Option<Linked>, record_number: u32) -> Option<Member>
    ensures { result ≡ followed linked record_number }
{
    match linked {
        Some(linked) if linked.record_number == record_number => Some(linked.member),
        _ => None,
    }
}

/// The member behind another, or the head of the next chain.
fn member_after(ahead: Option<Member>, next: u32, skips: bool) -> Member
    requires { IfSome ahead (λ m. m.ahead + 1 < 2 ^ 32) }
    ensures { result ≡ member_after ahead next skips }
{
    match ahead {
        Some(member) => Member {
            ahead: member.ahead + 1,
            ..member
        },
        None => Member {
            chain: next,
            ahead: 0,
            quiet: skips,
        },
    }
}

/// Adds a member to a chain.
fn with_member(chain: Chain, marks: Marks) -> Chain
    requires { chain.length + 1 < 2 ^ 32 }
    ensures { result ≡ with_member chain marks }
{
    Chain {
        length: chain.length + 1,
        doomed: chain.doomed || marks.fails,
        barrier: chain.barrier || marks.drains,
    }
}

/// Counts a member of a chain, which is one of the chains or the next one.
fn count_member(chains: &mut Vec<Chain>, chain: u32, marks: Marks) -> Result<(), AllocError>
    requires { (c : Chain) → slice_get chains.old.items chain ≡ Some c → c.length + 1 < 2 ^ 32 }
    ensures { IfOk result (λ _. chains.new.items ≡ counted chains.old.items chain marks) }
{
    let chain = chain as usize;
    if chain < chains.len() {
        chains[chain] = with_member(chains[chain], marks);
    } else {
        chains.push(with_member(NO_MEMBERS, marks))?;
    }
    Ok(())
}

/// Adds a step that is a chain by itself.
fn push_lone(
    members: &mut Vec<Member>,
    chains: &mut Vec<Chain>,
    chains_before: u32,
    marks: Marks,
) -> Result<(), AllocError>
    requires { chains_before + length chains.old.items < 2 ^ 32 }
    ensures member { OnOk result (members.new.items ≡ members.old.items
        ++ member_after None (chains_before + length chains.old.items) marks.skips ∷ []) }
    ensures chain { OnOk result
        (chains.new.items ≡ counted chains.old.items (length chains.old.items) marks) }
{
    let chain = chains_before + chains.len() as u32;
    members.push(member_after(None, chain, marks.skips))?;
    chains.push(with_member(NO_MEMBERS, marks))?;
    Ok(())
}

/// Whether a chain has several members, of which one fails its tests.
fn is_doomed(chain: Chain) -> bool
    ensures { result ≡ (leb 2 chain.length && chain.doomed) }
{
    chain.length >= 2 && chain.doomed
}

/// What the next step may follow.
fn link_from(member: Member, record_number: u32, links: bool) -> Option<Linked>
    ensures { result ≡ link_from member record_number links }
{
    if links {
        Some(Linked {
            member,
            record_number,
        })
    } else {
        None
    }
}

impl Stretch {
    /// The stretch of no places, ahead of the first one. It takes no memory.
    pub fn new(alloc: Global) -> Self
        ensures start { end_of result ≡ 0 }
        ensures stretch { (t : Recording) → IsStretch t result }
    {
        Stretch::ahead_of(alloc, 0, 0)
    }

    /// The stretch of no places, ahead of a place that so many chains end before. It takes no
    /// memory.
    pub fn ahead_of(alloc: Global, place: u32, chains: u32) -> Self
        ensures { result ≡ record { first = place; chains = chains; roles = [] } }
    {
        Stretch {
            first: place,
            chains_before: chains,
            members: Vec::new(alloc),
            chains: Vec::new(alloc),
        }
    }

    /// The place behind its last one.
    pub fn end(&self) -> u32
        ensures { result ≡ end_of self.now }
    {
        self.first + self.members.len() as u32
    }

    /// The stretch behind this one: `least` places at least, or all that are left, and then those
    /// up to the end of a chain. Time and memory are linear in its places and in the bytes beside
    /// their entries.
    ///
    /// # Errors
    ///
    /// Out of memory.
    pub fn next(self, trace: &Recording, least: u32) -> Result<Self, AllocError>
        requires spelled { IsAccepted trace.now }
        requires stretch { IsStretch trace.now self }
        ensures stretch { IfOk result (λ s. IsStretch trace.now s) }
        ensures behind { IfOk result (λ s. s.first ≡ end_of self) }
        ensures least { IfOk result
            (λ s. min (s.first + least) (places trace.now) ≤ end_of s) }
        ensures most { IfOk result
            (λ s. AreFollowing trace.now (s.first + least) (end_of s)) }
    {
        let first = self.end();
        let chains_before = self.chains_before + self.chains.len() as u32;
        let mut members = self.members;
        let mut chains = self.chains;
        members.clear();
        chains.clear();
        // Up to the first link flag each step is a chain by itself.
        let limit = first.saturating_add(least).min(trace.places());
        'lone: for place in first..limit {
            let Some(marks) = lone_marks(&trace.step(place)) else {
                break;
            };
            push_lone(&mut members, &mut chains, chains_before, marks)?;
        }
        let mut linked = None;
        for place in first + members.len() as u32..trace.places() {
            let step = trace.step(place);
            let ahead = followed(linked, step.record_number);
            if ahead.is_none() && place - first >= least {
                break;
            }
            let marks = marks_of(&step, trace.version, ahead.is_some());
            let next = chains_before + chains.len() as u32;
            let member = member_after(ahead, next, marks.skips);
            count_member(&mut chains, member.chain - chains_before, marks)?;
            linked = link_from(member, step.record_number, marks.links);
            members.push(member)?;
        }
        Ok(Stretch {
            first,
            chains_before,
            members,
            chains,
        })
    }

    /// The role of a place, at once and without memory.
    pub fn role(&self, place: u32) -> Role
        requires from { self.now.first ≤ place }
        requires within { place < end_of self.now }
        ensures at_place { slice_get self.now.roles (place - self.now.first) ≡ Some result }
    {
        let member = self.members[(place - self.first) as usize];
        let chain = self.chains[(member.chain - self.chains_before) as usize];
        Role {
            chain: member.chain,
            member: member.ahead,
            length: chain.length,
            doomed: is_doomed(chain),
            quiet: member.quiet,
            barrier: chain.barrier,
        }
    }
}
