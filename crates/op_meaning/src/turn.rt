//! What each place of a trace does.
ghost use Rattle.std.specs.Prelude.{◌≡◌, ◌<◌, ◌≤◌, ℕ, IfSome, None, Some, if◌then◌else◌, leb, true};
ghost use Rattle.std.specs.Option.{option_map};
ghost use Rattle.chain_plan.specs.Chain.{role};
ghost use Rattle.entry_checks.specs.Check.{check};
ghost use Rattle.entry_checks.specs.Meant.{file_meant, meant};
ghost use Rattle.entry_checks.specs.Operation.{asked};
ghost use Rattle.op_meaning.specs.Step as step;
ghost use Rattle.op_meaning.specs.Turns.{IsShort, kind_meant, turn_meant};
ghost use Rattle.op_meaning.specs.Step.{ring_at};
ghost use Rattle.trace_format.specs.Sides.{most_moved, SideFits};
ghost use Rattle.recording.specs.Steps.{places, step_at, step_meant};
ghost use Rattle.recording.specs.Accepted.{IsAccepted};
ghost use Rattle.world_parts.specs.Uses.{broken_meant};
ghost use Rattle.world_parts.specs.World.{broken};

use chain_plan::Role;
use entry_checks::{FileNumber, Op, PathAt, check, open_flags_of};
use recording::{Action, Blob, Content, Entry, FileAt, FullSlot, Recording, Series, Step, ring_of};
use sqe_codec::Errno;
use world_parts::{Broken, State};

/// `AT_FDCWD`, the working directory.
const WORKING_DIRECTORY: i32 = -100;

/// What a call of the program did between two submissions.
#[derive(Clone, Copy)]
pub enum Call<'a> {
    /// A slot or a descriptor holds this from there on.
    Set { file: FileAt, content: &'a Content },
    /// What a slot or a descriptor holds has this position from there on.
    Seek { file: FileAt, position: u64 },
}

impl<'a> Call<'a> {
    ghost use Rattle.op_meaning.specs.Turns.{call_meant};

    /// The operation that it is. A turn has the call in its place, so that the turn of an entry
    /// need not pass through memory.
    #[inline(never)]
    #[tactic(auto, using(crate::proofs::Turns::sets_ask_none))]
    pub fn op(self) -> Op<'a>
        ensures operation { meant result ≡ call_meant self.entry }
        ensures moves_none { asked (meant result) ≡ None }
    {
        match self {
            Call::Set { file, content } => set_operation(file, content),
            Call::Seek { file, position } => Op::Seek {
                file: file_in(file),
                position,
            },
        }
    }
}

/// What a place does, and the ring of which it is.
#[derive(Drop)]
pub struct Turn<'a> {
    /// The number of its ring.
    pub ring: u32,
    /// What it does.
    pub kind: TurnKind<'a>,
}

/// What a place does.
#[derive(Drop)]
pub enum TurnKind<'a> {
    /// It puts bytes into a registered buffer of its ring, from an offset of it on.
    Fills {
        buffer: u16,
        offset: u32,
        bytes: &'a Blob,
    },
    /// It fills slots of its ring, which is new, with what others hold.
    Registers(&'a Series<FullSlot>),
    /// It does what a call of the program did, which replies 0 whatever came of it.
    Calls {
        call: Call<'a>,
    },
    /// It fails its tests, or stands in a chain in which a member does: its error, and whether a
    /// completion is posted.
    Refused {
        error: Errno,
        posted: bool,
    },
    /// Its chain broke: whether a completion is posted.
    Canceled {
        posted: bool,
    },
    /// It runs an operation.
    Runs {
        entry: Entry<'a>,
        op: Op<'a>,
    },
}

/// What a place with its role does, by the flag of its chain. It takes no memory.
#[inline(always)]
pub fn turn_under<'a>(
    place: u32,
    trace: &'a Recording,
    role_there: &Role,
    flag: Option<Broken>,
) -> Turn<'a>
    requires trace { IsAccepted trace.now }
    requires place { place < places trace.now }
    requires role { role_there.now ≡ role trace.now place }
    ensures ring { result.ring ≡ ring_at trace.now place }
    ensures turn { Some (turn_meant result)
        ≡ step.turn_under trace.now place (option_map broken_meant flag) }
    ensures short { IsShort result.kind }
{
    turn_by(place, trace, &trace.step(place), role_there, flag)
}

/// The same, by the step of the place.
#[inline(always)]
fn turn_by<'a>(
    place: u32,
    trace: &'a Recording,
    there: &Step<'a>,
    role_there: &Role,
    flag: Option<Broken>,
) -> Turn<'a>
    requires trace { IsAccepted trace.now }
    requires there { step_at trace.now place ≡ Some (step_meant there.now) }
    requires role { role_there.now ≡ role trace.now place }
    ensures ring { result.ring ≡ ring_at trace.now place }
    ensures turn { Some (turn_meant result)
        ≡ step.turn_under trace.now place (option_map broken_meant flag) }
    ensures short { IsShort result.kind }
{
    let kind = match &there.action {
        Action::Submit(entry) => submitted(trace, entry, role_there, flag),
        Action::Fill {
            buffer,
            offset,
            bytes,
        } => TurnKind::Fills {
            buffer: *buffer,
            offset: *offset,
            bytes: *bytes,
        },
        Action::Register(slots) => TurnKind::Registers(*slots),
        Action::Set { file, content } => TurnKind::Calls {
            call: Call::Set {
                file: *file,
                content: *content,
            },
        },
        Action::Seek { file, position } => TurnKind::Calls {
            call: Call::Seek {
                file: *file,
                position: *position,
            },
        },
    };
    Turn {
        ring: there.ring,
        kind,
    }
}

/// A slot or a descriptor, by its number.
fn file_in(file: FileAt) -> FileNumber
    ensures { file_meant result ≡ step.file_in file }
{
    match file {
        FileAt::Slot { ring: _, number } => FileNumber::Slot(number),
        FileAt::Descriptor { number } => FileNumber::Descriptor(number),
    }
}

/// What a set does.
fn set_operation<'a>(file: FileAt, content: &'a Content) -> Op<'a>
    ensures { meant result ≡ step.set_operation file content.entry.now }
{
    let number = file_in(file);
    match content {
        Content::Nothing => Op::HoldNothing { file: number },
        Content::Path {
            flags,
            position,
            path,
        } => Op::HoldPath {
            file: number,
            path: PathAt {
                directory: WORKING_DIRECTORY,
                text: path.as_slice(),
            },
            flags: open_flags_of(*flags),
            position: *position,
        },
        Content::Copy { of } => Op::HoldCopy {
            file: number,
            ring: ring_of(*of),
            source: file_in(*of),
        },
        Content::Taken => Op::HoldOther { file: number },
    }
}

/// What the place of an entry does.
#[inline(always)]
fn submitted<'a>(
    trace: &'a Recording,
    entry: &Entry<'a>,
    role_there: &Role,
    flag: Option<Broken>,
) -> TurnKind<'a>
    requires side { SideFits entry.now }
    ensures turn { (ring : ℕ) → kind_meant ring result ≡ step.entry_turn ring entry.now
        role_there.now (option_map broken_meant flag) (check trace.now.version entry.now) }
    ensures short { IsShort result }
{
    let posted = role_there.member == 0 || !role_there.quiet;
    match check(entry, trace.version) {
        Err(error) => TurnKind::Refused { error, posted },
        Ok(op) => {
            if role_there.doomed {
                let error = Errno::ECANCELED;
                return TurnKind::Refused { error, posted };
            }
            executed(entry, op, role_there, flag)
        }
    }
}

/// What the place of an entry does that passes its tests, in a chain of such.
#[inline(always)]
fn executed<'a>(
    entry: &Entry<'a>,
    op: Op<'a>,
    role_there: &Role,
    flag: Option<Broken>,
) -> TurnKind<'a>
    ensures turn { (ring : ℕ) → kind_meant ring result ≡ step.running_turn ring entry.now
        role_there.now (option_map broken_meant flag) (meant op.entry) }
    ensures short { IfSome (asked (meant op.entry)) (λ n. n ≤ most_moved) → IsShort result }
{
    match flag {
        Some(flag) if role_there.length >= 2 => TurnKind::Canceled {
            posted: posts(flag),
        },
        _ => TurnKind::Runs {
            entry: entry.again(),
            op,
        },
    }
}

/// What a place with its role does in a world. It takes no memory.
#[inline(always)]
pub fn turn_of<'a>(place: u32, trace: &'a Recording, role_there: &Role, state: &State) -> Turn<'a>
    requires trace { IsAccepted trace.now }
    requires place { place < places trace.now }
    requires role { role_there.now ≡ role trace.now place }
    ensures ring { result.ring ≡ ring_at trace.now place }
    ensures turn { Some (turn_meant result) ≡ step.turn trace.now place state.now }
    ensures short { IsShort result.kind }
{
    turn_in(place, trace, &trace.step(place), role_there, state)
}

/// The same, by the step of the place.
#[inline(always)]
pub(crate) fn turn_in<'a>(
    place: u32,
    trace: &'a Recording,
    there: &Step<'a>,
    role_there: &Role,
    state: &State,
) -> Turn<'a>
    requires trace { IsAccepted trace.now }
    requires there { step_at trace.now place ≡ Some (step_meant there.now) }
    requires role { role_there.now ≡ role trace.now place }
    ensures ring { result.ring ≡ ring_at trace.now place }
    ensures turn { Some (turn_meant result) ≡ step.turn trace.now place state.now }
    ensures short { IsShort result.kind }
{
    turn_by(place, trace, there, role_there, flag(role_there, state))
}

/// The flag of a chain of two or more.
fn flag(role_there: &Role, state: &State) -> Option<Broken>
    ensures { option_map broken_meant result ≡ (if leb 2 role_there.now.length
        then broken state.now role_there.now.chain else None) }
{
    if role_there.length >= 2 {
        state.broken(role_there.chain)
    } else {
        None
    }
}

/// Whether a canceled member of a broken chain posts.
fn posts(broken: Broken) -> bool
    ensures { result ≡ step.posts (broken_meant broken) }
{
    match broken {
        Broken::Loud => true,
        Broken::Quiet => false,
    }
}
