//! Jobs are dealt and their results gathered, by two threads.
ghost use Rattle.std.specs.Prelude.{◌≡◌, ◌*◌, length, IfOk, IfSome, None, true, false};
ghost use Rattle.deal_desk.specs.Desks.{hand_of, IsSeatOf, IsIdleSeatOf};
ghost use Rattle.deal_desk.specs.Hands.{HasSeats};

use deal_desk::{Desk, DeskSeat, Job};
use std::alloc::{AllocError, Global};
use std::snapshot::Snapshot;
use std::test::Fail;
use std::thread;
use std::thread::Promise;

/// A number to be doubled.
#[derive(Drop)]
struct Double {
    number: u32,
}

impl Job for Double {
    type Done = u64;

    ghost is_value = { λ job d. d ≡ 2 * job.number };
}

impl Double {
    fn value(&self) -> u64
        ensures { result ≡ 2 * self.now.number }
    {
        2 * u64::from(self.number)
    }
}

// Jobs to double 10, 20 and 30.
fn three(alloc: Global) -> Result<Vec<Double>, AllocError>
    ensures { IfOk result (λ jobs. length jobs.items ≡ 3) }
{
    Ok(vec![in alloc;
        Double { number: 10 },
        Double { number: 20 },
        Double { number: 30 },
    ]?)
}

// Draws a job, if there is one, puts its value back, and gives its place.
fn turn(desk: &Desk<Double>, seat: &mut DeskSeat<Double>) -> Option<u32>
    requires desk { IsSeatOf desk.now seat.old }
    requires idle { (hand_of seat.old).out ≡ None }
    ensures desk { IsSeatOf desk.now seat.new }
    ensures idle { (hand_of seat.new).out ≡ None }
    ensures same { HasSeats (hand_of seat.old).opens (hand_of seat.old).given
        (hand_of seat.old).merged (hand_of seat.new) }
{
    let (place, job) = desk.draw(seat)?;
    desk.put(seat, place, job.value());
    Some(place)
}

// Two turns, at a seat of a thread's own.
fn two_turns(desk: &Desk<Double>, mut seat: DeskSeat<Double>) -> DeskSeat<Double>
    requires desk { IsSeatOf desk.now seat }
    requires idle { (hand_of seat).out ≡ None }
    ensures { IsIdleSeatOf desk.now (hand_of seat) result }
{
    turn(desk, &mut seat);
    turn(desk, &mut seat);
    seat
}

// What comes back of a thread: the seat that it was given, with nothing out.
#[derive(Drop)]
struct Returned {
    desk: Snapshot<Desk<Double>>,
    seat: Snapshot<DeskSeat<Double>>,
}

impl Promise<DeskSeat<Double>> for Returned {
    ghost kept_by = { λ p r. IsIdleSeatOf p.desk.value (hand_of p.seat.value) r };
}

// Each thread takes a turn or two at a seat of its own. The results stand in order, whoever was
// first.
#[test]
fn two_threads(rt: HostRuntime) -> Result<(), Fail> {
    let (desk, mut left) = Desk::new(rt.alloc(), three(rt.alloc())?)?;
    let right = desk.seat(&mut left);
    let shared = &desk;
    let merged = thread::scope(
        thread::scope_env(),
        &rt,
        |scope| -> Option<DeskSeat<Double>>
            requires desk { IsSeatOf shared.now left × IsSeatOf shared.now right }
            requires idle { ((hand_of left).out ≡ None) × ((hand_of right).out ≡ None) }
            requires seats { HasSeats true 1 0 (hand_of left)
                × ((hand_of right).opens ≡ false) × ((hand_of right).merged ≡ 0) }
            ensures { IfSome result (λ seat. IsSeatOf shared.entry.now seat
                × ((hand_of seat).out ≡ None) × HasSeats true 1 1 (hand_of seat)) }
        {
            let mut left = left;
            let promise = Returned {
                desk: Snapshot::of(shared),
                seat: Snapshot::of(&right),
            };
            let child = scope
                .spawn_with(promise, move || two_turns(shared, right))
                .ok()?;
            turn(shared, &mut left);
            shared.merge(&mut left, child.join(&rt));
            Some(left)
        },
    );
    let mut left = merged.ok_or("no thread")?;
    assert!(rt; desk.draw(&mut left).is_none() && left.is_dry());
    let results = desk.close(rt.alloc(), left)?;
    assert_eq!(rt; results.as_slice(), [20, 40, 60].as_slice());
    Ok(())
}
