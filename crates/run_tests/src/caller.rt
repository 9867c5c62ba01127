//! A caller that runs two workers itself, one in a thread of its own: it opens them, seats them, lets them work, and gathers.

ghost use Rattle.std.specs.Prelude.{◌≡◌, ◌≤◌, ◌^◌, [], ◌∷◌, IfSome, vec_capacity};
ghost use Rattle.address_map.specs.Lawful.{Shape};
ghost use Rattle.pram_model.specs.declared.rule.Rule.TheVariants.{Crew};
ghost use Rattle.write_rules.specs.Verdict.{verdict_of};
ghost use Rattle.superstep_machine.specs.Run.{IsBspOutcome};
ghost use Rattle.bsp_verify.specs.WellFormed.{IsWellFormed};
ghost use Rattle.worker_exchange.specs.Equipped.{most_words, IsRunnable};
ghost use Rattle.bsp_machine.specs.Opening.{IsRoom};
ghost use Rattle.bsp_machine.specs.Ended.{AreExchanges};
ghost use Rattle.run_tests.specs.Callers.{Opens, IsNewSeat, HasPlayed};

use crate::listing::{TRACE, verified};
use address_map::{AddressMap, Identity};
use bsp_machine::{CountedWorker, EndRoom, row_room};
use exchange_counts::Counts;
use pram_model::Rule;
use std::alloc::Global;
use std::sync::Wait;
use std::thread::{Threads, join};
use superstep_code::Code;
use text_out::Buffer;
use tracer::write_trace;
use turnstile::{RowSeat, Turnstile};
use workers::{OpenGate, gather, work};
use write_rules::{Exclusive, Outcome};

// Room for what comes back from both, and for what they come to.
#[derive(Drop)]
struct Room {
    seats: Vec<RowSeat>,
    workers: Vec<CountedWorker>,
    end: EndRoom,
    ghost for_seats: { (seats.items ≡ []) × (2 ≤ vec_capacity seats) },
    ghost for_workers: { (workers.items ≡ []) × (2 ≤ vec_capacity workers) },
}

fn room_of(alloc: Global, code: &Code) -> Option<Room>
    ensures { IfSome result (λ room. (m : Shape) → m.parts ≡ 2 → IsRoom code.now m room.end) }
{
    let Ok(seats) = Vec::with_capacity(alloc, 2) else {
        return None;
    };
    let Ok(workers) = Vec::with_capacity(alloc, 2) else {
        return None;
    };
    match EndRoom::new(alloc, code, 2) {
        Ok(end) => Some(Room {
            seats,
            workers,
            end,
        }),
        Err(_) => None,
    }
}

// Both workers before the first instruction.
fn open_both<M: AddressMap>(
    alloc: Global,
    code: &Code,
    map: &M,
    input: &[i64],
) -> Option<(CountedWorker, CountedWorker)>
    requires formed { IsWellFormed code.now }
    ensures parts { IfSome result (λ both. (M.shape map.now).parts ≡ 2) }
    ensures runnable { IfSome result (λ both. IsRunnable code.now (M.shape map.now)) }
    ensures first { IfSome result (λ both. Opens code.now (M.shape map.now) input.now 0 both.0) }
    ensures second { IfSome result (λ both. Opens code.now (M.shape map.now) input.now 1 both.1) }
{
    let Ok(first) = CountedWorker::new(alloc, code, map, 2, 0, input, true) else {
        return None;
    };
    let Ok(second) = CountedWorker::new(alloc, code, map, 2, 1, input, true) else {
        return None;
    };
    Some((first, second))
}

// The seats of two workers at a new turnstile.
fn seat_both(alloc: Global, room: usize) -> Option<(Turnstile, RowSeat, RowSeat)>
    requires few { room ≤ 2 ^ 20 }
    ensures workers { IfSome result (λ all. all.0.workers ≡ 2) }
    ensures room { IfSome result (λ all. all.0.room ≡ room) }
    ensures first { IfSome result (λ all. IsNewSeat all.0 0 all.1) }
    ensures second { IfSome result (λ all. IsNewSeat all.0 1 all.2) }
{
    let Ok((turnstile, seats)) = Turnstile::new(alloc, 2, room) else {
        return None;
    };
    let mut seats = seats;
    let second = seats.pop()?;
    let first = seats.pop()?;
    Some((turnstile, first, second))
}

// What a worker does at its seat.
fn play<R: Wait, M: AddressMap>(
    rt: &R,
    turnstile: &Turnstile,
    code: &Code,
    map: &M,
    input: &[i64],
    bound: u32,
    at: u32,
    seat: RowSeat,
    worker: CountedWorker,
) -> (RowSeat, CountedWorker)
    requires rule { code.now.rule ≡ Crew }
    requires runnable { IsRunnable code.now (M.shape map.now) }
    requires workers { turnstile.now.workers ≡ (M.shape map.now).parts }
    requires room { turnstile.now.room ≡ most_words code.now (M.shape map.now) }
    requires seat { IsNewSeat turnstile.now at seat }
    requires opens { Opens code.now (M.shape map.now) input.now at worker }
    ensures { HasPlayed turnstile.now code.now (M.shape map.now) bound input.now at result.0 result.1 }
{
    let rule = Exclusive { shared_reads: true };
    work(
        rt, turnstile, code, &rule, map, bound, &OpenGate, seat, worker,
    )
}

// Both at once, the first in a thread of its own. Where no thread can be made `join` hangs here, and the test fails by its time.
fn play_both<R: Threads + Wait + Sync, M: AddressMap + Sync>(
    rt: &R,
    turnstile: &Turnstile,
    code: &Code,
    map: &M,
    input: &[i64],
    bound: u32,
    first: (RowSeat, CountedWorker),
    second: (RowSeat, CountedWorker),
) -> ((RowSeat, CountedWorker), (RowSeat, CountedWorker))
    requires rule { code.now.rule ≡ Crew }
    requires runnable { IsRunnable code.now (M.shape map.now) }
    requires workers { turnstile.now.workers ≡ (M.shape map.now).parts }
    requires room { turnstile.now.room ≡ most_words code.now (M.shape map.now) }
    requires seats { IsNewSeat turnstile.now 0 first.0 × IsNewSeat turnstile.now 1 second.0 }
    requires opens { Opens code.now (M.shape map.now) input.now 0 first.1 × Opens code.now (M.shape map.now) input.now 1 second.1 }
    ensures first { HasPlayed turnstile.now code.now (M.shape map.now) bound input.now 0 result.0.0 result.0.1 }
    ensures second { HasPlayed turnstile.now code.now (M.shape map.now) bound input.now 1 result.1.0 result.1.1 }
{
    join(
        rt,
        move || -> (RowSeat, CountedWorker)
            requires { (code.now.rule ≡ Crew) × IsRunnable code.now (M.shape map.now)
                × (turnstile.now.workers ≡ (M.shape map.now).parts) × (turnstile.now.room ≡ most_words code.now (M.shape map.now))
                × IsNewSeat turnstile.now 0 first.0 × Opens code.now (M.shape map.now) input.now 0 first.1 }
            ensures { HasPlayed turnstile.entry.now code.entry.now (M.shape map.entry.now) bound input.entry.now 0 result.0 result.1 }
        { play(rt, turnstile, code, map, input, bound, 0, first.0, first.1) },
        move || -> (RowSeat, CountedWorker)
            requires { (code.now.rule ≡ Crew) × IsRunnable code.now (M.shape map.now)
                × (turnstile.now.workers ≡ (M.shape map.now).parts) × (turnstile.now.room ≡ most_words code.now (M.shape map.now))
                × IsNewSeat turnstile.now 1 second.0 × Opens code.now (M.shape map.now) input.now 1 second.1 }
            ensures { HasPlayed turnstile.entry.now code.entry.now (M.shape map.entry.now) bound input.entry.now 1 result.0 result.1 }
        {
            play(
                rt, turnstile, code, map, input, bound, 1, second.0, second.1,
            )
        },
    )
}

// What both come to.
fn gather_both<M: AddressMap>(
    code: &Code,
    map: &M,
    input: &[i64],
    bound: u32,
    turnstile: Turnstile,
    first: (RowSeat, CountedWorker),
    second: (RowSeat, CountedWorker),
    room: Room,
) -> Option<(Outcome, Option<Counts>)>
    requires runnable { IsRunnable code.now (M.shape map.now) }
    requires parts { (M.shape map.now).parts ≡ 2 }
    requires workers { turnstile.workers ≡ 2 }
    requires first { HasPlayed turnstile code.now (M.shape map.now) bound input.now 0 first.0 first.1 }
    requires second { HasPlayed turnstile code.now (M.shape map.now) bound input.now 1 second.0 second.1 }
    requires room { IsRoom code.now (M.shape map.now) room.end }
    ensures outcome { IfSome result (λ found. IsBspOutcome code.now (M.shape map.now) input.now bound (verdict_of found.0)) }
    ensures counts { IfSome result (λ found. AreExchanges code.now (M.shape map.now) input.now bound (verdict_of found.0) found.1) }
{
    let Room {
        mut seats,
        mut workers,
        end,
    } = room;
    seats.push_reserved(first.0);
    seats.push_reserved(second.0);
    workers.push_reserved(first.1);
    workers.push_reserved(second.1);
    match gather(code, map, turnstile, seats, workers, end) {
        Ok(found) => Some(found),
        Err(_) => None,
    }
}

// A run of verified code under CREW, whose workers work here.
fn run_by_hand<R: Threads + Wait + Sync, M: AddressMap + Sync>(
    rt: &R,
    alloc: Global,
    code: &Code,
    map: &M,
    input: &[i64],
    bound: u32,
) -> Option<(Outcome, Option<Counts>)>
    requires formed { IsWellFormed code.now }
    requires rule { code.now.rule ≡ Crew }
    ensures outcome { IfSome result (λ found. IsBspOutcome code.now (M.shape map.now) input.now bound (verdict_of found.0)) }
    ensures counts { IfSome result (λ found. AreExchanges code.now (M.shape map.now) input.now bound (verdict_of found.0) found.1) }
{
    let room = room_of(alloc, code)?;
    let (first, second) = open_both(alloc, code, map, input)?;
    let (turnstile, one, two) = seat_both(alloc, row_room(code, 2))?;
    let (first, second) = play_both(
        rt,
        &turnstile,
        code,
        map,
        input,
        bound,
        (one, first),
        (two, second),
    );
    gather_both(code, map, input, bound, turnstile, first, second, room)
}

// The same, of code under any rule: `None` where that isn't CREW.
fn run_crew<R: Threads + Wait + Sync, M: AddressMap + Sync>(
    rt: &R,
    alloc: Global,
    code: &Code,
    map: &M,
    input: &[i64],
    bound: u32,
) -> Option<(Outcome, Option<Counts>)>
    requires formed { IsWellFormed code.now }
{
    match code.rule() {
        Rule::Crew => run_by_hand(rt, alloc, code, map, input, bound),
        _ => None,
    }
}

fn is_broadcast<R: Threads + Wait + Sync>(rt: &R, alloc: Global) -> Option<bool> {
    let verified = verified(alloc)?;
    let map = Identity::new(8, 2).ok()?;
    let (outcome, counts) = run_crew(rt, alloc, verified.code(), &map, &[9, 8], 2)?;
    let mut out = Buffer::new(alloc);
    write_trace(&counts?, &[], &mut out).ok()?;
    let has_ended = match &outcome {
        Outcome::Ended { output, memory } => {
            output.is_empty() && memory.as_slice() == [9, 8, 9, 9, 9, 9].as_slice()
        }
        _ => false,
    };
    Some(has_ended && out.bytes() == TRACE)
}

#[test]
fn workers_of_a_caller_come_to_the_worked_run(rt: HostRuntime) {
    assert_eq!(rt; is_broadcast(&rt, rt.alloc()), Some(true));
}
