// The vote, by workers side by side.
ghost use Rattle.std.specs.Prelude.{◌≡◌, ℕ, ◌<◌, ◌≤◌, ◌+◌, ◌-◌, ◌/◌, ◌^◌, IfOk, length};
ghost use Rattle.std.specs.Thread.{IsSync};
ghost use Rattle.glk_table.specs.Seats.{IsSeatOf, view_of};
ghost use Rattle.glk_elect.specs.Polls.{IsPolled};
ghost use Rattle.glk_elect.specs.Steps.{AddsIds, AddsOne, AddsPart, AreHalves, HasPart, IsReady};

use super::ballot::Ballot;
use super::polled::Polled;
use glk_base::{OutOfMemory, SymId};
use glk_io::Gate;
use glk_table::{KeySeat, KeyTable, Place};
use std::alloc::Global;
use std::thread::{Threads, join_mut};

// Enters one id, and offers its vote.
fn poll_one<B: Ballot>(table: &KeyTable, seat: &mut KeySeat, ballot: &B, id: u32) -> Place
    requires seat { IsReady table.now seat.old (B.list ballot.now) }
    requires id { id < length (B.list ballot.now) }
    ensures seat { IsSeatOf table.now seat.new }
    ensures added { AddsOne (view_of seat.old) (view_of seat.new) (B.votes ballot.now) id result }
{
    let place = table.enter(seat, ballot, id);
    match ballot.vote(id) {
        Some(vote) => {
            let strong = if vote.strong { Some(SymId(id)) } else { None };
            table.offer(seat, place, vote.rank, strong);
        }
        None => {}
    }
    place
}

// Enters the ids from `first` on, one after the other, and keeps their places.
fn poll_each<B: Ballot>(
    table: &KeyTable,
    seat: &mut KeySeat,
    ballot: &B,
    first: u32,
    places: &mut [Place],
)
    requires seat { IsReady table.now seat.old (B.list ballot.now) }
    requires ids { first + length places.old ≤ length (B.list ballot.now) }
    requires few { length (B.list ballot.now) ≤ 2 ^ 24 }
    ensures seat { IsSeatOf table.now seat.new }
    ensures added { AddsIds seat.old seat.new (B.votes ballot.now) first places.new }
{
    for i in 0..places.len() {
        places[i] = poll_one(table, seat, ballot, first + i as u32);
    }
}

// The group at which to cut those from `from` to `to`: near the wanted id, and with a group on each
// side where there are two.
fn cut<B: Ballot>(ballot: &B, from: u32, to: u32, wanted: u32) -> u32
    requires { (from ≤ to) × (to ≤ length (B.groups ballot.now)) }
    ensures { (from ≤ result) × (result ≤ to) }
{
    if to - from < 2 {
        return to;
    }
    let mut low = from + 1;
    let mut high = to - 1;
    while low < high {
        let middle = low + (high - low) / 2;
        if ballot.first(middle) < wanted {
            low = middle + 1;
        } else {
            high = middle;
        }
    }
    low
}

// Some groups, those from `from` on and before `to`, and the workers that go over them, from `worker` on.
#[derive(Clone, Copy)]
pub(crate) struct Part {
    from: u32,
    to: u32,
    worker: u32,
    workers: u32,
}

// A part cut in two of nearly as many ids a worker. The second has half of the workers, rounded down.
fn halves<B: Ballot>(ballot: &B, part: Part, first: u32, ids: u32) -> (Part, Part)
    requires groups { (part.from ≤ part.to) × (part.to ≤ length (B.groups ballot.now)) }
    requires ids { first + ids ≤ 2 ^ 24 }
    requires workers { (2 ≤ part.workers) × (part.worker + part.workers ≤ 64) }
    ensures { AreHalves part result.0 result.1 }
{
    let back = part.workers / 2;
    let front = part.workers - back;
    let middle = cut(
        ballot,
        part.from,
        part.to,
        first + ids / part.workers * front,
    );
    (
        Part {
            to: middle,
            workers: front,
            ..part
        },
        Part {
            from: middle,
            worker: part.worker + front,
            workers: back,
            ..part
        },
    )
}

// Each of two threads goes over its groups, with a seat and places of its own.
#[cycle(polling)]
fn poll_parts<B: Ballot, G: Gate, R: Threads + Sync>(
    rt: &R,
    table: &KeyTable,
    seat: &mut KeySeat,
    other: &mut KeySeat,
    ballot: &B,
    front: Part,
    back: Part,
    front_places: &mut [Place],
    back_places: &mut [Place],
    gate: &G,
)
    requires seat { IsReady table.now seat.old (B.list ballot.now) }
    requires other { IsReady table.now other.old (B.list ballot.now) }
    requires few { length (B.list ballot.now) ≤ 2 ^ 24 }
    requires front { HasPart seat.old (B.groups ballot.now) front front_places.old }
    requires back { HasPart other.old (B.groups ballot.now) back back_places.old }
    ensures seat { IsSeatOf table.now seat.new }
    ensures other { IsSeatOf table.now other.new }
    ensures front { AddsPart seat.old seat.new
        (B.groups ballot.now) (B.votes ballot.now) front front_places.new }
    ensures back { AddsPart other.old other.new
        (B.groups ballot.now) (B.votes ballot.now) back back_places.new }
{
    join_mut(
        rt,
        &mut ||
            requires sync { IsSync R.row }
            requires seat { IsReady table.now seat.now (B.list ballot.now) }
            requires few { length (B.list ballot.now) ≤ 2 ^ 24 }
            requires part { HasPart seat.now (B.groups ballot.now) front front_places.now }
            ensures seat { IsSeatOf table.entry.now seat.exit.now }
            ensures added { AddsPart seat.entry.now seat.exit.now
                (B.groups ballot.entry.now) (B.votes ballot.entry.now) front front_places.exit.now }
        { poll(rt, table, seat, ballot, front, front_places, gate) },
        &mut ||
            requires sync { IsSync R.row }
            requires seat { IsReady table.now other.now (B.list ballot.now) }
            requires few { length (B.list ballot.now) ≤ 2 ^ 24 }
            requires part { HasPart other.now (B.groups ballot.now) back back_places.now }
            ensures seat { IsSeatOf table.entry.now other.exit.now }
            ensures added { AddsPart other.entry.now other.exit.now
                (B.groups ballot.entry.now) (B.votes ballot.entry.now) back back_places.exit.now }
        { poll(rt, table, other, ballot, back, back_places, gate) },
    );
}

// Enters the ids of some groups, and keeps their places.
#[cycle(polling)]
fn poll<B: Ballot, G: Gate, R: Threads + Sync>(
    rt: &R,
    table: &KeyTable,
    seat: &mut KeySeat,
    ballot: &B,
    part: Part,
    places: &mut [Place],
    gate: &G,
)
    requires seat { IsReady table.now seat.old (B.list ballot.now) }
    requires few { length (B.list ballot.now) ≤ 2 ^ 24 }
    requires part { HasPart seat.old (B.groups ballot.now) part places.old }
    ensures seat { IsSeatOf table.now seat.new }
    ensures added { AddsPart seat.old seat.new (B.groups ballot.now) (B.votes ballot.now) part places.new }
{
    let first = ballot.first(part.from);
    if part.workers < 2 {
        gate.pass(part.worker);
        poll_each(table, seat, ballot, first, places);
        gate.left(part.worker, places.len() as u32);
        return;
    }
    let (front, back) = halves(ballot, part, first, places.len() as u32);
    let mut other = table.fork(seat);
    let middle = ballot.first(back.from);
    let (front_places, back_places) = places.split_at_mut((middle - first) as usize);
    poll_parts(
        rt,
        table,
        seat,
        &mut other,
        ballot,
        front,
        back,
        front_places,
        back_places,
        gate,
    );
    table.rejoin(seat, other);
}

/// Takes the vote of all ids, by workers side by side: each has its own groups, and all step on one
/// table without a lock. Workers are numbered from 0 in the order of their groups. Each passes the
/// gate before its first id, and reports to the gate how many ids it entered; one without groups
/// does so too. The answers are the same for every number of workers and every schedule.
///
/// # Errors
/// Out of memory.
pub fn elect<B: Ballot, G: Gate, R: Threads + Sync>(
    rt: &R,
    alloc: Global,
    ballot: &B,
    workers: u32,
    gate: &G,
) -> Result<Polled, OutOfMemory>
    requires few { length (B.list ballot.now) ≤ 2 ^ 24 }
    requires workers { (1 ≤ workers) × (workers ≤ 64) }
    ensures { IfOk result (λ polled. IsPolled (B.list ballot.now) (B.votes ballot.now) polled) }
{
    let mut places = Vec::new(alloc);
    places.resize(ballot.len() as usize, Place::default())?;
    let (table, mut seat) = KeyTable::new(alloc, ballot)?;
    let all = Part {
        from: 0,
        to: ballot.groups(),
        worker: 0,
        workers,
    };
    poll(
        rt,
        &table,
        &mut seat,
        ballot,
        all,
        places.as_mut_slice(),
        gate,
    );
    let elected = table.close(alloc, seat)?;
    Ok(Polled { elected, places })
}
