// A closed table, and what it answers.
ghost use Rattle.std.specs.Prelude.{◌≡◌, ◌^◌, IfOk};
ghost use Rattle.std.specs.Mem.Slots.{slots_items};
ghost use Rattle.glk_table.specs.Elections.{AreArrays, AreKeys, AreRanks, AreStrong, HasWords, HaveStrong, IsGreatestStrong, IsLeast, IsLeastId, IsLeastOfKey, election_of};
ghost use Rattle.glk_table.specs.Rule.{OnePlaceEach};
ghost use Rattle.glk_table.specs.Seats.{HasPlace, IsSeatOf, view_of};

use super::layout::{NO_RANK, id_index, rank_index, strong_index};
use super::place::Place;
use super::table::{KeySeat, KeyTable};
use atomic_table::Closed;
use glk_base::{KeyId, OutOfMemory, SymId};
use std::alloc::Global;
use std::marker::Model;
use std::snapshot::Snapshot;

// What is answered at each place.
#[derive(Drop)]
struct Arrays {
    // The least entered id.
    keys: Vec<u32>,
    // The least rank, or `NO_RANK`.
    ranks: Vec<u64>,
    // The greatest strong id.
    strong: Vec<u32>,
    // Whether there is a strong id.
    has_strong: Vec<bool>,
}

/// A closed table. Contracts see it as the keys that the table was made with, and the calls, ranks
/// and strong ids of all seats: no answer depends on which thread came first. Only
/// `KeyTable::close` makes one. Each answer takes constant time and no memory, and threads may
/// share it. It takes 17 bytes a place.
#[derive(Drop)]
pub struct Elected {
    arrays: Arrays,
    last: Snapshot<KeySeat>,
}

impl Model for Elected {
    ghost use Rattle.glk_table.specs.Elections.{Election, IsElected, election_of};
    ghost use Rattle.glk_table.specs.Seats.{view_of};

    ghost Value = { Election };

    ghost view = { λ e. election_of (view_of e.last.value) };

    ghost invariant = { λ e. IsElected (view_of e.last.value) e.arrays };
}

// The least ranks of a closed table.
fn ranks_of(
    alloc: Global,
    closed: &Closed<(), Global>,
    size: usize,
) -> Result<Vec<u64>, OutOfMemory>
    requires { HasWords closed.now size }
    ensures { IfOk result (λ v. AreRanks size (slots_items closed.now.words) v.items) }
{
    let mut ranks = Vec::with_capacity(alloc, size)?;
    for at in 0..size {
        ranks.push(closed.word(rank_index(size, at)))?;
    }
    Ok(ranks)
}

// The least entered ids of a closed table.
fn keys_of(alloc: Global, closed: &Closed<(), Global>, size: usize) -> Result<Vec<u32>, OutOfMemory>
    requires { HasWords closed.now size }
    ensures { IfOk result (λ v. AreKeys size (slots_items closed.now.words) v.items) }
{
    let mut keys = Vec::with_capacity(alloc, size)?;
    for at in 0..size {
        let word = closed.word(id_index(size, at));
        keys.push(word.min(u32::MAX as u64) as u32)?;
    }
    Ok(keys)
}

// The greatest strong ids of a closed table.
fn strong_of(
    alloc: Global,
    closed: &Closed<(), Global>,
    size: usize,
) -> Result<Vec<u32>, OutOfMemory>
    requires { HasWords closed.now size }
    ensures { IfOk result (λ v. AreStrong size (slots_items closed.now.words) v.items) }
{
    let mut strong = Vec::with_capacity(alloc, size)?;
    for at in 0..size {
        let word = closed.word(strong_index(size, at));
        strong.push(word.saturating_sub(1).min(u32::MAX as u64) as u32)?;
    }
    Ok(strong)
}

// At which places of a closed table a strong id was offered.
fn has_strong_of(
    alloc: Global,
    closed: &Closed<(), Global>,
    size: usize,
) -> Result<Vec<bool>, OutOfMemory>
    requires { HasWords closed.now size }
    ensures { IfOk result (λ v. HaveStrong size (slots_items closed.now.words) v.items) }
{
    let mut has = Vec::with_capacity(alloc, size)?;
    for at in 0..size {
        let word = closed.word(strong_index(size, at));
        has.push(0 < word)?;
    }
    Ok(has)
}

// The words of a closed table as arrays.
fn arrays_of(alloc: Global, closed: &Closed<(), Global>, size: usize) -> Result<Arrays, OutOfMemory>
    requires { HasWords closed.now size }
    ensures { IfOk result (AreArrays size (slots_items closed.now.words)) }
{
    let keys = keys_of(alloc, closed, size)?;
    let ranks = ranks_of(alloc, closed, size)?;
    let strong = strong_of(alloc, closed, size)?;
    let has_strong = has_strong_of(alloc, closed, size)?;
    Ok(Arrays {
        keys,
        ranks,
        strong,
        has_strong,
    })
}

impl KeyTable {
    /// Ends the table, once every other seat was joined into this one: then its part is whole. The
    /// answers take 17 bytes a place beside the table's 32 until it returns. After out of memory
    /// the table and the seat are gone.
    ///
    /// # Errors
    /// Out of memory.
    pub fn close(self, alloc: Global, seat: KeySeat) -> Result<Elected, OutOfMemory>
        requires seat { IsSeatOf self seat }
        requires whole { (view_of seat).part ≡ 2 ^ 32 }
        ensures lists { IfOk result (λ e. e ≡ election_of (view_of seat)) }
        ensures places { IfOk result (λ e. OnePlaceEach e.keys e.entered) }
    {
        let last = Snapshot::of(&seat);
        let KeyTable { table, size } = self;
        let closed = table.close_with(seat);
        let arrays = arrays_of(alloc, &closed, size);
        closed.free();
        let arrays = arrays?;
        Ok(Elected { arrays, last })
    }
}

impl Elected {
    /// Ids of one key have one place, and ids of different keys different places: a law, which
    /// costs nothing.
    pub fn one_place_each(&self)
        ensures { OnePlaceEach self.now.keys self.now.entered }
    {
        let _arrays = &self.arrays;
    }

    /// The key at a place: the least id that was entered there, which is the least entered id of
    /// its key.
    pub fn key(&self, place: Place) -> KeyId
        requires { HasPlace self.now.entered place }
        ensures least { IsLeastId self.now.entered place result.0 }
        ensures of_key { IsLeastOfKey self.now place result.0 }
    {
        KeyId(self.arrays.keys[place.number()])
    }

    /// The least rank that was offered at the place, or none exactly where none was.
    pub fn least(&self, place: Place) -> Option<u64>
        requires { HasPlace self.now.entered place }
        ensures { IsLeast self.now place result }
    {
        let rank = self.arrays.ranks[place.number()];
        if rank == NO_RANK { None } else { Some(rank) }
    }

    /// The greatest strong id that was offered at the place, or none exactly where none was.
    pub fn greatest_strong(&self, place: Place) -> Option<SymId>
        requires { HasPlace self.now.entered place }
        ensures { IsGreatestStrong self.now place result }
    {
        let at = place.number();
        if self.arrays.has_strong[at] {
            Some(SymId(self.arrays.strong[at]))
        } else {
            None
        }
    }
}
