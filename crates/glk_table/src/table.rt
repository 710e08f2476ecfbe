// The shared words, and the calls on them.
ghost use Rattle.std.specs.Prelude.{◌≡◌, ℕ, ◌*◌, ◌^◌, ◌<◌, ◌≤◌, List, length, IfOk};
ghost use Rattle.glk_table.specs.Rule.{no_rank, opening_words, fresh_view, with_strong, kept_half, given_half, both_views, OnePlaceEach, Knows};
ghost use Rattle.glk_table.specs.Seats.{EntersAt, HasPlace, IsLeastPower, IsSeatOf, Offers, SeesMore, view_of};
ghost use Rattle.glk_table.specs.Probing.{GainsKeys, HasFound, HasPassed, HasSeen, IsFirstSeat, IsStepOf};

use super::keys::Keys;
use super::layout::{NO_RANK, WORDS_PER_PLACE, id_index, rank_index, strong_index};
use super::place::Place;
use super::plays::{Enter, Fill, GiveKeys, Halve, Look, Naming, Rank, Ruled, Strong};
use super::view::View;
use atomic_table::{Seat, Shared, Table};
use glk_base::{OutOfMemory, SymId};
use std::alloc::Global;
use std::marker::{Brand, Model};

/// A thread's right to step on one table. Contracts see what it has done there: its calls and
/// offers, and its part of the table. It has no bytes, and can be sent to another thread.
pub type KeySeat = Seat<(), View>;

/// A table of keys that threads share, each with a seat of its own. No call waits for another:
/// each step is one atomic step on one word.
///
/// With n ids it has c places, c being the least power of two not below 2n (1 where n is 0), in
/// 4c words of 8 bytes. For good hashes `enter` takes an expected constant number of probes, and c
/// at most; `offer`, `fork` and `rejoin` take a constant number of steps, `new` and `close` 4c.
///
/// Contracts see which table it is and how many places it has. Each seat knows the list of keys
/// that the table was made with.
#[derive(Drop)]
pub struct KeyTable {
    pub(crate) table: Table<(), View, usize, Ruled, Global>,
    pub(crate) size: usize,
}

impl Model for KeyTable {
    ghost use Rattle.glk_table.specs.Seats.{TableFacts, IsSized};

    ghost Value = { TableFacts };

    ghost view = { λ t. record { id = t.table.shared.table_id; size = t.size } };

    ghost invariant = { λ t. IsSized t.size t.table.shared.key t.table.shared.table_id };
}

// The words of a table at its start, quarter by quarter.
fn first_words(alloc: Global, size: usize) -> Result<Vec<u64>, OutOfMemory>
    requires { size ≤ 2 ^ 26 }
    ensures { IfOk result (λ v. v.items ≡ opening_words size) }
{
    let mut words = Vec::with_capacity(alloc, WORDS_PER_PLACE * size)?;
    words.resize(size, 0)?;
    words.resize(2 * size, NO_RANK)?;
    words.resize(3 * size, 0)?;
    words.resize(4 * size, NO_RANK)?;
    Ok(words)
}

// Gives the first seat the keys, by a load of the first word.
fn give_keys<L: Naming, K: Keys>(
    shared: &Shared<(), View, usize, Ruled>,
    seat: &mut KeySeat,
    _keys: &K,
)
    requires seat { IsFirstSeat shared.now.table_id shared.now.key seat.old }
    requires keys { (K.list _keys.now ≡ L.keys) × (length L.keys < shared.now.key) }
    ensures { GainsKeys shared.now.key L.keys seat.old seat.new }
{
    shared.load::<GiveKeys<L>>(seat, 0);
}

impl KeyTable {
    /// A table for these keys, with no id entered, and the seat that has the whole part of it. It
    /// takes 4c words, and as many again until it returns.
    ///
    /// # Errors
    /// Out of memory.
    pub fn new<K: Keys>(alloc: Global, keys: &K) -> Result<(KeyTable, KeySeat), OutOfMemory>
        requires { length (K.list keys.now) ≤ 2 ^ 24 }
        ensures seat { IfOk result (λ t. IsSeatOf t.0 t.1) }
        ensures view { IfOk result (λ t. view_of t.1 ≡ fresh_view t.0.size (K.list keys.now)) }
        ensures size { IfOk result (λ t. IsLeastPower (2 * length (K.list keys.now)) t.0.size) }
    {
        let size = (2 * keys.len() as usize).next_power_of_two();
        let words = first_words(alloc, size)?;
        let (table, mut seat) = Table::<(), View, usize, Ruled, Global>::of_words(
            alloc,
            words.as_slice(),
            &size,
        )?;
        give_keys::<Brand, K>(&table.shared, &mut seat, keys);
        Ok((KeyTable { table, size }, seat))
    }

    // The word at a place of the probe path of `id`, which is filled with `id` where it is free.
    fn probe(&self, seat: &mut KeySeat, id: u32, step: usize, at: usize) -> u64
        requires seat { IsSeatOf self.now seat.old }
        requires id { id < length (view_of seat.old).keys }
        requires place { IsStepOf self.now.size (view_of seat.old) id step at }
        requires earlier { HasPassed self.now.size (view_of seat.old) id step }
        ensures seat { IsSeatOf self.now seat.new × SeesMore (view_of seat.old) (view_of seat.new) }
        ensures word { HasSeen (view_of seat.old).keys (view_of seat.new) at result }
        ensures knows { Knows (view_of seat.new) }
    {
        let word = self.table.shared.load::<Look>(seat, at);
        if word != 0 {
            return word;
        }
        let found = self
            .table
            .shared
            .compare_exchange::<Fill>(seat, at, 0, id as u64 + 1);
        if found == 0 { id as u64 + 1 } else { found }
    }

    // Counts the call of `enter`, once the seat has seen the place filled with an id of this key.
    fn count_call(&self, seat: &mut KeySeat, id: u32, at: usize, word: u64)
        requires seat { IsSeatOf self.now seat.old }
        requires id { id < length (view_of seat.old).keys }
        requires place { HasFound self.now.size (view_of seat.old) id at word }
        ensures seat { IsSeatOf self.now seat.new }
        ensures entered { EntersAt (view_of seat.old) id at (view_of seat.new) }
        ensures knows { Knows (view_of seat.new) }
    {
        let _seen = word;
        let index = id_index(self.size, at);
        self.table.shared.fetch_min::<Enter>(seat, index, id as u64);
    }

    /// The place of the key of `id`. In all calls that the seat's view holds, ids of one key have
    /// one place, and ids of different keys have different places.
    pub fn enter<K: Keys>(&self, seat: &mut KeySeat, keys: &K, id: u32) -> Place
        requires seat { IsSeatOf self.now seat.old }
        requires keys { K.list keys.now ≡ (view_of seat.old).keys }
        requires id { id < length (K.list keys.now) }
        ensures seat { IsSeatOf self.now seat.new }
        ensures entered { EntersAt (view_of seat.old) id result (view_of seat.new) }
        ensures places { OnePlaceEach (view_of seat.new).keys (view_of seat.new).entered }
    {
        let mask = self.size - 1;
        let start = keys.hash(id) as usize & mask;
        for step in 0..self.size {
            let at = (start + step) & mask;
            let word = self.probe(seat, id, step, at);
            if keys.same((word - 1) as u32, id) {
                self.count_call(seat, id, at, word);
                return Place::new(at);
            }
        }
        unreachable!()
    }

    // Counts a rank at a place.
    fn offer_rank(&self, seat: &mut KeySeat, at: usize, rank: u64)
        requires seat { IsSeatOf self.now seat.old }
        requires place { at < self.now.size }
        requires rank { rank < no_rank }
        ensures seat { IsSeatOf self.now seat.new }
        ensures offered { Offers (view_of seat.old) at rank None (view_of seat.new) }
    {
        let index = rank_index(self.size, at);
        self.table.shared.fetch_min::<Rank>(seat, index, rank);
    }

    // Counts a strong id at a place.
    fn offer_strong(&self, seat: &mut KeySeat, at: usize, id: u32)
        requires seat { IsSeatOf self.now seat.old }
        requires place { at < self.now.size }
        ensures seat { IsSeatOf self.now seat.new }
        ensures offered { view_of seat.new ≡ with_strong at id (view_of seat.old) }
    {
        let index = strong_index(self.size, at);
        self.table
            .shared
            .fetch_max::<Strong>(seat, index, id as u64 + 1);
    }

    /// Offers a rank at a place that this seat has from `enter`, and an id if it is strong.
    pub fn offer(&self, seat: &mut KeySeat, place: Place, rank: u64, strong: Option<SymId>)
        requires seat { IsSeatOf self.now seat.old }
        requires place { HasPlace (view_of seat.old).entered place }
        requires rank { rank < no_rank }
        ensures seat { IsSeatOf self.now seat.new }
        ensures offered { Offers (view_of seat.old) place rank strong (view_of seat.new) }
    {
        let at = place.number();
        self.offer_rank(seat, at, rank);
        if let Some(id) = strong {
            self.offer_strong(seat, at, id.0);
        }
    }

    /// A seat for another thread, with half of the lent seat's part, rounded down, and no calls. The
    /// lent seat keeps its calls and the rest of its part. From the whole part of 2^32 on, a seat can
    /// be forked 32 times one under the other.
    pub fn fork(&self, seat: &mut KeySeat) -> KeySeat
        requires seat { IsSeatOf self.now seat.old }
        requires part { 2 ≤ (view_of seat.old).part }
        ensures seat { IsSeatOf self.now seat.new }
        ensures kept { view_of seat.new ≡ kept_half (view_of seat.old) }
        ensures forked { IsSeatOf self.now result }
        ensures given { view_of result ≡ given_half (view_of seat.old) }
    {
        self.table.shared.split_seat::<Halve>(seat)
    }

    /// The lent seat gains the calls, the offers and the part of the other, which is gone.
    pub fn rejoin(&self, seat: &mut KeySeat, other: KeySeat)
        requires seat { IsSeatOf self.now seat.old }
        requires other { IsSeatOf self.now other }
        ensures seat { IsSeatOf self.now seat.new }
        ensures both { view_of seat.new ≡ both_views (view_of seat.old) (view_of other) }
    {
        self.table.shared.join_seat::<Halve>(seat, other);
    }
}
