// What a vote came to.
ghost use Rattle.std.specs.Prelude.{◌≡◌, ◌<◌, length, slice_index};
ghost use Rattle.glk_elect.specs.Answers.{IsGreatestOf, IsLeastOf, IsLeastRankOf, OfVotes, number_of};

use glk_base::{KeyId, SymId};
use glk_table::{Elected, Place};
use std::marker::Model;

/// What a vote came to. Contracts see it as the closed table with the place of each id; `IsPolled`
/// says what was counted. Each answer takes constant time and no memory.
#[derive(Drop)]
pub struct Polled {
    pub(crate) elected: Elected,
    pub(crate) places: Vec<Place>,
}

impl Model for Polled {
    ghost use Rattle.glk_elect.specs.Polls.{Poll, IsOfSome};

    ghost Value = { Poll };

    ghost view = { λ p. record { election = p.elected; places = p.places.items } };

    ghost invariant = { λ p. IsOfSome (record { election = p.elected; places = p.places.items }) };
}

impl Polled {
    /// The closed table.
    pub fn elected(&self) -> &Elected
        ensures { result.now ≡ self.now.election }
    {
        &self.elected
    }

    /// The place of an id in the closed table.
    pub fn place(&self, id: u32) -> Place
        requires { id < length self.now.places }
        ensures { result ≡ slice_index self.now.places id }
    {
        self.places[id as usize]
    }

    /// The key of an id: the least id that has it.
    pub fn key(&self, id: u32) -> KeyId
        requires { id < length self.now.places }
        ensures { IsLeastOf self.now.election.keys id result.0 }
    {
        self.elected.key(self.place(id))
    }

    /// The least rank among the votes for the key of an id, or none exactly where there is none.
    pub fn least(&self, id: u32) -> Option<u64>
        requires { id < length self.now.places }
        ensures { OfVotes self.now (λ keys votes. IsLeastRankOf keys votes id result) }
    {
        self.elected.least(self.place(id))
    }

    /// The greatest strong id of the key of an id, or none exactly where there is none.
    pub fn greatest_strong(&self, id: u32) -> Option<SymId>
        requires { id < length self.now.places }
        ensures { OfVotes self.now (λ keys votes. IsGreatestOf keys votes id (number_of result)) }
    {
        self.elected.greatest_strong(self.place(id))
    }
}
