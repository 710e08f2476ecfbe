// What a vote is on: ids in groups, their keys, and the vote of each.
ghost use Rattle.std.specs.Prelude.{◌≡◌, ℕ, ◌<◌, ◌≤◌, List, length, Option};
ghost use Rattle.std.specs.List.{sum};
ghost use Rattle.glk_elect.specs.Ballots.{first_of, vote_at, IsRank};

use glk_table::Keys;

/// What an id votes for: a rank below 2^64 - 1, and itself as a strong id if it is strong.
#[derive(Clone, Copy, Debug, PartialEq, Eq)]
pub struct Vote {
    pub rank: u64,
    pub strong: bool,
}

/// Ids with their keys, in groups, one after the other, and the vote of each id. Contracts see the
/// number of ids of each group, and a list of votes. An id without a vote counts for its key alone.
pub trait Ballot: Keys {
    ghost use Rattle.glk_elect.specs.declared.ballot.Vote.{Vote};

    ghost groups: { Self → List ℕ };

    ghost votes: { Self → List (Option Vote) };

    /// How many groups there are.
    fn groups(&self) -> u32
        ensures { result ≡ length (groups self.now) };

    /// The first id of a group; after the last group, the number of ids.
    fn first(&self, group: u32) -> u32
        requires { group ≤ length (groups self.now) }
        ensures { result ≡ first_of (groups self.now) group };

    /// The vote of an id, if it has one.
    fn vote(&self, id: u32) -> Option<Vote>
        requires { id < length (Self.list self.now) }
        ensures value { result ≡ vote_at (votes self.now) id }
        ensures ranked { IsRank result };

    ghost grouped: { (x : Self) → sum (groups x) ≡ length (Self.list x) };
}
