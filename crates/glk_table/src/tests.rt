// The calls of a table with two seats, and ranks. The crate above fills a table by threads.
ghost use Rattle.std.specs.Prelude.{◌<◌, ◌≤◌, ◌^◌, length};
ghost use Rattle.glk_table.specs.Tested.{numbered_keys, numbered_lawful};

use super::{KeyTable, Keys, RankClass, rank, rank_id, ranks_are_ordered};
use glk_base::{KeyId, SymId};
use std::test::Fail;

// Ids whose key is a number, and whose hash is the rest of that number.
#[derive(Drop)]
struct Numbered {
    names: Vec<u64>,
    hashes: u64,
    ghost few: { length names.items ≤ 2 ^ 24 },
    ghost some: { 0 < hashes },
}

impl Keys for Numbered {
    ghost list = { λ s. numbered_keys s.hashes s.names.items };

    ghost lawful = { λ s. numbered_lawful s.hashes s.names.items };

    fn len(&self) -> u32 {
        self.names.len() as u32
    }

    fn hash(&self, id: u32) -> u64 {
        self.names[id as usize] % self.hashes
    }

    fn same(&self, a: u32, b: u32) -> bool {
        self.names[a as usize] == self.names[b as usize]
    }
}

#[test]
fn the_least_id_and_rank_of_two_seats_win(rt: HostRuntime) -> Result<(), Fail> {
    let names = [7, 8, 7, 9].to_vec(rt.alloc())?;
    let keys = Numbered { names, hashes: 2 };
    let (table, mut seat) = KeyTable::new(rt.alloc(), &keys)?;
    let mut other = table.fork(&mut seat);
    let here = table.enter(&mut seat, &keys, 0);
    table.offer(&mut seat, here, 5, Some(SymId(0)));
    let there = table.enter(&mut other, &keys, 2);
    table.offer(&mut other, there, 3, Some(SymId(u32::MAX)));
    table.rejoin(&mut seat, other);
    let elected = table.close(rt.alloc(), seat)?;
    let found = (
        elected.key(there),
        elected.least(there),
        elected.greatest_strong(there),
    );
    assert!(rt; found == (KeyId(0), Some(3), Some(SymId(u32::MAX))));
    Ok(())
}

#[test]
fn ranks_go_by_class_then_size_then_id(rt: HostRuntime) {
    let ranks = [
        rank(RankClass::Strong, 8, SymId(6)),
        rank(RankClass::Shared, 16, SymId(5)),
        rank(RankClass::Shared, 8, SymId(3)),
        rank(RankClass::Shared, 8, SymId(4)),
        rank(RankClass::Other, u32::MAX, SymId(0)),
    ];
    assert!(rt; ranks.is_sorted() && ranks[0] == 6 && rank_id(ranks[3]) == SymId(4));
    ranks_are_ordered();
}
