// The vote with one worker and with several, and two workers that have to run side by side.
ghost use Rattle.std.specs.Prelude.{◌≡◌, ◌<◌, ◌≤◌, ◌*◌, ◌^◌, length};
ghost use Rattle.glk_elect.specs.Tested.{numbered_keys, votes_of, even_groups};
ghost use Rattle.glk_elect.specs.Numbered.{numbered_lawful, grouped_names};

use super::{Ballot, Polled, Vote, elect};
use glk_base::{KeyId, SymId};
use glk_io::{Gate, Open};
use glk_table::Keys;
use std::sync::atomic::{AtomicU64, Ordering};
use std::test::Fail;

// Ids in groups of one size. Each is a number that has its key and its vote.
#[derive(Drop)]
struct Numbered {
    names: Vec<u64>,
    each: u32,
    count: u32,
    ghost few: { length names.items ≤ 2 ^ 24 },
    ghost whole: { count * each ≡ length names.items },
}

impl Keys for Numbered {
    ghost list = { λ s. numbered_keys s.names.items };

    ghost lawful = { λ s. numbered_lawful s.names.items };

    fn len(&self) -> u32 {
        self.names.len() as u32
    }

    fn hash(&self, id: u32) -> u64 {
        self.names[id as usize] / 1000 % 4
    }

    fn same(&self, a: u32, b: u32) -> bool {
        self.names[a as usize] / 1000 == self.names[b as usize] / 1000
    }
}

impl Ballot for Numbered {
    ghost groups = { λ s. even_groups s.each s.count };

    ghost votes = { λ s. votes_of s.names.items };

    ghost grouped = { λ s. grouped_names s.each s.count s.names.items s.whole };

    fn groups(&self) -> u32 {
        self.count
    }

    fn first(&self, group: u32) -> u32 {
        group * self.each
    }

    fn vote(&self, id: u32) -> Option<Vote> {
        let name = self.names[id as usize];
        if name % 1000 == 0 {
            None
        } else {
            Some(Vote {
                rank: name % 1000,
                strong: name % 2 == 1,
            })
        }
    }
}

// The key of an id, and the least rank and the greatest strong id of that key.
fn answer_of(polled: &Polled, id: u32) -> (KeyId, Option<u64>, Option<SymId>)
    requires { id < length polled.now.places }
{
    (polled.key(id), polled.least(id), polled.greatest_strong(id))
}

#[test]
fn the_answers_are_those_of_all_ids_for_each_number_of_workers(
    rt: HostRuntime,
) -> Result<(), Fail> {
    for workers in 1..65u32 {
        let names = [7005, 8000, 7003, 9010, 8004, 7000].to_vec(rt.alloc())?;
        let ballot = Numbered {
            names,
            each: 2,
            count: 3,
        };
        let polled = elect(&rt, rt.alloc(), &ballot, workers, &Open)?;
        let found = [
            answer_of(&polled, 5),
            answer_of(&polled, 4),
            answer_of(&polled, 3),
        ];
        let wanted = [
            (KeyId(0), Some(3), Some(SymId(2))),
            (KeyId(1), Some(4), None),
            (KeyId(3), Some(10), None),
        ];
        assert!(rt; found == wanted, "with {workers} workers");
    }
    Ok(())
}

#[test]
fn no_ids_are_polled(rt: HostRuntime) -> Result<(), Fail> {
    let ballot = Numbered {
        names: Vec::new(rt.alloc()),
        each: 1,
        count: 0,
    };
    let _polled = elect(&rt, rt.alloc(), &ballot, 64, &Open)?;
    Ok(())
}

// Holds worker 0 until worker 1 has left, and worker 1 until worker 0 has passed, each for a while.
#[derive(Drop)]
struct Held {
    passed: AtomicU64,
    left: AtomicU64,
    in_time: AtomicU64,
    rows: AtomicU64,
}

fn wait_for(word: &AtomicU64) -> bool {
    for _ in 0..10_000_000u32 {
        if word.load(Ordering::SeqCst) > 0 {
            return true;
        }
    }
    false
}

impl Gate for Held {
    fn pass(&self, worker: u32) {
        if worker == 0 {
            self.passed.store(1, Ordering::SeqCst);
            if wait_for(&self.left) {
                self.in_time.store(1, Ordering::SeqCst);
            }
        } else {
            wait_for(&self.passed);
        }
    }

    fn left(&self, worker: u32, rows: u32) {
        self.rows.fetch_add(rows as u64, Ordering::SeqCst);
        if worker == 1 {
            self.left.store(rows as u64, Ordering::SeqCst);
        }
    }
}

#[test]
fn two_workers_run_at_once(rt: HostRuntime) -> Result<(), Fail> {
    let names = [7005, 8000, 7003, 9010, 8004, 7000].to_vec(rt.alloc())?;
    let ballot = Numbered {
        names,
        each: 3,
        count: 2,
    };
    let gate = Held {
        passed: AtomicU64::new(0),
        left: AtomicU64::new(0),
        in_time: AtomicU64::new(0),
        rows: AtomicU64::new(0),
    };
    let _polled = elect(&rt, rt.alloc(), &ballot, 2, &gate)?;
    assert_eq!(rt; gate.in_time.load(Ordering::SeqCst), 1);
    assert_eq!(rt; gate.rows.load(Ordering::SeqCst), 6);
    Ok(())
}
