// A program in memory with facts of all kinds.
ghost use Rattle.std.specs.Prelude.{◌≡◌, ◌<◌, ◌^◌, length, true, nat_lt};
ghost use Rattle.std.specs.List.{list_all};
ghost use Rattle.glk_closure_tests.specs.Sample.{effect_below, graph_of, list_below, lists_below, target_below};

use glk_base::OutOfMemory;
use glk_closure::{Effect, Program, Targets, kept_set};
use std::alloc::{AllocError, Global};
use std::test::Fail;

// The effects of each symbol, and one symbol each that has no definition, that an object flags, and
// that calls methods by reflection.
#[derive(Drop)]
struct Sample {
    roots: Vec<u32>,
    effects: Vec<Vec<Effect<'static>>>,
    missing: u32,
    flagged: u32,
    reflecting: u32,
    ghost few: { length effects.items < 2 ^ 32 },
    ghost within: { lists_below effects.items ≡ true },
    ghost roots_within: { list_all (λ r. nat_lt r (length effects.items)) roots.items ≡ true },
}

impl Program for Sample {
    ghost graph = { λ s. graph_of s.roots.items s.effects.items s.missing s.flagged s.reflecting };

    fn keys(&self) -> u32 {
        self.effects.len() as u32
    }

    fn roots(&self) -> &[u32] {
        self.roots.as_slice()
    }

    fn is_defined(&self, key: u32) -> bool {
        key != self.missing
    }

    fn is_flagged(&self, key: u32) -> bool {
        key == self.flagged
    }

    fn reflects(&self, key: u32) -> bool {
        key == self.reflecting
    }

    fn effects<'a>(&'a self, key: u32, out: &mut Vec<Effect<'a>>) -> Result<(), OutOfMemory> {
        out.clear();
        out.extend_from_slice(self.effects[key as usize].as_slice())?;
        Ok(())
    }
}

fn is_target_below(target: Option<u32>, n: usize) -> bool
    ensures { result ≡ target_below n target }
{
    match target {
        Some(t) => (t as usize) < n,
        None => true,
    }
}

fn is_effect_below(effect: Effect<'static>, n: usize) -> bool
    ensures { result ≡ effect_below n effect.entry }
{
    match effect {
        Effect::Keeps(t) | Effect::Links(t) | Effect::Funcdata(t) | Effect::Uses(t) => (t as usize)
            < n,
        Effect::Calls { name: _, of } => (of as usize) < n,
        Effect::Names(_) => true,
        Effect::Method { name: _, targets } => {
            is_target_below(targets.first, n)
                && is_target_below(targets.second, n)
                && is_target_below(targets.third, n)
        }
    }
}

fn is_list_below(list: &Vec<Effect<'static>>, n: usize) -> bool
    ensures { result ≡ list_below n list.now }
{
    list.as_slice()
        .iter()
        .all(|effect| is_effect_below(*effect, n))
}

fn are_lists_below(lists: &[Vec<Effect<'static>>]) -> bool
    ensures { result ≡ lists_below lists.now }
{
    let n = lists.len();
    lists.iter().all(|list| is_list_below(list, n))
}

fn are_roots_below(roots: &[u32], n: usize) -> bool
    ensures { result ≡ list_all (λ r. nat_lt r n) roots.now }
{
    roots.iter().all(|r| (*r as usize) < n)
}

// A program in which key 3 is missing, key 17 is flagged, and key 1 calls by reflection.
fn program_of(roots: Vec<u32>, effects: Vec<Vec<Effect<'static>>>) -> Option<Sample> {
    let n = effects.len();
    if n < 1 << 32 && are_lists_below(effects.as_slice()) && are_roots_below(roots.as_slice(), n) {
        Some(Sample {
            roots,
            effects,
            missing: 3,
            flagged: 17,
            reflecting: 1,
        })
    } else {
        None
    }
}

fn method(
    name: Option<&'static [u8]>,
    first: u32,
    second: u32,
    third: Option<u32>,
) -> Effect<'static> {
    Effect::Method {
        name,
        targets: Targets {
            first: Some(first),
            second: Some(second),
            third,
        },
    }
}

// The effects of a key: a root's, those of what it keeps, a type's methods, or none.
fn effects_of(alloc: Global, key: u32) -> Result<Vec<Effect<'static>>, AllocError> {
    match key {
        0 => [
            Effect::Keeps(1),
            Effect::Funcdata(2),
            Effect::Uses(4),
            Effect::Calls {
                name: b"read",
                of: 12,
            },
            Effect::Names(b"walk"),
        ]
        .to_vec(alloc),
        1 => [Effect::Keeps(3), Effect::Keeps(4)].to_vec(alloc),
        4 => [
            Effect::Links(5),
            method(Some(b"read"), 12, 6, Some(7)),
            method(Some(b"walk"), 13, 8, None),
            method(Some(b"Other"), 14, 9, Some(3)),
            method(Some(b"quiet"), 15, 10, None),
            method(None, 16, 11, None),
        ]
        .to_vec(alloc),
        _ => Ok(Vec::new(alloc)),
    }
}

// The program of 19 keys with these effects.
fn make_sample(alloc: Global) -> Result<Sample, Fail> {
    let mut effects = Vec::new(alloc);
    for key in 0..19 {
        effects.push(effects_of(alloc, key)?)?;
    }
    match program_of([0].to_vec(alloc)?, effects) {
        Some(program) => Ok(program),
        None => Err(Fail::new("the sample is wrong")),
    }
}

// What it keeps, and what of it is used in an interface.
fn lists(alloc: Global) -> Result<(Vec<u32>, Vec<u32>), Fail> {
    let program = make_sample(alloc)?;
    let kept = kept_set(alloc, &program)?;
    let iface = kept.iface_list(alloc)?;
    Ok((kept.list(alloc)?, iface))
}

#[test]
fn a_program_keeps_what_the_rules_give(rt: HostRuntime) -> Result<(), Fail> {
    let (kept, iface) = lists(rt.alloc())?;
    assert_eq!(rt;
        kept.as_slice(),
        [0, 1, 2, 4, 5, 6, 7, 8, 9, 12, 13, 14].as_slice()
    );
    assert_eq!(rt; iface.as_slice(), [4, 5, 12, 13, 14, 15, 16, 17].as_slice());
    Ok(())
}
