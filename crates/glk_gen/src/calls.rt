// The calls of a world's functions, which are drawn.
ghost use Rattle.std.specs.Prelude.{◌≡◌, ◌+◌, ◌*◌, ◌/◌, ◌<◌, ◌≤◌, ◌^◌, ℕ, IfOk, length, map, slice_index, slice_range};
ghost use Rattle.std.specs.List.{range_with_len};
ghost use Rattle.glk_gen.specs.Draws.{next_state, dropped_bits};
ghost use Rattle.glk_base.specs.Limits.{function_limit};
ghost use Rattle.glk_gen.specs.Calls.{calls_each, callee};

use glk_base::OutOfMemory;
use std::alloc::Global;

// The generator's numbers, of Knuth's MMIX.
const MULTIPLIER: u64 = 6364136223846793005;

const INCREMENT: u64 = 1442695040888963407;
// How many low bits of a state no draw has.
const DROPPED_BITS: u32 = 33;

/// How many calls each function makes.
pub(crate) const CALLS_EACH: u32 = 2;

/// The calls of all functions of a world, in the order of the functions.
#[derive(Drop)]
pub(crate) struct Calls {
    pub(crate) seed: u64,
    /// How many functions there are.
    pub(crate) functions: u32,
    /// The function to which each call goes.
    pub(crate) callees: Vec<u32>,
    ghost drawn: { callees.items ≡ map (callee seed functions) (range_with_len 0 (calls_each * functions)) },
    ghost some: { 0 < functions },
    ghost few: { functions ≤ function_limit },
}

// The state to which a draw goes on.
#[tactic(auto, unfolding(crate::specs::Draws::next_state))]
fn next_state(state: u64) -> u64
    ensures { result ≡ next_state state }
{
    state.wrapping_mul(MULTIPLIER).wrapping_add(INCREMENT)
}

// What is drawn with the state after it.
fn drawn(state: u64) -> u32
    ensures { result ≡ state / 2 ^ dropped_bits }
{
    (state >> DROPPED_BITS) as u32
}

// Draws the callees of n functions.
fn draw_callees(alloc: Global, seed: u64, n: u32) -> Result<Vec<u32>, OutOfMemory>
    requires some { 0 < n }
    requires few { n ≤ function_limit }
    ensures { IfOk result (λ callees.
        callees.items ≡ map (callee seed n) (range_with_len 0 (calls_each * n))) }
{
    let count = CALLS_EACH * n;
    let mut callees = Vec::with_capacity(alloc, count as usize)?;
    let mut state = seed;
    for _call in 0..count {
        state = next_state(state);
        callees.push(drawn(state) % n)?;
    }
    Ok(callees)
}

impl Calls {
    /// Draws the calls of `n` functions.
    pub(crate) fn draw(alloc: Global, seed: u64, n: u32) -> Result<Calls, OutOfMemory>
        requires some { 0 < n }
        requires few { n ≤ function_limit }
        ensures seed { IfOk result (λ calls. calls.seed ≡ seed) }
        ensures functions { IfOk result (λ calls. calls.functions ≡ n) }
    {
        Ok(Calls {
            seed,
            functions: n,
            callees: draw_callees(alloc, seed, n)?,
        })
    }

    /// The function to which a call goes.
    pub(crate) fn callee(&self, call: u32) -> u32
        requires { call < calls_each * self.now.functions }
        ensures { result ≡ callee self.now.seed self.now.functions call }
    {
        self.callees[call as usize]
    }

    /// The functions to which `count` calls go, from call `from` on.
    pub(crate) fn callees(&self, from: u32, count: u32) -> &[u32]
        requires { from + count ≤ calls_each * self.now.functions }
        ensures { result.now ≡ map (callee self.now.seed self.now.functions) (range_with_len from count) }
    {
        &self.callees[from as usize..(from + count) as usize]
    }
}
