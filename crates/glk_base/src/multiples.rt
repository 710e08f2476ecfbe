// Least multiples, as addresses and offsets are aligned.
ghost use Rattle.std.specs.Prelude.{◌<◌, ◌≤◌, ◌+◌, ◌^◌};
ghost use Rattle.glk_base.specs.Multiples.{IsLeastMultiple};

/// The least multiple of `n` that is not below the bound.
#[tactic(auto, using(crate::proofs::MultipleLemmas::multiple_is_least))]
pub fn least_multiple(n: u64, bound: u64) -> u64
    requires some { 0 < n }
    requires small { n ≤ 2 ^ 32 }
    requires fits { bound ≤ 2 ^ 63 + 2 ^ 32 }
    ensures { IsLeastMultiple n bound result }
{
    (bound + (n - 1)) / n * n
}
