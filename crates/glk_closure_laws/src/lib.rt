//! What holds of all programs: laws of reachability, which are proved with these functions and cost nothing
//! when they run.
#![tactic(auto)]

ghost use Rattle.glk_closure_laws.specs.Laws.{HasFacts, HasLeast};

/// Of each fact it can be told whether it has a derivation.
pub fn some_facts()
    ensures { HasFacts }
{}

/// Each program has a least set.
pub fn some_least()
    ensures { HasLeast }
{}
