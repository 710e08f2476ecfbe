// What holds of every program: a law of the definitions, which is proved with its function and costs
// nothing when it runs.
ghost use Rattle.glk_closure.specs.Graph.{Graph};
ghost use Rattle.glk_closure.specs.Laws.{IsLeastReach};

/// What is derived is the least set of facts that is closed under the rules.
pub fn least_reach()
    ensures { (g : Graph) → IsLeastReach g }
{}
