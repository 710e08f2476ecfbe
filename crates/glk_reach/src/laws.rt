// What holds of every program: laws of the definitions, which are proved with these functions and cost
// nothing when they run.
ghost use Rattle.glk_reach.specs.Laws.{IsOneReachFault, AreFirstFaults};

/// The refusal of a program is one, whatever decides the facts.
pub fn reach_faults_are_one()
    ensures { IsOneReachFault }
{}

/// The first fault along a list of symbols is that of the first symbol that has one, and there is none
/// exactly where no symbol has one.
pub fn first_faults_are_first()
    ensures { AreFirstFaults }
{}
