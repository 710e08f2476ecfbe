//! What holds of the init tasks and init lists of all programs: laws of the definitions, which are proved
//! with these functions and cost nothing when they run.
#![tactic(auto)]

ghost use Rattle.glk_init_laws.specs.Existence.{HasTasks, HasFirstUndefined, HasListOrCycle};
ghost use Rattle.glk_init_laws.specs.Laws.{AreTasksOne, IsUndefinedOne, IsInitListOne, IsCycleOne};

/// The tasks of a root are one list.
pub fn one_list_of_tasks()
    ensures { AreTasksOne }
{}

/// Where no two tasks have one load position, one target is the first without a definition.
pub fn one_undefined()
    ensures { IsUndefinedOne }
{}

/// Where no two tasks have one load position, they have one init list.
pub fn one_init_list()
    ensures { IsInitListOne }
{}

/// Where no two tasks have one load position, one is the least on a cycle.
pub fn one_cycle()
    ensures { IsCycleOne }
{}

/// Each root has a list of its tasks.
pub fn some_tasks()
    ensures { HasTasks }
{}

/// Tasks have a first target without a definition, or all that they wait for has one.
pub fn some_undefined()
    ensures { HasFirstUndefined }
{}

/// Tasks that wait for what has a definition have a least one on a cycle, or an init list.
pub fn some_init_list()
    ensures { HasListOrCycle }
{}
