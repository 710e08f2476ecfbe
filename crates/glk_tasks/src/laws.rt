// What holds of the init order of every merged program: laws of the definitions, which are proved with
// these functions and cost nothing when they run.
ghost use Rattle.glk_tasks.specs.Laws.{AreAwaitedKeys, AreRootsKeys, HaveTasksOwnPositions};

/// No two tasks have their definitions at one load position.
pub fn own_positions()
    ensures { HaveTasksOwnPositions }
{}

/// What a key waits for is a key.
pub fn awaited_keys()
    ensures { AreAwaitedKeys }
{}

/// The root of tasks is a key.
pub fn root_keys()
    ensures { AreRootsKeys }
{}
