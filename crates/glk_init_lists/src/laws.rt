// What holds of the schedules of all programs: laws of the definitions, which are proved with these
// functions and cost nothing when they run.
ghost use Rattle.glk_init_lists.specs.Schedules.{IsOneSchedule, IsScheduleRefusal, IsSomeSchedule};

use glk_init_laws::{
    one_cycle, one_init_list, one_undefined, some_init_list, some_tasks, some_undefined,
};
use glk_tasks::{awaited_keys, own_positions, root_keys};

/// A program has one schedule, or one first refusal on the way to it.
pub fn one_schedule()
    ensures { IsOneSchedule }
{
    own_positions();
    one_undefined();
    one_cycle();
    one_init_list();
}

/// Each program has a schedule, or a first refusal on the way to it.
pub fn some_schedule()
    ensures { IsSomeSchedule }
{
    awaited_keys();
    root_keys();
    some_tasks();
    some_undefined();
    some_init_list();
}

/// A refusal on the way to a schedule is of what is linked, and of no file.
pub fn schedule_refusals()
    ensures { IsScheduleRefusal }
{}
