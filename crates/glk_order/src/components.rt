// The strong components of tasks: the tasks that reach each other. Nothing is proved of them here
// but that they are safe to make; who uses the levels looks at them anew.
ghost use Rattle.std.specs.Prelude.{◌≡◌, length, IfOk};

use crate::chains::Chains;
use glk_base::OutOfMemory;
use std::alloc::Global;

// Stands for no number yet.
const NONE: u32 = u32::MAX;

// A task whose edges are being followed, and the next of them.
#[derive(Clone, Copy)]
struct Visit {
    task: u32,
    next: Option<u32>,
}

// How far the search has come.
#[derive(Drop)]
struct Components {
    // the place of each task that is found on the path, or where it was on it
    places: Vec<u32>,
    // the tasks that are found and whose component is not complete
    path: Vec<u32>,
    // where each component begins on the path, as far as it is known
    bounds: Vec<u32>,
    visits: Vec<Visit>,
    complete: u32,
    next_root: u32,
}

// The number at this place of a list.
fn number_at(numbers: &[u32], place: u32) -> u32 {
    numbers.get(place as usize).copied().unwrap_or(NONE)
}

// Sets the number at this place of a list.
fn set_number(numbers: &mut [u32], place: u32, number: u32) {
    if (place as usize) < numbers.len() {
        numbers[place as usize] = number;
    }
}

// The last edge of a task.
fn last_edge(needs: &Chains<'_>, task: u32) -> Option<u32> {
    if task < needs.count() {
        needs.last(task)
    } else {
        None
    }
}

impl Components {
    // No task is found.
    fn new(alloc: Global, count: u32) -> Result<Components, OutOfMemory> {
        Ok(Components {
            places: vec![in alloc; NONE; count as usize]?,
            path: Vec::new(alloc),
            bounds: Vec::new(alloc),
            visits: Vec::new(alloc),
            complete: 0,
            next_root: 0,
        })
    }

    // A task is found: for now it is a component of its own.
    fn find(&mut self, needs: &Chains<'_>, task: u32) -> Result<(), OutOfMemory> {
        let place = u32::try_from(self.path.len()).unwrap_or(NONE);
        set_number(self.places.as_mut_slice(), task, place);
        self.path.push(task)?;
        self.bounds.push(place)?;
        self.visits.push(Visit {
            task,
            next: last_edge(needs, task),
        })?;
        Ok(())
    }

    // The tasks from this place of the path on are one component.
    fn join(&mut self, place: u32) {
        while let Some(bound) = self.bounds.pop() {
            if bound <= place {
                let _ = self.bounds.push(bound);
                return;
            }
        }
    }

    // An edge leads to a task.
    fn follow(&mut self, needs: &Chains<'_>, task: u32, levels: &[u32]) -> Result<(), OutOfMemory> {
        let place = number_at(self.places.as_slice(), task);
        if place == NONE {
            return self.find(needs, task);
        }
        if number_at(levels, task) == NONE {
            self.join(place);
        }
        Ok(())
    }

    // The component that begins at this place of the path is complete.
    fn finish(&mut self, place: u32, levels: &mut [u32]) {
        while let Some(task) = self.path.pop() {
            set_number(levels, task, self.complete);
            if self.path.len() <= place as usize {
                break;
            }
        }
        self.complete = self.complete.saturating_add(1);
    }

    // All edges of a task are followed.
    fn leave(&mut self, task: u32, levels: &mut [u32]) {
        let place = number_at(self.places.as_slice(), task);
        if let Some(bound) = self.bounds.pop() {
            if bound == place {
                self.finish(place, levels);
            } else {
                let _ = self.bounds.push(bound);
            }
        }
    }

    // The next task that is not found begins a search of its own.
    fn find_root(&mut self, needs: &Chains<'_>) -> Result<(), OutOfMemory> {
        let root = self.next_root;
        self.next_root = root.saturating_add(1);
        if root < needs.count() && number_at(self.places.as_slice(), root) == NONE {
            self.find(needs, root)?;
        }
        Ok(())
    }

    // One step: an edge is followed, a task is left, or a root is looked at.
    fn step(&mut self, needs: &Chains<'_>, levels: &mut [u32]) -> Result<(), OutOfMemory> {
        match self.visits.pop() {
            Some(
                Visit {
                    task,
                    next: Some(edge),
                },
            ) if edge < needs.edge_count() => {
                let next = needs.before(edge);
                self.visits.push(Visit { task, next })?;
                self.follow(needs, needs.edge(edge).target, levels)
            }
            Some(Visit { task, .. }) => {
                self.leave(task, levels);
                Ok(())
            }
            None => self.find_root(needs),
        }
    }
}

// A level for each task, by its strong component: no edge leads to a higher level, and two tasks
// have the same level exactly where they reach each other. It takes a step for each edge and two
// for each task.
pub(crate) fn component_levels(
    alloc: Global,
    count: u32,
    needs: &Chains<'_>,
) -> Result<Vec<u32>, OutOfMemory>
    ensures { IfOk result (λ levels. length levels.items ≡ count) }
{
    let mut levels = vec![in alloc; NONE; count as usize]?;
    let mut components = Components::new(alloc, count)?;
    for _ in 0..needs.edge_count() as u64 + 2 * count as u64 {
        components.step(needs, levels.as_mut_slice())?;
    }
    Ok(levels)
}
