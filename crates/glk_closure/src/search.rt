// The search for what is kept.
ghost use Rattle.std.specs.Prelude.{◌≡◌, ◌<◌, ◌↔◌, ℕ, length, true, false, IfOk, OnOk, IsTrue};
ghost use Rattle.glk_closure.specs.Views.{effect_view, name_view, AreBelow, IsWithin};
ghost use Rattle.glk_closure.specs.Reach.{Fact, Has, Kept, Iface, Sig, Named, Reflect, Reach, is_exported};
ghost use Rattle.glk_closure.specs.Marks.{Holds, Waits, Adds, SameRows, Covers, Extends, ExtendsIf, IsBelow, OfTarget, AllKept, AllBack, called_at, ExtendsBy, KeepsTargets, KeepsIfCalled, ExtendsByRow, AreWokenAt, IsCalledAt, ExtendsByWait, WaitsAt};
ghost use Rattle.glk_closure.specs.Rows.{Stands};
ghost use Rattle.glk_closure.specs.Search.{IsGiven, IsVisited, WaitsForCalls, WaitsByType, IsWaiting, ExtendsByMethod, HasRoots, HasFlagged, Searching, weight};

use crate::call_table::CallTable;
use crate::effect::{Effect, Targets};
use crate::mark_table::MarkTable;
use crate::marks::{Marks, is_exported_name};
use crate::program::Program;
use glk_base::OutOfMemory;
use std::alloc::Global;

// Keeps a key where it has a definition.
fn keep_defined<P: Program>(program: &P, marks: &mut Marks<'_>, key: u32) -> Result<(), OutOfMemory>
    requires key { key < (P.graph program.now).keys }
    requires covers { Covers marks.old (P.graph program.now).keys }
    ensures { OnOk result (Adds marks.old marks.new (Kept key) ((P.graph program.now).defined key)) }
{
    if !program.is_defined(key) {
        return Ok(());
    }
    marks.keep(key)
}

// Gives Iface to a key where it has a definition.
fn mark_defined<P: Program>(program: &P, marks: &mut Marks<'_>, key: u32) -> Result<(), OutOfMemory>
    requires key { key < (P.graph program.now).keys }
    requires covers { Covers marks.old (P.graph program.now).keys }
    ensures { OnOk result (Adds marks.old marks.new (Iface key) ((P.graph program.now).defined key)) }
{
    if !program.is_defined(key) {
        return Ok(());
    }
    marks.mark_iface(key)
}

// Keeps a target where it is there and has a definition.
fn keep_target<P: Program>(
    program: &P,
    marks: &mut Marks<'_>,
    target: Option<u32>,
) -> Result<(), OutOfMemory>
    requires below { IsBelow (P.graph program.now).keys target }
    requires covers { Covers marks.old (P.graph program.now).keys }
    ensures extends { OnOk result (ExtendsIf (P.graph program.now)
        (OfTarget (P.graph program.now) (λ t. Reach (P.graph program.now) (Kept t)) target)
        marks.old marks.new) }
    ensures same { OnOk result (SameRows marks.old marks.new) }
    ensures kept { OnOk result (OfTarget (P.graph program.now) (λ t. Holds marks.new (Kept t)) target) }
{
    if let Some(key) = target {
        keep_defined(program, marks, key)?;
    }
    Ok(())
}

// Keeps the targets of a method.
fn keep_targets<P: Program>(
    program: &P,
    marks: &mut Marks<'_>,
    targets: Targets,
) -> Result<(), OutOfMemory>
    requires below { AreBelow (P.graph program.now).keys targets }
    requires covers { Covers marks.old (P.graph program.now).keys }
    ensures extends { OnOk result (KeepsTargets (P.graph program.now) targets marks.old marks.new) }
    ensures same { OnOk result (SameRows marks.old marks.new) }
    ensures kept { OnOk result (AllKept (P.graph program.now) marks.new targets) }
{
    keep_target(program, marks, targets.first)?;
    keep_target(program, marks, targets.second)?;
    keep_target(program, marks, targets.third)?;
    Ok(())
}

// Keeps the targets of the methods that wait in a row.
fn wake<P: Program>(program: &P, marks: &mut Marks<'_>, row: u32) -> Result<(), OutOfMemory>
    requires row { row < length marks.old.rows.items }
    requires covers { Covers marks.old (P.graph program.now).keys }
    ensures extends { OnOk result (ExtendsByRow (P.graph program.now) row marks.old marks.new) }
    ensures same { OnOk result (SameRows marks.old marks.new) }
    ensures kept { OnOk result (AreWokenAt (P.graph program.now) row marks.old marks.new) }
{
    for j in 0..marks.rows[row as usize].methods.len() {
        let targets = marks.rows[row as usize].methods[j];
        keep_targets(program, marks, targets)?;
    }
    Ok(())
}

// Marks the call of a row, and wakes what waits for it. A row is walked once.
fn call<P: Program>(program: &P, marks: &mut Marks<'_>, row: u32) -> Result<(), OutOfMemory>
    requires row { row < length marks.old.rows.items }
    requires covers { Covers marks.old (P.graph program.now).keys }
    ensures extends { OnOk result (ExtendsByRow (P.graph program.now) row marks.old marks.new) }
    ensures called { OnOk result (IsCalledAt row marks.old marks.new) }
{
    if marks.rows[row as usize].called {
        return Ok(());
    }
    wake(program, marks, row)?;
    marks.rows[row as usize].called = true;
    Ok(())
}

// Keeps the targets of a method where a row's call was met.
fn keep_if_called<P: Program>(
    program: &P,
    marks: &mut Marks<'_>,
    row: u32,
    targets: Targets,
) -> Result<(), OutOfMemory>
    requires row { row < length marks.old.rows.items }
    requires below { AreBelow (P.graph program.now).keys targets }
    requires covers { Covers marks.old (P.graph program.now).keys }
    ensures extends { OnOk result (KeepsIfCalled (P.graph program.now) row targets marks.old marks.new) }
    ensures same { OnOk result (SameRows marks.old marks.new) }
    ensures kept { OnOk result (called_at marks.old.rows.items row ≡ true →
        AllKept (P.graph program.now) marks.new targets) }
{
    if !marks.rows[row as usize].called {
        return Ok(());
    }
    keep_targets(program, marks, targets)
}

// Lets a method wait in a row, and keeps its targets where the row's call was met.
fn wait<P: Program>(
    program: &P,
    marks: &mut Marks<'_>,
    row: u32,
    targets: Targets,
) -> Result<(), OutOfMemory>
    requires row { row < length marks.old.rows.items }
    requires below { AreBelow (P.graph program.now).keys targets }
    requires covers { Covers marks.old (P.graph program.now).keys }
    ensures extends { OnOk result (ExtendsByWait (P.graph program.now) row targets marks.old marks.new) }
    ensures waits { OnOk result (WaitsAt row targets marks.old marks.new) }
{
    keep_if_called(program, marks, row, targets)?;
    marks.rows[row as usize].methods.push(targets)?;
    Ok(())
}

// Gives Iface to a type where it is there and has a definition.
fn pass_iface<P: Program>(
    program: &P,
    marks: &mut Marks<'_>,
    target: Option<u32>,
) -> Result<(), OutOfMemory>
    requires below { IsBelow (P.graph program.now).keys target }
    requires covers { Covers marks.old (P.graph program.now).keys }
    ensures extends { OnOk result (ExtendsIf (P.graph program.now)
        (OfTarget (P.graph program.now) (λ t. Reach (P.graph program.now) (Iface t)) target)
        marks.old marks.new) }
    ensures given { OnOk result (OfTarget (P.graph program.now) (λ t. Holds marks.new (Iface t)) target) }
{
    if let Some(key) = target {
        mark_defined(program, marks, key)?;
    }
    Ok(())
}

// Lets a method wait for the calls of its name by its type; the name alone has the row `named`.
fn wait_by_type<'a, P: Program>(
    alloc: Global,
    program: &P,
    marks: &mut Marks<'a>,
    named: u32,
    name: &'a [u8],
    targets: Targets,
) -> Result<(), OutOfMemory>
    requires named { Stands marks.old.calls named (Named name.now) }
    requires below { AreBelow (P.graph program.now).keys targets }
    requires covers { Covers marks.old (P.graph program.now).keys }
    ensures extends { OnOk result (ExtendsIf (P.graph program.now)
        (AllBack (P.graph program.now) name.now targets) marks.old marks.new) }
    ensures waits { OnOk result (WaitsByType marks.new name.now targets) }
{
    if let Some(first) = targets.first {
        let row = marks.sig_row(alloc, named, name, first)?;
        wait(program, marks, row, targets)?;
    }
    Ok(())
}

// Lets a method wait for reflection where it can call its name.
fn wait_by_reflection<'a, P: Program>(
    alloc: Global,
    program: &P,
    marks: &mut Marks<'a>,
    name: &'a [u8],
    targets: Targets,
) -> Result<(), OutOfMemory>
    requires below { AreBelow (P.graph program.now).keys targets }
    requires covers { Covers marks.old (P.graph program.now).keys }
    ensures extends { OnOk result (ExtendsIf (P.graph program.now)
        (AllBack (P.graph program.now) name.now targets) marks.old marks.new) }
    ensures waits { OnOk result (IsTrue (is_exported name.now) → Waits marks.new Reflect targets) }
{
    if is_exported_name(name) {
        let row = marks.reflection_row(alloc)?;
        wait(program, marks, row, targets)?;
    }
    Ok(())
}

// Lets a method wait for each fact that calls its name.
fn wait_for_calls<'a, P: Program>(
    alloc: Global,
    program: &P,
    marks: &mut Marks<'a>,
    name: &'a [u8],
    targets: Targets,
) -> Result<(), OutOfMemory>
    requires below { AreBelow (P.graph program.now).keys targets }
    requires covers { Covers marks.old (P.graph program.now).keys }
    ensures extends { OnOk result (ExtendsIf (P.graph program.now)
        (AllBack (P.graph program.now) name.now targets) marks.old marks.new) }
    ensures waits { OnOk result (WaitsForCalls marks.new name.now targets) }
{
    let named = marks.named_row(alloc, name)?;
    wait(program, marks, named, targets)?;
    wait_by_type(alloc, program, marks, named, name, targets)?;
    wait_by_reflection(alloc, program, marks, name, targets)
}

// Takes up a method of a kept type with Iface: its type has Iface, and it waits for its calls.
fn take_method<'a, P: Program>(
    alloc: Global,
    program: &P,
    marks: &mut Marks<'a>,
    name: Option<&'a [u8]>,
    targets: Targets,
) -> Result<(), OutOfMemory>
    requires below { AreBelow (P.graph program.now).keys targets }
    requires covers { Covers marks.old (P.graph program.now).keys }
    ensures extends { OnOk result (ExtendsByMethod (P.graph program.now) (name_view name.entry) targets
        marks.old marks.new) }
    ensures waiting { OnOk result (IsWaiting (P.graph program.now) marks.new
        (name_view name.entry) targets) }
{
    pass_iface(program, marks, targets.first)?;
    match name {
        Some(name) => wait_for_calls(alloc, program, marks, name, targets),
        None => Ok(()),
    }
}

// Marks a call by name.
fn call_name<'a, P: Program>(
    alloc: Global,
    program: &P,
    marks: &mut Marks<'a>,
    name: &'a [u8],
) -> Result<(), OutOfMemory>
    requires covers { Covers marks.old (P.graph program.now).keys }
    ensures extends { OnOk result (ExtendsBy (P.graph program.now) (Named name.now) marks.old marks.new) }
    ensures called { OnOk result (Holds marks.new (Named name.now)) }
{
    let row = marks.named_row(alloc, name)?;
    call(program, marks, row)
}

// Marks a call by name and type.
fn call_sig<'a, P: Program>(
    alloc: Global,
    program: &P,
    marks: &mut Marks<'a>,
    name: &'a [u8],
    of: u32,
) -> Result<(), OutOfMemory>
    requires covers { Covers marks.old (P.graph program.now).keys }
    ensures extends { OnOk result (ExtendsBy (P.graph program.now) (Sig name.now of) marks.old marks.new) }
    ensures called { OnOk result (Holds marks.new (Sig name.now of)) }
{
    let named = marks.named_row(alloc, name)?;
    let row = marks.sig_row(alloc, named, name, of)?;
    call(program, marks, row)
}

// Marks the call of a method by its name and type, where the type has a definition.
fn call_defined<'a, P: Program>(
    alloc: Global,
    program: &P,
    marks: &mut Marks<'a>,
    name: &'a [u8],
    of: u32,
) -> Result<(), OutOfMemory>
    requires key { of < (P.graph program.now).keys }
    requires covers { Covers marks.old (P.graph program.now).keys }
    ensures extends { OnOk result (ExtendsIf (P.graph program.now)
        (IsTrue ((P.graph program.now).defined of) → Reach (P.graph program.now) (Sig name.now of))
        marks.old marks.new) }
    ensures called { OnOk result
        (IsTrue ((P.graph program.now).defined of) → Holds marks.new (Sig name.now of)) }
{
    if program.is_defined(of) {
        call_sig(alloc, program, marks, name, of)?;
    }
    Ok(())
}

// Marks reflection, where a key calls methods so.
fn call_by_reflection<P: Program>(
    alloc: Global,
    program: &P,
    marks: &mut Marks<'_>,
    reflects: bool,
) -> Result<(), OutOfMemory>
    requires covers { Covers marks.old (P.graph program.now).keys }
    ensures extends { OnOk result (ExtendsIf (P.graph program.now)
        (IsTrue reflects → Reach (P.graph program.now) Reflect) marks.old marks.new) }
    ensures called { OnOk result (IsTrue reflects → Holds marks.new Reflect) }
{
    if reflects {
        let row = marks.reflection_row(alloc)?;
        call(program, marks, row)?;
    }
    Ok(())
}

// Does what an effect of a kept key gives.
fn apply<'a, P: Program>(
    alloc: Global,
    program: &P,
    marks: &mut Marks<'a>,
    key: u32,
    effect: Effect<'a>,
    iface: bool,
) -> Result<(), OutOfMemory>
    requires has { Has (P.graph program.now) key (effect_view effect) }
    requires within { IsWithin (P.graph program.now).keys (effect_view effect) }
    requires covers { Covers marks.old (P.graph program.now).keys }
    requires kept { Holds marks.old (Kept key) }
    requires iface { iface ≡ true → Holds marks.old (Iface key) }
    ensures extends { OnOk result (Extends (P.graph program.now) marks.old marks.new) }
    ensures given { OnOk result (IsGiven (P.graph program.now) iface marks.new (effect_view effect.entry)) }
{
    match effect {
        Effect::Keeps(target) => keep_defined(program, marks, target),
        Effect::Links(target) => {
            keep_defined(program, marks, target)?;
            if iface {
                mark_defined(program, marks, target)
            } else {
                Ok(())
            }
        }
        Effect::Funcdata(target) => keep_defined(program, marks, target),
        Effect::Uses(target) => mark_defined(program, marks, target),
        Effect::Calls { name, of } => call_defined(alloc, program, marks, name, of),
        Effect::Names(name) => call_name(alloc, program, marks, name),
        Effect::Method { name, targets } => {
            if iface {
                take_method(alloc, program, marks, name, targets)
            } else {
                Ok(())
            }
        }
    }
}

// Does what a key that waits gives, where it is kept.
fn visit<'a, P: Program>(
    alloc: Global,
    program: &'a P,
    marks: &mut Marks<'a>,
    effects: &mut Vec<Effect<'a>>,
    key: u32,
) -> Result<(), OutOfMemory>
    requires key { key < (P.graph program.now).keys }
    requires covers { Covers marks.old (P.graph program.now).keys }
    ensures extends { OnOk result (Extends (P.graph program.now) marks.old marks.new) }
    ensures visited { OnOk result (IsVisited (P.graph program.now) key marks.old marks.new) }
{
    if !marks.kept.has(key) {
        return Ok(());
    }
    let iface = marks.iface.has(key);
    call_by_reflection(alloc, program, marks, program.reflects(key))?;
    program.effects(key, effects)?;
    for i in 0..effects.len() {
        let effect = effects[i];
        apply(alloc, program, marks, key, effect, iface)?;
    }
    Ok(())
}

// Marks the roots.
fn mark_roots<P: Program>(program: &P, marks: &mut Marks<'_>) -> Result<(), OutOfMemory>
    requires covers { Covers marks.old (P.graph program.now).keys }
    ensures extends { OnOk result (Extends (P.graph program.now) marks.old marks.new) }
    ensures roots { OnOk result (HasRoots (P.graph program.now) marks.new) }
{
    let roots = program.roots();
    for i in 0..roots.len() {
        let root = roots[i];
        keep_defined(program, marks, root)?;
    }
    Ok(())
}

// Gives Iface to a key where an object says so.
fn mark_if_flagged<P: Program>(
    program: &P,
    marks: &mut Marks<'_>,
    key: u32,
) -> Result<(), OutOfMemory>
    requires key { key < (P.graph program.now).keys }
    requires covers { Covers marks.old (P.graph program.now).keys }
    ensures extends { OnOk result (Extends (P.graph program.now) marks.old marks.new) }
    ensures flagged { OnOk result (IsTrue ((P.graph program.now).flagged key) →
        IsTrue ((P.graph program.now).defined key) → Holds marks.new (Iface key)) }
{
    if program.is_flagged(key) {
        mark_defined(program, marks, key)?;
    }
    Ok(())
}

// Gives Iface to all keys of which an object says so.
fn mark_flagged<P: Program>(program: &P, marks: &mut Marks<'_>) -> Result<(), OutOfMemory>
    requires covers { Covers marks.old (P.graph program.now).keys }
    ensures extends { OnOk result (Extends (P.graph program.now) marks.old marks.new) }
    ensures flagged { OnOk result (HasFlagged (P.graph program.now) marks.new) }
{
    for key in 0..program.keys() {
        mark_if_flagged(program, marks, key)?;
    }
    Ok(())
}

// One turn of the search, a visit. It says whether there was one to make.
fn turn<'a, P: Program>(
    alloc: Global,
    program: &'a P,
    marks: &mut Marks<'a>,
    effects: &mut Vec<Effect<'a>>,
) -> Result<bool, OutOfMemory>
    requires { Searching (P.graph program.now) marks.old }
    ensures searching { OnOk result (Searching (P.graph program.now) marks.new) }
    ensures falls { IfOk result (λ more. more ≡ true → weight marks.new < weight marks.old) }
    ensures finished { IfOk result (λ more. more ≡ false →
        (f : Fact) → Holds marks.new f ↔ Reach (P.graph program.now) f) }
{
    if let Some(key) = marks.work.pop() {
        visit(alloc, program, marks, effects, key)?;
        return Ok(true);
    }
    Ok(false)
}

/// Marks what is derivable, every fact of it and nothing else.
pub(crate) fn reach<'a, P: Program>(alloc: Global, program: &'a P) -> Result<Marks<'a>, OutOfMemory>
    ensures least { IfOk result (λ marks. (f : Fact) → Holds marks f ↔ Reach (P.graph program.now) f) }
    ensures covers { IfOk result (λ marks. Covers marks (P.graph program.now).keys) }
{
    let keys = program.keys();
    let mut marks = Marks {
        kept: MarkTable::new(alloc, keys)?,
        iface: MarkTable::new(alloc, keys)?,
        work: Vec::new(alloc),
        calls: CallTable::new(alloc),
        rows: Vec::new(alloc),
    };
    mark_roots(program, &mut marks)?;
    mark_flagged(program, &mut marks)?;
    let mut effects = Vec::new(alloc);
    while turn(alloc, program, &mut marks, &mut effects)? {}
    Ok(marks)
}
