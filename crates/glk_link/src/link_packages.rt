// The passes over the packages that are loaded.
ghost use Rattle.std.specs.Prelude.{◌≡◌, ◌≤◌, ◌<◌, ◌↔◌, ℕ, List, [], All, Contains, IfOk, IsTrue};
ghost use Rattle.std.specs.List.{AllPairs};
ghost use Rattle.glk_cause.specs.declared.cause.Cause.TheVariants as cause;
ghost use Rattle.glk_cause.specs.Chain.{Answers, Checks};
ghost use Rattle.glk_arena.specs.World.{Package, objects_of, symbol_count};
ghost use Rattle.glk_init_lists.specs.Outputs.{scheduled_of};
ghost use Rattle.glk_keys.specs.Programs.{Program};
ghost use Rattle.glk_keys.specs.Rows.{row_count, row_limit};
ghost use Rattle.glk_obj.specs.Numbers.{kind_of, standard_number};
ghost use Rattle.glk_link.specs.World.{AreObjects, IsDefinition};
ghost use Rattle.glk_link.specs.Merges.{row_path, IsKnownConfig};
ghost use Rattle.glk_link.specs.Plans.{linked_bytes, AreFewBytes, AreChosen, IsPlan};
ghost use Rattle.glk_link.specs.Image.{IsImageOf};
ghost use Rattle.glk_link.specs.Reach.{AreKept, Misses};
ghost use Rattle.glk_link.specs.Refusals.{undefined_call};
ghost use Rattle.glk_link.specs.Passes.{IsWithinLimits, IsMerged, HasNoTasks, HasKnownConfig, HasPlainObjects, Reaches, FindsCallees, HasPlacedSymbols, Keeps, LinksWorld, LinksPackages, report_of};
ghost use Rattle.glk_link.specs.Outputs.{program_by, kept_of, linked_of, HasReport};

use crate::built::first_unbuilt;
use crate::counts::definitions_of;
use crate::entry::start_of;
use crate::image::image_with;
use crate::inputs::Inputs;
use crate::kept_rows::kept_list;
use crate::missing::{first_missing, missing_name};
use crate::options::Report;
use crate::placing::{by_definition, place};
use crate::plain::is_plain;
use crate::text::text_of;
use crate::world::World;
use glk_arena::Loaded;
use glk_base::{Fault, OutOfMemory, Text};
use glk_cause::{Cause, Form, Limit};
use glk_init_lists::{InitLists, schedule};
use glk_io::Gate;
use glk_keys::row_total;
use glk_merge::{Clash, Merged, merge};
use glk_obj::{Numbers, RelocKind};
use std::alloc::Global;
use std::thread::Threads;

// The largest number of rows of a link.
const ROW_LIMIT: u64 = 1 << 24;

// The largest number of bytes of the package files that golink links today, together.
const LINKED_BYTES: u64 = 1 << 20;

/// What is kept of the packages.
#[derive(Drop)]
pub struct Reached {
    /// The row where the image starts.
    pub start: u32,
    /// The rows of the kept definitions, in load position.
    pub kept: Vec<u32>,
}

/// What a link makes of its packages.
#[derive(Drop)]
pub struct Output {
    pub kept: Vec<u32>,
    pub image: Vec<u8>,
    pub report: Report,
}

/// What a link makes of what is loaded. Definitions are merged by workers side by side.
///
/// # Errors
/// The first refusal of a pass over the packages, or out of memory.
pub(crate) fn link_packages<R: Threads + Sync, G: Gate>(
    rt: &R,
    alloc: Global,
    inputs: &Inputs,
    entry: &[u8],
    workers: u32,
    gate: &G,
) -> Result<Output, Fault<Cause>>
    requires { (1 ≤ workers) × (workers ≤ 64) }
    ensures linked { Answers (LinksPackages (program_by entry.now inputs.now)) (linked_of inputs.now.loaded) result }
    ensures report { IfOk result (HasReport inputs.now.loaded) }
{
    check_limits(inputs, entry)?;
    let merged = merge_packages(rt, alloc, inputs, entry, workers, gate)?;
    let lists = schedule(alloc, &merged, &inputs.loaded)?;
    check_tasks(&lists)?;
    check_config(inputs, entry)?;
    link_world(alloc, &inputs.loaded, entry)
}

// There are few enough rows, and the files are short enough.
fn check_limits(inputs: &Inputs, entry: &[u8]) -> Result<(), Fault<Cause>>
    ensures limits { Checks IsWithinLimits (program_by entry.now inputs.now) result }
    ensures rows { IfOk result (λ _. row_count (program_by entry.now inputs.now) ≤ row_limit) }
    ensures bytes { IfOk result (λ _. AreFewBytes inputs.now.loaded) }
{
    let _ = entry;
    let length = inputs.loaded.bytes();
    let _builtins = inputs.builtins.len();
    let _rows = inputs.loaded.rows();
    let number = row_total(&inputs.loaded, &inputs.builtins);
    if number > ROW_LIMIT {
        let limit = Limit::Rows;
        return Err(Fault::Bad(Cause::TooLarge { limit, number }));
    }
    if length > LINKED_BYTES {
        return Err(Fault::Bad(Cause::NotYet { form: Form::Size }));
    }
    Ok(())
}

// The merged program, in which no definitions clash.
fn merge_packages<'a, R: Threads + Sync, G: Gate>(
    rt: &R,
    alloc: Global,
    inputs: &'a Inputs,
    entry: &'a [u8],
    workers: u32,
    gate: &G,
) -> Result<Merged<'a>, Fault<Cause>>
    requires rows { row_count (program_by entry.now inputs.now) ≤ row_limit }
    requires workers { (1 ≤ workers) × (workers ≤ 64) }
    ensures merged { Checks IsMerged (program_by entry.now inputs.now) result }
    ensures program { IfOk result (λ m. m.program ≡ program_by entry.now inputs.now) }
{
    let loaded = &inputs.loaded;
    let builtins = &inputs.builtins;
    match merge(
        rt,
        alloc,
        loaded,
        entry,
        builtins,
        inputs.numbers,
        workers,
        gate,
    ) {
        Ok(merged) => Ok(merged),
        Err(Fault::Bad(clash)) => Err(Fault::Bad(clash_cause(alloc, loaded, clash)?)),
        Err(Fault::OutOfMemory) => Err(Fault::OutOfMemory),
    }
}

// The refusal of a clash.
fn clash_cause(alloc: Global, loaded: &Loaded, clash: Clash) -> Result<Cause, OutOfMemory>
    requires first { clash.first.0 < symbol_count loaded.now }
    requires second { clash.second.0 < symbol_count loaded.now }
    ensures { IfOk result (λ refusal. refusal ≡ cause.Clash clash.name clash.first clash.second
        (row_path loaded.now clash.first.0, row_path loaded.now clash.second.0)) }
{
    let first = Text::new(alloc, loaded.package_of(clash.first))?;
    let second = Text::new(alloc, loaded.package_of(clash.second))?;
    Ok(Cause::Clash {
        name: clash.name,
        first: clash.first,
        second: clash.second,
        packages: (first, second),
    })
}

// No task is listed.
fn check_tasks(lists: &InitLists) -> Result<(), Fault<Cause>>
    ensures { (p : Program) → Checks HasNoTasks (scheduled_of p lists.now) result }
{
    if lists.main.is_empty() && lists.runtime.is_empty() {
        return Ok(());
    }
    Err(Fault::Bad(Cause::NotYet { form: Form::Object }))
}

// The configuration files say what golink knows today.
fn check_config(inputs: &Inputs, entry: &[u8]) -> Result<(), Fault<Cause>>
    ensures { Checks HasKnownConfig (program_by entry.now inputs.now) result }
{
    let _ = entry;
    if is_known(inputs) {
        return Ok(());
    }
    Err(Fault::Bad(Cause::NotYet { form: Form::Object }))
}

// Whether calls have their standard numbers, and there is no builtin.
fn is_known(inputs: &Inputs) -> bool
    ensures { (entry : List ℕ) → IsTrue result ↔ IsKnownConfig (program_by entry inputs.now) }
{
    if !is_standard(&inputs.numbers, RelocKind::Call) {
        return false;
    }
    if !is_standard(&inputs.numbers, RelocKind::PcRel) {
        return false;
    }
    inputs.builtins.len() == 0
}

// Whether a kind has its standard number.
fn is_standard(numbers: &Numbers, kind: RelocKind) -> bool
    ensures { IsTrue result ↔ (kind_of numbers.now (standard_number kind) ≡ Some kind) }
{
    numbers.kind(kind.standard_number()) == Some(kind)
}

// What a link makes of packages within the limits.
fn link_world(alloc: Global, loaded: &Loaded, entry: &[u8]) -> Result<Output, Fault<Cause>>
    requires rows { symbol_count loaded.now ≤ row_limit }
    requires bytes { AreFewBytes loaded.now }
    ensures linked { Answers (LinksWorld entry.now loaded.now) (linked_of loaded.now) result }
    ensures report { IfOk result (HasReport loaded.now) }
{
    let world = World::new(alloc, loaded)?;
    let reached = kept(alloc, &world, entry)?;
    check_symbols(alloc, &world, &reached)?;
    let image = image_of(alloc, &world, reached.start, &reached.kept)?;
    let report = report(&world, &reached.kept, &image);
    Ok(Output {
        kept: reached.kept,
        image,
        report,
    })
}

/// What is kept of a world, where all of its objects are such as golink links and all that is called
/// has a definition.
///
/// # Errors
/// The first refusal of these passes, or out of memory.
pub fn kept(alloc: Global, world: &World<'_>, entry: &[u8]) -> Result<Reached, Fault<Cause>>
    ensures keeps { Answers (Keeps entry.now world.now) (kept_of world.now) result }
    ensures start { IfOk result (λ reached. Contains reached.kept.items reached.start) }
    ensures kept { IfOk result (λ reached. AreKept world.now entry.now reached.kept.items) }
    ensures range { IfOk result (λ reached. All (IsDefinition world.now) reached.kept.items) }
{
    check_objects(alloc, world)?;
    let reached = reach_from(alloc, world, entry)?;
    check_calls(alloc, world, &reached)?;
    Ok(reached)
}

// The objects are such as golink links.
fn check_objects(alloc: Global, world: &World<'_>) -> Result<(), Fault<Cause>>
    ensures { Checks HasPlainObjects world.now result }
{
    if is_plain(alloc, world)? {
        return Ok(());
    }
    Err(Fault::Bad(Cause::NotYet { form: Form::Object }))
}

/// What is kept of a world, from the entry on.
///
/// # Errors
/// `Undefined` where no definition has the entry's name, or out of memory.
pub fn reach_from(alloc: Global, world: &World<'_>, entry: &[u8]) -> Result<Reached, Fault<Cause>>
    ensures reached { Answers (Reaches entry.now world.now) (kept_of world.now) result }
    ensures start { IfOk result (λ reached. Contains reached.kept.items reached.start) }
    ensures kept { IfOk result (λ reached. AreKept world.now entry.now reached.kept.items) }
    ensures range { IfOk result (λ reached. All (IsDefinition world.now) reached.kept.items) }
{
    let start = match start_of(world, entry) {
        Some(start) => start,
        None => return Err(Fault::Bad(no_entry(alloc, entry)?)),
    };
    let kept = kept_list(alloc, world, entry)?;
    Ok(Reached { start, kept })
}

// The refusal of an entry without a definition.
fn no_entry(alloc: Global, entry: &[u8]) -> Result<Cause, OutOfMemory>
    ensures { IfOk result (λ refusal. refusal ≡ cause.Undefined [] entry.now) }
{
    let from = Text::of(Vec::new(alloc));
    let name = Text::new(alloc, entry)?;
    Ok(Cause::Undefined { from, name })
}

// All that is called has a definition.
fn check_calls(alloc: Global, world: &World<'_>, reached: &Reached) -> Result<(), Fault<Cause>>
    requires range { All (IsDefinition world.now) reached.now.kept.items }
    requires rising { AllPairs (λ i j. i < j) reached.now.kept.items }
    ensures { Checks FindsCallees (kept_of world.now reached.now) result }
{
    match first_missing(world, &reached.kept) {
        Some(call) => Err(Fault::Bad(undefined(alloc, world, call.row, call.index)?)),
        None => Ok(()),
    }
}

// The refusal of a call to what is missing.
fn undefined(alloc: Global, world: &World<'_>, i: u32, k: u32) -> Result<Cause, OutOfMemory>
    requires misses { Misses world.now i k }
    requires definition { IsDefinition world.now i }
    ensures { IfOk result (λ refusal. refusal ≡ undefined_call world.now i k) }
{
    let from = Text::new(alloc, world.sym(i).name)?;
    let name = missing_name(alloc, world, i, world.reloc(i, k).target)?;
    Ok(Cause::Undefined { from, name })
}

// The kept definitions are such as golink places.
fn check_symbols(alloc: Global, world: &World<'_>, reached: &Reached) -> Result<(), Fault<Cause>>
    requires objects { AreObjects (objects_of world.now) }
    requires range { All (IsDefinition world.now) reached.now.kept.items }
    ensures { Checks HasPlacedSymbols (kept_of world.now reached.now) result }
{
    match first_unbuilt(alloc, world, &reached.kept)? {
        Some(_) => Err(Fault::Bad(Cause::NotYet { form: Form::Symbol })),
        None => Ok(()),
    }
}

// The image of what is kept, from where it starts.
fn image_of(
    alloc: Global,
    world: &World<'_>,
    start: u32,
    kept: &[u32],
) -> Result<Vec<u8>, OutOfMemory>
    requires start { Contains kept.now start }
    requires chosen { AreChosen world.now kept.now }
    ensures { IfOk result (λ image. IsImageOf world.now kept.now start image.items) }
{
    let addrs = place(alloc, world, kept)?;
    let places = by_definition(alloc, world, kept, addrs.as_slice())?;
    let image = image_at(
        alloc,
        world,
        start,
        kept,
        addrs.as_slice(),
        places.as_slice(),
    )?;
    Ok(image)
}

// The image of the functions that are kept, at these addresses.
fn image_at(
    alloc: Global,
    world: &World<'_>,
    start: u32,
    kept: &[u32],
    addrs: &[u64],
    places: &[u64],
) -> Result<Vec<u8>, OutOfMemory>
    requires start { Contains kept.now start }
    requires plan { IsPlan world.now kept.now addrs.now places.now }
    ensures { IfOk result (λ image. IsImageOf world.now kept.now start image.items) }
{
    let text = text_of(alloc, world, kept, addrs, places)?;
    let image = image_with(alloc, places[start as usize], text)?;
    Ok(image)
}

// The report of what was linked.
fn report(world: &World<'_>, kept: &[u32], image: &[u8]) -> Report
    requires rows { symbol_count world.now ≤ row_limit }
    requires rising { AllPairs (λ i j. i < j) kept.now }
    requires range { All (IsDefinition world.now) kept.now }
    ensures { result ≡ report_of (record { world = world.now; kept = kept.now; image = image.now }) }
{
    Report {
        packages: world.loaded().packages(),
        definitions: definitions_of(world.loaded()),
        kept: kept.len() as u32,
        image: image.len() as u64,
    }
}
