// The tables of a world.
ghost use Rattle.std.specs.Prelude.{◌≡◌, ◌<◌, ◌≤◌, ◌++◌, length, get_or, [], IfOk, OnOk};
ghost use Rattle.glk_arena.specs.World.{objects_of, paths_of};
ghost use Rattle.glk_arena.specs.Packages.{find_package};
ghost use Rattle.glk_link.specs.World.{rows, row_limit};
ghost use Rattle.glk_link.specs.Targets.{offer_of};
ghost use Rattle.glk_link.specs.Tables.{AreFirsts, AreTables, AreOffers, AppendsOffers};

use crate::target::Offer;
use glk_arena::Loaded;
use glk_base::OutOfMemory;
use glk_obj::Block;
use std::alloc::{AllocError, Global};

/// The number of each row's object, and the first row of each object.
///
/// # Errors
/// Out of memory.
pub(crate) fn row_tables(
    alloc: Global,
    loaded: &Loaded,
) -> Result<(Vec<u32>, Vec<u32>), OutOfMemory>
    requires { rows (objects_of loaded.now) ≤ row_limit }
    ensures { IfOk result (λ tables. AreTables (objects_of loaded.now) tables.0.items tables.1.items) }
{
    let count = loaded.objects();
    let mut owners = Vec::new(alloc);
    let mut firsts = Vec::with_capacity(alloc, count as usize)?;
    for n in 0..count {
        let first = owners.len();
        firsts.push(first as u32)?;
        owners.resize(first + loaded.object(n).symbols() as usize, n)?;
    }
    Ok((owners, firsts))
}

// What the package of a number offers.
fn offer_by(loaded: &Loaded, firsts: &[u32], p: u32) -> Offer
    requires firsts { AreFirsts (objects_of loaded.now) firsts.now }
    requires p { p < length loaded.now }
    ensures { result ≡ offer_of loaded.now (Some p) }
{
    if loaded.object_count(p) == 0 {
        return Offer { first: 0, count: 0 };
    }
    let n = loaded.first_object(p);
    Offer {
        first: firsts[n as usize],
        count: loaded.object(n).count(Block::Symdef),
    }
}

// What the package offers that a stored path means.
fn offer_named(loaded: &Loaded, firsts: &[u32], name: &[u8]) -> Offer
    requires firsts { AreFirsts (objects_of loaded.now) firsts.now }
    ensures { result ≡ offer_of loaded.now (find_package (paths_of loaded.now) name.now) }
{
    match loaded.find_package(name) {
        Some(p) => offer_by(loaded, firsts, p),
        None => Offer { first: 0, count: 0 },
    }
}

// Adds what is offered to object `n`: an offer for each entry of its list of packages.
fn push_offers(
    offers: &mut Vec<Offer>,
    loaded: &Loaded,
    firsts: &[u32],
    n: u32,
) -> Result<(), AllocError>
    requires firsts { AreFirsts (objects_of loaded.now) firsts.now }
    requires n { n < length (objects_of loaded.now) }
    ensures { OnOk result (AppendsOffers loaded.now n offers.old.items offers.new.items) }
{
    let object = loaded.object(n);
    for k in 0..object.count(Block::PkgIdx) {
        offers.push(offer_named(loaded, firsts, object.pkg(k)))?;
    }
    Ok(())
}

/// For each object what the packages offer that its list of packages names, and the index of the
/// first offer to each object.
///
/// # Errors
/// Out of memory.
pub(crate) fn offer_tables(
    alloc: Global,
    loaded: &Loaded,
    firsts: &[u32],
) -> Result<(Vec<usize>, Vec<Offer>), OutOfMemory>
    requires { AreFirsts (objects_of loaded.now) firsts.now }
    ensures { IfOk result (λ tables. AreOffers loaded.now tables.0.items tables.1.items) }
{
    let count = loaded.objects();
    let mut starts = Vec::with_capacity(alloc, count as usize)?;
    let mut offers = Vec::new(alloc);
    for n in 0..count {
        starts.push(offers.len())?;
        push_offers(&mut offers, loaded, firsts, n)?;
    }
    Ok((starts, offers))
}
