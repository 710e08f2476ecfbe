// Chains of inlined calls.
ghost use Rattle.std.specs.Prelude.{◌≡◌, ◌<◌, length, IfOk, List, ℕ};
ghost use Rattle.std.specs.List.Sorted.{IsNonDecreasingBy};
ghost use Rattle.glk_pcval.specs.Table.{ranges, value_in as value_of, value_of as value_at_offset};
ghost use Rattle.glk_obj.specs.FuncInfos.{node_count};
ghost use Rattle.glk_tables.specs.Calls.{caller as caller_of, node_of as node_by, is_long, any_below};
ghost use Rattle.glk_tables.specs.Chains.{link, AreCallers, AreInside, HasLength, AreLengths, IsMeasured, KnowsMore};

use glk_base::OutOfMemory;
use glk_obj::FuncInfo;
use glk_pcval::{Steps, ends_never_fall};
use std::alloc::Global;

// The most nodes of a chain.
const MOST_NODES: u32 = 65535;

// The ranges of a pc table.
fn ranges_of(alloc: Global, table: &[u8]) -> Result<Vec<(i32, u32)>, OutOfMemory>
    ensures { IfOk result (λ list. list.items ≡ ranges table.now) }
{
    Ok(Steps::new(table).collect(alloc)?)
}

// The value at an offset, by halves.
fn value_in(list: &[(i32, u32)], off: u32) -> Option<i32>
    requires { IsNonDecreasingBy (λ range. range.1) list.now }
    ensures { result ≡ value_of list.now off }
{
    let mut low = 0;
    let mut high = list.len();
    while low < high {
        let middle = low + (high - low) / 2;
        if list[middle].1 <= off {
            low = middle + 1;
        } else {
            high = middle;
        }
    }
    if low < list.len() {
        Some(list[low].0)
    } else {
        None
    }
}

// The node of a value, one of so many.
fn node_of(count: u32, value: Option<i32>) -> Option<u32>
    ensures { result ≡ node_by count value }
{
    let number = value?;
    if number < 0 || number as u32 >= count {
        return None;
    }
    Some(number as u32)
}

// The value at an offset that may be negative, where there is none.
fn value_at(list: &[(i32, u32)], off: i32) -> Option<i32>
    requires { IsNonDecreasingBy (λ range. range.1) list.now }
    ensures { (table : List ℕ) → list.now ≡ ranges table → result ≡ value_at_offset table off }
{
    if off < 0 {
        None
    } else {
        value_in(list, off as u32)
    }
}

// The caller of each node, by the ranges of pcinline.
fn callers_by(
    alloc: Global,
    info: &FuncInfo<'_>,
    list: &[(i32, u32)],
) -> Result<Vec<Option<u32>>, OutOfMemory>
    requires { IsNonDecreasingBy (λ range. range.1) list.now }
    ensures { IfOk result (λ callers.
        (table : List ℕ) → list.now ≡ ranges table → AreCallers info.now table callers.items) }
{
    let count = info.nodes();
    let mut callers = Vec::with_capacity(alloc, count as usize)?;
    for k in 0..count {
        let value = value_at(list, info.node(k).parent_pc);
        callers.push(node_of(count, value))?;
    }
    Ok(callers)
}

// The caller of each node.
fn callers_of(
    alloc: Global,
    info: &FuncInfo<'_>,
    pcinline: &[u8],
) -> Result<Vec<Option<u32>>, OutOfMemory>
    ensures { IfOk result (λ callers. AreCallers info.now pcinline.now callers.items) }
{
    ends_never_fall();
    let list = ranges_of(alloc, pcinline)?;
    callers_by(alloc, info, &list)
}

// The number of nodes of the chain from a node, where those of some chains are known; none where there
// are too many.
fn measure(callers: &[Option<u32>], lengths: &[u32], from: u32) -> Option<u32>
    requires inside { AreInside callers.now }
    requires lengths { AreLengths callers.now lengths.now }
    requires from { from < length callers.now }
    ensures { IsMeasured callers.now from result }
{
    let mut at = from;
    for steps in 0..MOST_NODES {
        let known = lengths[at as usize];
        if known != 0 {
            return if steps + known <= MOST_NODES {
                Some(steps + known)
            } else {
                None
            };
        }
        match callers[at as usize] {
            Some(next) => at = next,
            None => return Some(steps + 1),
        }
    }
    None
}

// Notes the length of the chain from a node, and of those that it goes through.
fn note_lengths(callers: &[Option<u32>], lengths: &mut [u32], from: u32, total: u32)
    requires inside { AreInside callers.now }
    requires lengths { AreLengths callers.now lengths.old }
    requires from { from < length callers.now }
    requires total { HasLength callers.now total from }
    ensures lengths { AreLengths callers.now lengths.new }
    ensures more { KnowsMore lengths.old lengths.new from }
{
    let mut at = from;
    for steps in 0..total {
        if lengths[at as usize] != 0 {
            return;
        }
        lengths[at as usize] = total - steps;
        match callers[at as usize] {
            Some(next) => at = next,
            None => return,
        }
    }
}

// Whether a chain of these has too many nodes. Each node is passed twice.
fn any_long(alloc: Global, callers: &[Option<u32>], count: u32) -> Result<bool, OutOfMemory>
    requires inside { AreInside callers.now }
    requires count { count ≡ length callers.now }
    ensures { IfOk result (λ long. long ≡ any_below (is_long (link callers.now)) (length callers.now)) }
{
    let mut lengths = vec![in alloc; 0u32; count as usize]?;
    for k in 0..count {
        match measure(callers, &lengths, k) {
            Some(total) => note_lengths(callers, &mut lengths, k, total),
            None => return Ok(true),
        }
    }
    Ok(false)
}

// Whether the chain from a node of a FuncInfo has too many nodes.
pub(crate) fn has_long_chain(
    alloc: Global,
    info: &FuncInfo<'_>,
    pcinline: &[u8],
) -> Result<bool, OutOfMemory>
    ensures { IfOk result (λ long.
        long ≡ any_below (is_long (caller_of info.now pcinline.now)) (node_count info.now)) }
{
    let callers = callers_of(alloc, info, pcinline)?;
    any_long(alloc, &callers, info.nodes())
}
