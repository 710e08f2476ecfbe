// What an object says of a function's tables.
ghost use Rattle.std.specs.Prelude.{◌≡◌};
ghost use Rattle.glk_tables.specs.Function.{table_bytes as bytes_of, info_of, nodes_of as node_total};
ghost use Rattle.glk_tables.specs.Views.{target_view};

use glk_obj::{FuncInfo, SymKind};

/// What an aux names: nothing, as an empty place or an aux that is not there; a symbol that has no
/// definition; or the data of its definition.
#[derive(Clone, Copy, Debug)]
pub enum AuxTarget<'a> {
    Absent,
    Undefined,
    Defined(&'a [u8]),
}

/// What a funcdata names: nothing, as an empty place; a symbol that has no type, as one without a
/// definition or a name that the linker makes; or a symbol of a type.
#[derive(Clone, Copy, Debug, PartialEq, Eq)]
pub enum FuncdataTarget {
    Empty,
    Untyped,
    Typed(SymKind),
}

/// What a function's auxes name.
#[derive(Clone, Copy, Debug)]
pub struct FuncTables<'a> {
    /// How many funcinfo auxes there are, empty places not counted, and the first of them.
    pub infos: u32,
    pub info: AuxTarget<'a>,
    /// The first aux of each of these types that is no empty place.
    pub pcsp: AuxTarget<'a>,
    pub pcfile: AuxTarget<'a>,
    pub pcline: AuxTarget<'a>,
    pub pcinline: AuxTarget<'a>,
    /// Each pcdata.
    pub pcdata: &'a [AuxTarget<'a>],
    /// Each funcdata.
    pub funcdata: &'a [FuncdataTarget],
}

// The bytes of a pc table: none without a definition.
pub(crate) fn table_bytes<'a>(target: AuxTarget<'a>) -> &'a [u8]
    ensures { result.now ≡ bytes_of (target_view target.entry) }
{
    match target {
        AuxTarget::Absent => b"",
        AuxTarget::Undefined => b"",
        AuxTarget::Defined(bytes) => bytes,
    }
}

// The FuncInfo, if there is one.
#[tactic(auto, unfolding(crate::specs::Function::holds_info))]
pub(crate) fn read_info<'a>(target: AuxTarget<'a>) -> Option<FuncInfo<'a>>
    ensures { result ≡ info_of (target_view target.entry) }
{
    match target {
        AuxTarget::Absent => None,
        AuxTarget::Undefined => None,
        AuxTarget::Defined(bytes) => FuncInfo::read(bytes),
    }
}

// How many nodes its inline tree has.
pub(crate) fn nodes_of(info: &Option<FuncInfo<'_>>) -> u32
    ensures { result ≡ node_total info.now }
{
    match info {
        Some(known) => known.nodes(),
        None => 0,
    }
}
