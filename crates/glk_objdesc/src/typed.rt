// The numbers and arrays of a description are within their types, which proofs about all of its
// parts rest on. A pass over them shows it; it has no result.
ghost use Rattle.std.specs.Prelude.{All};
ghost use Rattle.glk_objdesc.specs.Typed.{IsTypedRef, IsTypedPackage, IsTypedSymbol, IsTypedReloc, IsTypedAux, IsTypedDef, IsTypedFlags, IsTypedName, IsTyped};

use crate::desc::{AutolibDesc, DefDesc, ObjDesc, RefNameDesc, SymDesc};
use glk_obj::{AuxRec, RefFlagsRec, RelocRec, SymRef};

fn see_reference(target: SymRef)
    ensures { IsTypedRef target }
{
    let SymRef { pkg: _, sym: _ } = target;
}

fn see_package(entry: &AutolibDesc)
    ensures { IsTypedPackage entry.now }
{
    let _ = entry.fingerprint;
}

fn see_symbol(symbol: &SymDesc)
    ensures { IsTypedSymbol symbol.now }
{
    let _abi = symbol.abi;
    let _kind = symbol.kind;
    let _flag = symbol.flag;
    let _flag2 = symbol.flag2;
    let _size = symbol.size;
    let _align = symbol.align;
}

fn see_reloc(reloc: RelocRec)
    ensures { IsTypedReloc reloc }
{
    see_reference(reloc.target);
}

fn see_aux(aux: AuxRec)
    ensures { IsTypedAux aux }
{
    see_reference(aux.target);
}

fn see_flags(flags: RefFlagsRec)
    ensures { IsTypedFlags flags }
{
    see_reference(flags.target);
}

fn see_name(named: &RefNameDesc)
    ensures { IsTypedName named.now }
{
    see_reference(named.target);
}

fn see_relocs(relocs: &[RelocRec])
    ensures { All IsTypedReloc relocs.now }
{
    for reloc in relocs {
        see_reloc(*reloc);
    }
}

fn see_auxes(auxes: &[AuxRec])
    ensures { All IsTypedAux auxes.now }
{
    for aux in auxes {
        see_aux(*aux);
    }
}

fn see_definition(def: &DefDesc)
    ensures { IsTypedDef def.now }
{
    see_symbol(&def.sym);
    see_relocs(def.relocs.as_slice());
    see_auxes(def.auxes.as_slice());
}

fn see_packages(packages: &[AutolibDesc])
    ensures { All IsTypedPackage packages.now }
{
    for entry in packages {
        see_package(entry);
    }
}

fn see_definitions(defs: &[DefDesc])
    ensures { All IsTypedDef defs.now }
{
    for def in defs {
        see_definition(def);
    }
}

fn see_symbols(symbols: &[SymDesc])
    ensures { All IsTypedSymbol symbols.now }
{
    for symbol in symbols {
        see_symbol(symbol);
    }
}

fn see_ref_flags(flags: &[RefFlagsRec])
    ensures { All IsTypedFlags flags.now }
{
    for record in flags {
        see_flags(*record);
    }
}

fn see_names(names: &[RefNameDesc])
    ensures { All IsTypedName names.now }
{
    for named in names {
        see_name(named);
    }
}

/// The numbers and arrays of the description are within their types. The call changes nothing, and
/// takes one pass over the description.
pub fn see_types(d: &ObjDesc)
    ensures { IsTyped d.now }
{
    let _flags = d.flags;
    let _fingerprint = d.fingerprint;
    see_packages(d.autolib.as_slice());
    see_definitions(d.defs.as_slice());
    see_definitions(d.hash64.as_slice());
    see_definitions(d.hashed.as_slice());
    see_definitions(d.ndefs.as_slice());
    see_symbols(d.refs.as_slice());
    see_ref_flags(d.ref_flags.as_slice());
    see_names(d.ref_names.as_slice());
}
