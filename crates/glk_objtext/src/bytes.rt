// The strings, hashes and data of a description are of bytes, which proofs about its whole text rest
// on. A pass over them shows it; it has no result.
ghost use Rattle.std.specs.Prelude.{All};
ghost use Rattle.hex.specs.Hex.{IsBytes};
ghost use Rattle.glk_objdesc.specs.declared.desc.RefNameDesc.{RefNameDesc as SpecName};
ghost use Rattle.glk_objdesc.specs.declared.desc.SymDesc.{SymDesc as SpecSymbol};
ghost use Rattle.glk_objtext.specs.Bytes.{HasBytesPackage, HasBytesDef, HasBytes};

use glk_base::Text;
use glk_objdesc::{AutolibDesc, DefDesc, ObjDesc, RefNameDesc, SymDesc};

fn see_items(bytes: &[u8])
    ensures { IsBytes bytes.now }
{
    for byte in bytes {
        let _byte = *byte;
    }
}

fn see_text(text: &Text)
    ensures { IsBytes text.now }
{
    see_items(text.as_bytes());
}

fn see_texts(texts: &[Text])
    ensures { All IsBytes texts.now }
{
    for text in texts {
        see_text(text);
    }
}

fn see_package(entry: &AutolibDesc)
    ensures { HasBytesPackage entry.now }
{
    see_text(&entry.path);
    see_items(&entry.fingerprint);
}

fn see_packages(packages: &[AutolibDesc])
    ensures { All HasBytesPackage packages.now }
{
    for entry in packages {
        see_package(entry);
    }
}

fn see_definition(def: &DefDesc)
    ensures { HasBytesDef def.now }
{
    see_text(&def.sym.name);
    see_text(&def.hash);
    see_text(&def.content);
}

fn see_definitions(defs: &[DefDesc])
    ensures { All HasBytesDef defs.now }
{
    for def in defs {
        see_definition(def);
    }
}

fn see_references(symbols: &[SymDesc])
    ensures { All (λ (s : SpecSymbol). IsBytes s.name) symbols.now }
{
    for symbol in symbols {
        see_text(&symbol.name);
    }
}

fn see_names(names: &[RefNameDesc])
    ensures { All (λ (r : SpecName). IsBytes r.name) names.now }
{
    for named in names {
        see_text(&named.name);
    }
}

/// The strings, hashes and data of the description are of bytes.
pub(crate) fn see_bytes(d: &ObjDesc)
    ensures { HasBytes d.now }
{
    see_items(&d.fingerprint);
    see_packages(d.autolib.as_slice());
    see_texts(d.pkgs.as_slice());
    see_texts(d.files.as_slice());
    see_definitions(d.defs.as_slice());
    see_definitions(d.hash64.as_slice());
    see_definitions(d.hashed.as_slice());
    see_definitions(d.ndefs.as_slice());
    see_references(d.refs.as_slice());
    see_names(d.ref_names.as_slice());
}
