// The smallest program: a function without tables.
use super::image::image_of;
use glk_base::{Field, push_fields};
use glk_elf::ElfView;
use glk_frames_reader::Module;
use glk_pctab::{Function, Pclntab, build};
use std::alloc::Global;
use std::test::Fail;

// Its name.
const NAME: &[u8] = b"_rt0_amd64_linux";

// Its section `.gopclntab`.
const SECTION: &[u8; 156] = b"\xf1\xff\xff\xff\x00\x00\x01\x08\
    \x01\0\0\0\0\0\0\0\0\0\0\0\0\0\0\0\x00\x10\x40\0\0\0\0\0\
    \x48\0\0\0\0\0\0\0\x5c\0\0\0\0\0\0\0\x5c\0\0\0\0\0\0\0\x5c\0\0\0\0\0\0\0\x60\0\0\0\0\0\0\0\
    _rt0_amd64_linux\0\0\0\0\0\0\0\0\
    \0\0\0\0\x10\0\0\0\x10\0\0\0\0\0\0\0\
    \0\0\0\0\0\0\0\0\0\0\0\0\0\0\0\0\0\0\0\0\0\0\0\0\0\0\0\0\0\0\0\0\0\0\0\0\0\0\0\0\0\0\0\0";

#[test]
fn the_section_of_the_least_program(rt: HostRuntime) -> Result<(), Fail> {
    let function = Function {
        name: NAME,
        pcsp: &[],
        pcfile: &[],
        pcline: &[],
        pcinline: &[],
        inlined: &[],
        pcdata: &[],
        funcdata: &[],
        unit: 0,
        start: 0,
        args: 0,
        deferreturn: 0,
        start_line: 0,
        id: 0,
        flag: 0,
    };
    let tables = Pclntab {
        functions: &[function],
        units: &[&[]],
        text: 0x401000,
        text_size: 16,
        trees: 0,
    };
    let made = build(rt.alloc(), &tables)?;
    assert_eq!(rt; made.section.as_slice(), SECTION.as_slice());
    assert_eq!(rt; made.trees.len(), 0);
    Ok(())
}

// Its module data, of which these numbers are not 0: the addresses of pcHeader, of pclntable with its
// length, of findfunctab and of gofunc.
fn module_data(alloc: Global) -> Result<Vec<u8>, Fail> {
    let mut out = Vec::new(alloc);
    push_fields(&mut out, &[Field::U64(0x402020)])?;
    out.resize(104, 0)?;
    push_fields(&mut out, &[Field::U64(0x402080), Field::U64(60)])?;
    out.resize(152, 0)?;
    push_fields(&mut out, &[Field::U64(0x402000)])?;
    out.resize(320, 0)?;
    push_fields(&mut out, &[Field::U64(0x402000)])?;
    out.resize(584, 0)?;
    Ok(out)
}

#[test]
fn the_least_program_is_read_by_its_section(rt: HostRuntime) -> Result<(), Fail> {
    let image = image_of(&rt, rt.alloc(), &[0; 21], SECTION, &[])?;
    let view = ElfView::read(&image)?;
    let module = Module::of_section(&view)?;
    let function = module.find(0x40100f).ok_or("not found")?;
    assert_eq!(rt; function.name(), NAME);
    assert_eq!(rt; function.entry(), 0x401000);
    assert_eq!(rt; function.depth(0x401000), None);
    assert!(rt; module.find(0x401010).is_none());
    assert!(rt; module.find(0x400fff).is_none());
    assert!(rt; Module::at(&view, 0x402000).is_err());
    Ok(())
}

#[test]
fn the_least_program_is_read_by_its_module_data(rt: HostRuntime) -> Result<(), Fail> {
    let data = module_data(rt.alloc())?;
    let image = image_of(&rt, rt.alloc(), &[0; 21], SECTION, &data)?;
    let view = ElfView::read(&image)?;
    let module = Module::at(&view, 0x403000)?;
    let function = module.find_by_bucket(0x401000).ok_or("not found")?;
    assert_eq!(rt; function.name(), NAME);
    let mut frames = function.frames(0x401000);
    let shown = frames.next().ok_or("no frame")?;
    assert_eq!(rt; shown.name, NAME);
    assert_eq!(rt; shown.file, b"?".as_slice());
    assert_eq!(rt; shown.line, 0);
    assert!(rt; frames.next().is_none());
    assert!(rt; module.find_by_bucket(0x401010).is_none());
    Ok(())
}
