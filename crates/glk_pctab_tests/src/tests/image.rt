// An image with the tables of functions.
ghost use Rattle.std.specs.Prelude.{◌<◌, ◌^◌, length, IfOk};

use glk_base::{Seq, Text};
use glk_elf::{ElfParts, SectionBytes, assign_addresses, write_elf};
use std::alloc::Global;
use std::process::Abort;
use std::test::Fail;

const CODE: [u8; 16] = [0xcc; 16];

// An image of these sections, with code of 16 bytes.
pub(crate) fn image_of(
    rt: &impl Abort,
    alloc: Global,
    rodata: &[u8],
    gopclntab: &[u8],
    go_module: &[u8],
) -> Result<Vec<u8>, Fail>
    ensures { IfOk result (λ image. length image.items < 2 ^ 32) }
{
    assert!(rt; rodata.len() < 0x1000);
    assert!(rt; gopclntab.len() < 0x1000);
    assert!(rt; go_module.len() < 0x1000);
    let sizes = [
        16,
        rodata.len() as u64,
        0,
        0,
        gopclntab.len() as u64,
        go_module.len() as u64,
        0,
        0,
        0,
        0,
        0,
    ];
    let addrs = assign_addresses(&sizes);
    assert!(rt; addrs[9] < 0x410000);
    let bytes = SectionBytes {
        text: Text::new(alloc, &CODE)?,
        rodata: Text::new(alloc, rodata)?,
        typelink: Text::of(Vec::new(alloc)),
        itablink: Text::of(Vec::new(alloc)),
        gopclntab: Text::new(alloc, gopclntab)?,
        go_module: Text::new(alloc, go_module)?,
        noptrdata: Text::of(Vec::new(alloc)),
        data: Text::of(Vec::new(alloc)),
    };
    let rows = Seq::new(Vec::new(alloc));
    let parts = ElfParts::new(alloc, 0x401000, &sizes, &addrs, bytes, rows)?;
    let image = write_elf(alloc, &parts)?;
    assert!(rt; image.len() < 0x100000);
    Ok(image)
}
