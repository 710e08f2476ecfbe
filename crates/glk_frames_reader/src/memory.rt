// The memory that a file has bytes of.
ghost use Rattle.std.specs.Prelude.{◌≡◌, ◌+◌, ◌-◌, ◌<◌, IfSome, length};
ghost use Rattle.std.specs.Option.{option_copied};
ghost use Rattle.glk_elf.specs.ReaderSections.{loaded};

use glk_elf::ElfView;

// The bytes of some addresses from one on. No file has any past the last address.
pub(crate) fn bytes_at<'a>(view: &ElfView<'a>, addr: u128, len: u64) -> Option<&'a [u8]>
    requires some { 0 < len }
    ensures value { option_copied result ≡ loaded view.now addr len }
    ensures len { IfSome result (λ part. length part.now ≡ len) }
{
    // a view's bytes are an ELF file
    let _ = view.symbols();
    if addr > u64::MAX as u128 {
        return None;
    }
    view.segment_bytes(addr as u64, len)
}

// The bytes from an address up to the end of a slice, an address and a length. No file has more than
// all its bytes.
pub(crate) fn bytes_up_to<'a>(
    view: &ElfView<'a>,
    from: u64,
    start: u64,
    len: u64,
) -> Option<&'a [u8]>
    ensures { option_copied result ≡ loaded view.now from (start + len - from) }
{
    // a view's bytes are an ELF file
    let _ = view.symbols();
    let size = (start as u128 + len as u128).saturating_sub(from as u128);
    if size > view.bytes().len() as u128 {
        return None;
    }
    view.segment_bytes(from, size as u64)
}
