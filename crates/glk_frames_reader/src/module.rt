// The functions of a file, opened by its section or by module data.
ghost use Rattle.std.specs.Prelude.{◌≡◌, ◌+◌, ◌-◌, ◌<◌, ◌≤◌, length, IfOk, IfErr, IfSome};
ghost use Rattle.std.specs.Option.{option_copied, option_map};
ghost use Rattle.glk_base.specs.Bytes.{number_at};
ghost use Rattle.glk_frames.specs.Region.{IsRegion};
ghost use Rattle.glk_elf.specs.ReaderSections.{loaded};
ghost use Rattle.glk_frames_reader.specs.Opening.{IsSectionModule, BreaksTables, IsDataModule, BreaksModule, rodata_address as rodata_address_of, module_data_size, region_address, region_end, data_module};
ghost use Rattle.glk_frames_reader.specs.Found.{function_of, index_found, in_buckets, index_found_by_bucket};
ghost use Rattle.glk_frames_reader.specs.Parts.{IsInside};

use crate::buckets::bucket_found;
use crate::function::Func;
use crate::memory::{bytes_at, bytes_up_to};
use crate::region::{is_region, text_start};
use crate::search::{found_in, rises};
use glk_base::{BrokenRule, le64};
use glk_elf::{ElfBad, ElfView};
use std::marker::Model;

// The section that is a region, and the one from which funcdata counts without module data.
const TABLES: &[u8] = b".gopclntab";

const RODATA: &[u8] = b".rodata";

// There is no `.gopclntab`; it, or what module data tell, is no region.
const NO_TABLES: BrokenRule = BrokenRule {
    rule: 12,
    offset: 0,
};

const BAD_TABLES: BrokenRule = BrokenRule {
    rule: 13,
    offset: 0,
};

// The size of module data, and where they have the addresses of pcHeader, of the slice pclntable, of
// findfunctab and of gofunc.
const MODULE_DATA_SIZE: u64 = 584;

const PC_HEADER: usize = 0;

const PCLNTABLE: usize = 104;

const PCLNTABLE_LENGTH: usize = 112;

const FINDFUNCTAB: usize = 152;

const GOFUNC: usize = 320;

/// The functions of an ELF file. Contracts see them as the region, the memory, the address from which
/// funcdata counts, and that of findfunctab.
#[derive(Drop)]
pub struct Module<'a> {
    view: &'a ElfView<'a>,
    region: &'a [u8],
    base: u64,
    buckets: Option<u64>,
    // no function starts before the one before it
    rising: bool,
}

impl<'a> Model for Module<'a> {
    ghost use Rattle.glk_frames_reader.specs.Opening.{FileModule};
    ghost use Rattle.glk_frames_reader.specs.Parts.{IsOpened};

    ghost Value = { FileModule };

    ghost view = { λ m.
        record { file = m.view.now; region = m.region.now; base = m.base; buckets = m.buckets } };

    ghost invariant = { λ m. IsOpened m.region.now m.view.now m.rising };
}

// The functions of a region of a file.
fn module_of<'a>(
    view: &'a ElfView<'a>,
    region: &'a [u8],
    base: u64,
    buckets: Option<u64>,
) -> Module<'a>
    requires { IsRegion region.now }
    ensures { result ≡ record { file = view.now; region = region.now; base = base; buckets = buckets } }
{
    // a view's bytes are an ELF file
    let _ = view.symbols();
    Module {
        view,
        region,
        base,
        buckets,
        rising: rises(region),
    }
}

// The address of the first section `.rodata`, or 0.
#[tactic(auto, unfolding(crate::specs::Opening::rodata_address))]
fn rodata_address(view: &ElfView<'_>) -> u64
    ensures { result ≡ rodata_address_of view.now }
{
    match view.section(RODATA) {
        Some(section) => section.addr,
        None => 0,
    }
}

// A number of module data.
fn data_number(bytes: &[u8], at: usize) -> u64
    requires { at + 8 ≤ length bytes.now }
    ensures { result ≡ number_at 8 bytes.now at }
{
    le64(bytes, at).unwrap()
}

// The region that module data tell.
#[tactic(auto, unfolding(crate::specs::Opening::region_address, crate::specs::Opening::region_end))]
fn region_of_data<'a>(view: &ElfView<'a>, bytes: &[u8]) -> Option<&'a [u8]>
    requires { length bytes.now ≡ module_data_size }
    ensures { option_copied result
        ≡ loaded view.now (region_address bytes.now) (region_end bytes.now - region_address bytes.now) }
{
    let table = data_number(bytes, PCLNTABLE);
    bytes_up_to(
        view,
        data_number(bytes, PC_HEADER),
        table,
        data_number(bytes, PCLNTABLE_LENGTH),
    )
}

// The functions of a region that module data tell.
#[tactic(auto, unfolding(crate::specs::Opening::data_module, crate::specs::Opening::gofunc_address, crate::specs::Opening::findfunctab_address))]
fn module_of_data<'a>(view: &'a ElfView<'a>, bytes: &[u8], region: &'a [u8]) -> Module<'a>
    requires size { length bytes.now ≡ module_data_size }
    requires region { IsRegion region.now }
    ensures { result ≡ data_module view.now bytes.now region.now }
{
    let buckets = data_number(bytes, FINDFUNCTAB);
    module_of(view, region, data_number(bytes, GOFUNC), Some(buckets))
}

impl<'a> Module<'a> {
    /// The functions of the first section `.gopclntab`. Funcdata counts from the first section
    /// `.rodata`, and there are no buckets.
    ///
    /// # Errors
    /// E12 where there is no such section, E13 where it is no region: it has no whole pcHeader with
    /// the magic number of Go 1.20 and later, or a table or functab is not inside it. The offset is 0.
    #[tactic(auto, unfolding(crate::specs::Opening::section_module))]
    pub fn of_section(view: &'a ElfView<'a>) -> Result<Module<'a>, ElfBad>
        ensures ok { IfOk result (λ m. IsSectionModule view.now m) }
        ensures refused { IfErr result (λ bad. BreaksTables view.now bad.rule bad.offset) }
    {
        let Some(section) = view.section(TABLES) else {
            return Err(NO_TABLES);
        };
        if !is_region(section.bytes) {
            return Err(BAD_TABLES);
        }
        Ok(module_of(view, section.bytes, rodata_address(view), None))
    }

    /// The functions that the module data at this address tell.
    ///
    /// # Errors
    /// E13 where the 584 bytes of module data, or the region from pcHeader to the end of pclntable, are
    /// not in a file part of loaded memory, or the region is none. The offset is 0.
    pub fn at(view: &'a ElfView<'a>, addr: u64) -> Result<Module<'a>, ElfBad>
        ensures ok { IfOk result (λ m. IsDataModule view.now addr m) }
        ensures refused { IfErr result (λ bad. BreaksModule view.now addr bad.rule bad.offset) }
    {
        let Some(bytes) = view.segment_bytes(addr, MODULE_DATA_SIZE) else {
            return Err(BAD_TABLES);
        };
        let Some(region) = region_of_data(view, bytes) else {
            return Err(BAD_TABLES);
        };
        if !is_region(region) {
            return Err(BAD_TABLES);
        }
        Ok(module_of_data(view, bytes, region))
    }

    // Which function is at an address.
    #[tactic(auto, unfolding(crate::specs::Found::index_found))]
    fn index_found(&self, pc: u64) -> Option<usize>
        ensures value { result ≡ index_found self.now pc }
        ensures inside { IfSome result (λ i. IsInside self.now.region i) }
    {
        let start = text_start(self.region);
        if pc < start {
            return None;
        }
        found_in(self.region, self.rising, pc - start)
    }

    // Which function is at an offset of the text, by buckets where there are any.
    fn index_in_buckets(&self, off: u64) -> Option<usize>
        ensures value { result ≡ in_buckets self.now self.now.buckets off }
        ensures inside { IfSome result (λ i. IsInside self.now.region i) }
    {
        match self.buckets {
            Some(table) => bucket_found(self.view, self.region, table, off),
            None => found_in(self.region, self.rising, off),
        }
    }

    // Which function is at an address, by buckets where there are any.
    #[tactic(auto, unfolding(crate::specs::Found::index_found_by_bucket))]
    fn index_found_by_bucket(&self, pc: u64) -> Option<usize>
        ensures value { result ≡ index_found_by_bucket self.now pc }
        ensures inside { IfSome result (λ i. IsInside self.now.region i) }
    {
        let start = text_start(self.region);
        if pc < start {
            return None;
        }
        self.index_in_buckets(pc - start)
    }

    /// The function at an address: of those whose entry is not above it the last one of functab, for
    /// an address from the start of the text to below the last entry. There is none at another
    /// address, nor where the record is not inside the region. By halves where no entry is below the
    /// one before it, which was tried once when the module was opened, else one by one from the end.
    pub fn find(&self, pc: u64) -> Option<Func<'_>>
        ensures { result ≡ option_map (function_of self.now) (index_found self.now pc) }
    {
        let index = self.index_found(pc)?;
        Some(Func::new(self, index))
    }

    /// The function at an address by findfunctab: for the same addresses the first one, from that on
    /// at which the bucket says to begin, whose next entry is above the address. There is none where
    /// no such is, where the bucket is not in a file part of loaded memory, nor where the record is
    /// not inside the region. A module of a section has no buckets, and answers as `find`.
    pub fn find_by_bucket(&self, pc: u64) -> Option<Func<'_>>
        ensures { result ≡ option_map (function_of self.now) (index_found_by_bucket self.now pc) }
    {
        let index = self.index_found_by_bucket(pc)?;
        Some(Func::new(self, index))
    }

    // The address from which funcdata counts.
    pub(crate) fn base(&self) -> u64
        ensures { result ≡ self.now.base }
    {
        self.base
    }

    // The bytes of some addresses from one on.
    pub(crate) fn memory(&self, addr: u128, len: u64) -> Option<&'a [u8]>
        requires some { 0 < len }
        ensures value { option_copied result ≡ loaded self.now.file addr len }
        ensures len { IfSome result (λ part. length part.now ≡ len) }
    {
        bytes_at(self.view, addr, len)
    }

    // The region.
    pub(crate) fn region(&self) -> &'a [u8]
        ensures same { result.now ≡ self.now.region }
        ensures region { IsRegion result.now }
    {
        self.region
    }
}
