// The numbers of a region: those of pcHeader, and functab.
ghost use Rattle.std.specs.Prelude.{◌≡◌, ◌+◌, ◌<◌, ◌≤◌, ◌↔◌, length, IsTrue};
ghost use Rattle.glk_base.specs.Bytes.{number_at};
ghost use Rattle.glk_frames.specs.Region.{IsRegion, function_count as count_of, text_start as text_start_of, funcnametab_offset as names_of, cutab_offset as units_of, filetab_offset as files_of, pctab_offset as tables_of, pclntable_offset as records_of, start_of as start_in, record_offset as record_in};
ghost use Rattle.glk_frames_reader.specs.Parts.{HasHeader, HasTables};

use glk_base::{le32, le64};

// The size of pcHeader.
const HEADER_SIZE: usize = 72;

// What it begins with: the magic number, two zeros, the least size of an instruction, and the size of
// a pointer.
const MAGIC: [u8; 8] = [0xf1, 0xff, 0xff, 0xff, 0, 0, 1, 8];

// Where it has its numbers.
const FUNCTION_COUNT: usize = 8;

const TEXT_START: usize = 24;

const FUNCNAMETAB: usize = 32;

const CUTAB: usize = 40;

const FILETAB: usize = 48;

const PCTAB: usize = 56;

const PCLNTABLE: usize = 64;

// A number of pcHeader.
fn header_number(region: &[u8], at: usize) -> u64
    requires header { 72 ≤ length region.now }
    requires inside { at + 8 ≤ 72 }
    ensures { result ≡ number_at 8 region.now at }
{
    le64(region, at).unwrap()
}

// How many functions there are.
#[tactic(auto, unfolding(glk_frames::specs::Region::function_count))]
pub(crate) fn function_count(region: &[u8]) -> u64
    requires { 72 ≤ length region.now }
    ensures { result ≡ count_of region.now }
{
    header_number(region, FUNCTION_COUNT)
}

// The address of the text.
#[tactic(auto, unfolding(glk_frames::specs::Region::text_start))]
pub(crate) fn text_start(region: &[u8]) -> u64
    requires { 72 ≤ length region.now }
    ensures { result ≡ text_start_of region.now }
{
    header_number(region, TEXT_START)
}

// Where the names of functions are.
#[tactic(auto, unfolding(glk_frames::specs::Region::funcnametab_offset))]
pub(crate) fn funcnametab(region: &[u8]) -> u64
    requires { 72 ≤ length region.now }
    ensures { result ≡ names_of region.now }
{
    header_number(region, FUNCNAMETAB)
}

// Where the offsets of files are.
#[tactic(auto, unfolding(glk_frames::specs::Region::cutab_offset))]
pub(crate) fn cutab(region: &[u8]) -> u64
    requires { 72 ≤ length region.now }
    ensures { result ≡ units_of region.now }
{
    header_number(region, CUTAB)
}

// Where the names of files are.
#[tactic(auto, unfolding(glk_frames::specs::Region::filetab_offset))]
pub(crate) fn filetab(region: &[u8]) -> u64
    requires { 72 ≤ length region.now }
    ensures { result ≡ files_of region.now }
{
    header_number(region, FILETAB)
}

// Where the pc tables are.
#[tactic(auto, unfolding(glk_frames::specs::Region::pctab_offset))]
pub(crate) fn pctab(region: &[u8]) -> u64
    requires { 72 ≤ length region.now }
    ensures { result ≡ tables_of region.now }
{
    header_number(region, PCTAB)
}

// Where functab is, and from where the offsets of records count.
#[tactic(auto, unfolding(glk_frames::specs::Region::pclntable_offset))]
pub(crate) fn pclntable(region: &[u8]) -> u64
    requires { 72 ≤ length region.now }
    ensures { result ≡ records_of region.now }
{
    header_number(region, PCLNTABLE)
}

// Whether there is a whole pcHeader with its magic number.
fn has_header(bytes: &[u8]) -> bool
    ensures { IsTrue result ↔ HasHeader bytes.now }
{
    bytes.len() >= HEADER_SIZE && &bytes[..8] == MAGIC.as_slice()
}

// Whether each table begins inside the bytes, and functab ends inside them.
fn has_tables(bytes: &[u8]) -> bool
    requires { 72 ≤ length bytes.now }
    ensures { IsTrue result ↔ HasTables bytes.now }
{
    let length = bytes.len() as u64;
    let names = funcnametab(bytes);
    let units = cutab(bytes);
    let files = filetab(bytes);
    let tables = pctab(bytes);
    let records = pclntable(bytes);
    let end = records as u128 + 8 * function_count(bytes) as u128 + 4;
    names <= length
        && units <= length
        && files <= length
        && tables <= length
        && records <= length
        && end <= length as u128
}

// Whether the bytes are a region.
pub(crate) fn is_region(bytes: &[u8]) -> bool
    ensures { IsTrue result ↔ IsRegion bytes.now }
{
    has_header(bytes) && has_tables(bytes)
}

// Where a function starts, as an offset of the text; after the last one, the size of the text.
#[tactic(auto, unfolding(glk_frames::specs::Region::start_of))]
pub(crate) fn start_of(region: &[u8], i: usize) -> u32
    requires region { IsRegion region.now }
    requires index { i ≤ count_of region.now }
    ensures { result ≡ start_in region.now i }
{
    le32(region, pclntable(region) as usize + 8 * i).unwrap()
}

// Where the record of a function is.
#[tactic(auto, unfolding(glk_frames::specs::Region::record_offset))]
pub(crate) fn record_offset(region: &[u8], i: usize) -> usize
    requires region { IsRegion region.now }
    requires index { i < count_of region.now }
    ensures { result ≡ record_in region.now i }
{
    let records = pclntable(region) as usize;
    records + le32(region, records + 8 * i + 4).unwrap() as usize
}
