// The loaded packages in load order, with tables over them.
ghost use Rattle.std.specs.Prelude.{◌≡◌, ◌+◌, ◌<◌, ◌≤◌, ◌++◌, ◌∷◌, ℕ, List, [], length, get_or, All, IfOk, option_copied};
ghost use Rattle.std.specs.Option.{option_or};
ghost use Rattle.glk_obj.specs.Object.{IsObject};
ghost use Rattle.glk_package.specs.HeaderRule.{line_or_open, header_view};
ghost use Rattle.glk_package.specs.WidthRule.{first_width, width_or_open, width_view};
ghost use Rattle.glk_package.specs.ObjectRules.{rules_view};
ghost use Rattle.glk_arena.specs.Packages.{find_package};
ghost use Rattle.glk_arena.specs.World.{Package, paths_of, objects_of, first_header, rules_so_far, package_of_object, first_object, object_count, file_bytes, symbol_count, package_limit, package_of_row};
ghost use Rattle.glk_base.specs.Limits.{file_limit};
ghost use Rattle.glk_arena.specs.Stored.{IsWhole};

use crate::packages::PackageTable;
use crate::stored::{LoadedPackage, copy_line};
use glk_base::{OutOfMemory, SymId, Text};
use glk_obj::ObjView;
use glk_package::{HeaderRule, ObjectRules, WidthRule};
use std::alloc::Global;
use std::marker::Model;

/// The loaded packages, which own their files. Contracts see them as a list in load order.
#[derive(Drop)]
pub struct Loaded {
    packages: Vec<LoadedPackage>,
    // the number of each object's package
    owners: Vec<u32>,
    // the first object of each package
    firsts: Vec<u32>,
    // the first row of each package
    rows: Vec<u32>,
    bytes: u64,
    symbols: u64,
    // the header line of the first object
    header: Option<Text>,
    // the length of the long hashes of the first object that has any
    width: Option<u32>,
    // the packages by their paths
    table: PackageTable,
}

impl Model for Loaded {
    ghost use Rattle.std.specs.Prelude.{List};
    ghost use Rattle.glk_arena.specs.World.{Package};
    ghost use Rattle.glk_arena.specs.Tables.{IsIndexed};

    ghost Value = { List Package };

    ghost view = { λ l. l.packages.items };

    ghost invariant = { λ l. IsIndexed l.packages.items l.owners.items l.firsts.items l.rows.items l.bytes l.symbols l.header l.width l.table };
}

impl Loaded {
    pub(crate) fn new(alloc: Global) -> Loaded
        ensures { result ≡ [] }
    {
        Loaded {
            packages: Vec::new(alloc),
            owners: Vec::new(alloc),
            firsts: Vec::new(alloc),
            rows: Vec::new(alloc),
            bytes: 0,
            symbols: 0,
            header: None,
            width: None,
            table: PackageTable::new(alloc),
        }
    }

    /// How many packages there are.
    pub fn packages(&self) -> u32
        ensures value { result ≡ length self.now }
        ensures few { length self.now ≤ package_limit }
        ensures objects { All IsObject (objects_of self.now) }
    {
        self.packages.len() as u32
    }

    // Package `p`.
    pub(crate) fn package(&self, p: usize) -> &LoadedPackage
        requires { p < length self.now }
        ensures { (d : Package) → result.now ≡ get_or self.now p d }
    {
        &self.packages[p]
    }

    /// The path of package `p`.
    pub fn path(&self, p: u32) -> &[u8]
        requires { p < length self.now }
        ensures { result.now ≡ get_or (paths_of self.now) p [] }
    {
        self.package(p as usize).path()
    }

    // The rules for further objects.
    pub(crate) fn rules(&self) -> ObjectRules<'_>
        ensures { rules_view result ≡ rules_so_far self.now }
    {
        ObjectRules {
            headers: self.header_rule(),
            widths: self.width_rule(),
        }
    }

    // The length of the long hashes of further objects: that of the first that has any.
    fn width_rule(&self) -> WidthRule
        ensures { width_view result ≡ width_or_open (first_width (objects_of self.now)) }
    {
        match self.width {
            Some(width) => WidthRule::Exactly(width),
            None => WidthRule::Uniform,
        }
    }

    // The header line of further objects: that of the first one, where there is one.
    fn header_rule(&self) -> HeaderRule<'_>
        ensures { header_view result ≡ line_or_open (first_header self.now) }
    {
        match &self.header {
            Some(line) => HeaderRule::Exactly(line.as_bytes()),
            None => HeaderRule::Uniform,
        }
    }

    /// How many objects there are, in all packages together.
    pub fn objects(&self) -> u32
        ensures { result ≡ length (objects_of self.now) }
    {
        self.owners.len() as u32
    }

    /// How many bytes the files of the packages have together. No package's objects are longer than its
    /// file.
    pub fn bytes(&self) -> u64
        ensures value { result ≡ file_bytes self.now }
        ensures few { file_bytes self.now ≤ file_limit }
        ensures whole { All IsWhole self.now }
    {
        self.bytes
    }

    /// How many symbols the objects have together.
    pub fn rows(&self) -> u64
        ensures { result ≡ symbol_count self.now }
    {
        self.symbols
    }

    /// The number of the package that holds object `n`.
    pub fn package_of_object(&self, n: u32) -> u32
        requires { n < length (objects_of self.now) }
        ensures value { result ≡ package_of_object self.now n }
        ensures inside { result < length self.now }
    {
        self.owners[n as usize]
    }

    /// The number of the first object of package `p`, or of the next one after it, where it has none.
    pub fn first_object(&self, p: u32) -> u32
        requires { p < length self.now }
        ensures { result ≡ first_object self.now p }
    {
        self.firsts[p as usize]
    }

    /// How many objects package `p` has.
    pub fn object_count(&self, p: u32) -> u32
        requires { p < length self.now }
        ensures { result ≡ object_count self.now p }
    {
        self.packages[p as usize].objects() as u32
    }

    /// Object `n`: objects are counted through, package by package. It takes no check.
    pub fn object(&self, n: u32) -> ObjView<'_>
        requires { n < length (objects_of self.now) }
        ensures object { IsObject (get_or (objects_of self.now) n []) }
        ensures value { result ≡ get_or (objects_of self.now) n [] }
    {
        let p = self.package_of_object(n);
        let first = self.first_object(p);
        self.package(p as usize).object((n - first) as usize)
    }

    /// The number of the package that a stored path means. It takes no memory.
    pub fn find_package(&self, name: &[u8]) -> Option<u32>
        ensures { result ≡ find_package (paths_of self.now) name.now }
    {
        self.table.package_of(name)
    }

    // The number of the package that holds row `r`: the last whose first row is not after it.
    fn package_of_row(&self, r: u32) -> u32
        requires { r < symbol_count self.now }
        ensures value { result ≡ package_of_row self.now r }
        ensures inside { result < length self.now }
    {
        last_below(&self.rows, r) as u32
    }

    /// The path of the package that holds a row. The time is logarithmic in the packages.
    pub fn package_of(&self, id: SymId) -> &[u8]
        requires { id.0 < symbol_count self.now }
        ensures { result.now ≡ get_or (paths_of self.now) (package_of_row self.now id.0) [] }
    {
        self.path(self.package_of_row(id.0))
    }

    // These packages and one after them.
    pub(crate) fn push(self, alloc: Global, last: LoadedPackage) -> Result<Loaded, OutOfMemory>
        requires whole { IsWhole last }
        requires few { length self < package_limit }
        requires small { file_bytes self + length last.file ≤ file_limit }
        ensures { IfOk result (λ list. list ≡ self ++ last ∷ []) }
    {
        let Loaded {
            mut packages,
            mut owners,
            mut firsts,
            mut rows,
            bytes,
            symbols,
            header,
            width,
            mut table,
        } = self;
        let first = owners.len();
        let number = packages.len() as u32;
        let more_bytes = last.bytes() as u64;
        let more_symbols = last.symbols() as u64;
        let header = header_of_first(alloc, header, last.header())?;
        let width = first_of(width, last.hash_width());
        table.add(alloc, last.path(), number)?;
        owners.resize(first + last.objects(), number)?;
        firsts.push(first as u32)?;
        rows.push(symbols as u32)?;
        packages.push(last)?;
        Ok(Loaded {
            packages,
            owners,
            firsts,
            rows,
            bytes: bytes + more_bytes,
            symbols: symbols + more_symbols,
            header,
            width,
            table,
        })
    }
}

// A header line that is settled, else a copy of the later one.
fn header_of_first(
    alloc: Global,
    settled: Option<Text>,
    later: Option<&[u8]>,
) -> Result<Option<Text>, OutOfMemory>
    ensures { IfOk result (λ header. header ≡ option_or settled (option_copied later.entry)) }
{
    match settled {
        Some(line) => Ok(Some(line)),
        None => copy_line(alloc, later),
    }
}

// A width that is settled, else that of what comes after.
fn first_of(settled: Option<u32>, later: Option<u32>) -> Option<u32>
    ensures { result ≡ option_or settled later }
{
    match settled {
        Some(width) => Some(width),
        None => later,
    }
}

// The last index whose number is not above `r`, in numbers that rise from one that is not above it.
fn last_below(rows: &[u32], r: u32) -> usize
    requires { (0 < length rows.now) × (get_or rows.now 0 0 ≤ r) }
    ensures inside { result < length rows.now }
    ensures low { get_or rows.now result 0 ≤ r }
    ensures high { (result + 1 < length rows.now) → r < get_or rows.now (result + 1) 0 }
{
    let mut low = 0;
    let mut high = rows.len();
    while high - low > 1 {
        let middle = low + (high - low) / 2;
        if rows[middle] <= r {
            low = middle;
        } else {
            high = middle;
        }
    }
    low
}
