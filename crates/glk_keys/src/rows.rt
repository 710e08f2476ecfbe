// The rows of a link.
ghost use Rattle.std.specs.Prelude.{◌≡◌, ◌<◌, ◌≤◌, ◌-◌, ◌^◌, [], length, get_or, nat_lt, min, true, ℕ, List, IfOk, IfSome};
ghost use Rattle.glk_arena.specs.Packages.{find_package};
ghost use Rattle.glk_obj.specs.Numbers.{kind_of};
ghost use Rattle.glk_obj.specs.declared.numbers.Numbers.{Numbers as KindNumbers};
ghost use Rattle.glk_arena.specs.World.{objects_of, symbol_count, first_object, object_count, paths_of};
ghost use Rattle.glk_base.specs.Groups.{group_start};
ghost use Rattle.glk_keys.specs.Blocks.{starts_of};
ghost use Rattle.glk_keys.specs.Choices.{SizesFit};
ghost use Rattle.glk_keys.specs.Packages.{package_path};
ghost use Rattle.glk_keys.specs.Programs.{program_of};
ghost use Rattle.glk_keys.specs.Rows.{object_at, object_row, own_symbols, no_symbol, row_at, row_count, row_limit, made_row};
ghost use Rattle.glk_keys.specs.MadeNames.{made_count};
ghost use Rattle.glk_obj.specs.Object.{IsObject};
ghost use Rattle.glk_obj.specs.Records.{symbols};
ghost use Rattle.glk_obj.specs.Views.{symbol_view};

use crate::blocks::BlockStarts;
use crate::objects::{LocalSymbol, Objects};
use crate::own_symbols::{ASKED_COUNT, OWN_COUNT, asked, builtin, made};
use glk_arena::{Builtins, Loaded};
use glk_base::{ObjId, OutOfMemory, SymId};
use glk_obj::{Numbers, ObjView, RelocKind, SymRec};
use std::alloc::Global;
use std::marker::Model;

/// The rows of a link: the symbols of the loaded objects in load order, then the linker's own. Contracts
/// see what is linked.
#[derive(Drop)]
pub struct Rows<'a> {
    loaded: &'a Loaded,
    entry: &'a [u8],
    builtins: &'a Builtins,
    numbers: Numbers,
    objects: Objects<'a>,
}

impl<'a> Model for Rows<'a> {
    ghost use Rattle.glk_keys.specs.ObjectTables.{AreOfProgram};
    ghost use Rattle.glk_keys.specs.Programs.{Program, program_of};

    ghost Value = { Program };

    ghost view = { λ r. program_of r.loaded.now r.entry.now r.builtins.now r.numbers };

    ghost invariant = { λ r. AreOfProgram (program_of r.loaded.now r.entry.now r.builtins.now r.numbers) r.objects };
}

/// How many rows a link of these packages and these builtins has, with the linker's own; a number past 2^64 - 1 is
/// given as 2^64 - 1. It is the same for each name of the entry.
pub fn row_total(loaded: &Loaded, builtins: &Builtins) -> u64
    ensures { (entry : List ℕ) (numbers : KindNumbers)
        → result ≡ min (row_count (program_of loaded.now entry builtins.now numbers)) (2 ^ 64 - 1) }
{
    loaded
        .rows()
        .saturating_add(OWN_COUNT as u64 + builtins.len() as u64)
}

impl<'a> Rows<'a> {
    /// The rows of loaded packages, of the name of the entry, and of the builtin list. It takes one
    /// pass over the objects, and four bytes for each row.
    ///
    /// # Errors
    /// Out of memory.
    pub fn new(
        alloc: Global,
        loaded: &'a Loaded,
        entry: &'a [u8],
        builtins: &'a Builtins,
        numbers: Numbers,
    ) -> Result<Rows<'a>, OutOfMemory>
        requires { row_count (program_of loaded.now entry.now builtins.now numbers) ≤ row_limit }
        ensures { IfOk result (λ rows. rows ≡ program_of loaded.now entry.now builtins.now numbers) }
    {
        let objects = Objects::new(alloc, loaded)?;
        Ok(Rows {
            loaded,
            entry,
            builtins,
            numbers,
            objects,
        })
    }

    /// How many rows there are.
    pub fn count(&self) -> u32
        ensures value { result ≡ row_count self.now }
        ensures small { row_count self.now ≤ row_limit }
    {
        self.objects.rows() + self.own_count()
    }

    // How many rows are the linker's own.
    fn own_count(&self) -> u32
        ensures { result ≡ length (own_symbols self.now) }
    {
        OWN_COUNT + self.builtins.len()
    }

    /// How many rows the objects have. The others, after them, are the linker's own.
    pub fn of_objects(&self) -> u32
        ensures value { result ≡ symbol_count self.now.world }
        ensures small { symbol_count self.now.world ≤ row_limit }
    {
        self.objects.rows()
    }

    /// How many objects there are.
    pub fn objects(&self) -> u32
        ensures value { result ≡ length (objects_of self.now.world) }
        ensures few { result < 2 ^ 32 - 1 }
    {
        self.objects.count()
    }

    /// An object.
    pub fn object(&self, o: ObjId) -> &ObjView<'a>
        requires { o.0 < length (objects_of self.now.world) }
        ensures object { IsObject result.now }
        ensures value { result.now ≡ object_at self.now o.0 }
    {
        self.objects.object(o.0)
    }

    /// The path of the package that holds an object. The time is logarithmic in the packages.
    #[tactic(auto, unfolding(crate::specs::Packages::package_path))]
    pub fn package(&self, o: ObjId) -> &'a [u8]
        requires { o.0 < length (objects_of self.now.world) }
        ensures { result.now ≡ package_path self.now o.0 }
    {
        self.loaded.path(self.loaded.package_of_object(o.0))
    }

    // The symbol of an object that a row is.
    pub(crate) fn place(&self, id: u32) -> LocalSymbol
        requires { id < symbol_count self.now.world }
        ensures object { result.object < length (objects_of self.now.world) }
        ensures index { result.index < symbols (object_at self.now result.object) }
        ensures row { row_at self.now id
            ≡ object_row result.object (object_at self.now result.object) result.index }
    {
        self.objects.symbol(id)
    }

    // Where the blocks of symbols of object `n` begin.
    pub(crate) fn blocks(&self, n: u32) -> BlockStarts
        requires { n < length (objects_of self.now.world) }
        ensures { result ≡ starts_of (object_at self.now n) }
    {
        self.objects.blocks(n)
    }

    // The first row of object `n`.
    pub(crate) fn first_row(&self, n: u32) -> u32
        requires { n < length (objects_of self.now.world) }
        ensures { result ≡ group_start symbols (objects_of self.now.world) n }
    {
        self.objects.first_row(n)
    }

    // Symbol `i` of the linker's own.
    pub(crate) fn own(&self, i: u32) -> SymRec<'a>
        requires { i < length (own_symbols self.now) }
        ensures { symbol_view result ≡ get_or (own_symbols self.now) i no_symbol }
    {
        if i < ASKED_COUNT {
            asked(self.entry, i)
        } else if i < OWN_COUNT {
            made(i - ASKED_COUNT)
        } else {
            builtin(self.builtins, i - OWN_COUNT)
        }
    }

    /// The symbol of a row. Of the linker's own symbols the name, the ABI and the size are told.
    pub fn row(&self, id: SymId) -> SymRec<'a>
        requires { id.0 < row_count self.now }
        ensures { symbol_view result ≡ (row_at self.now id.0).symbol }
    {
        let of_objects = self.of_objects();
        if id.0 < of_objects {
            let at = self.place(id.0);
            self.object(ObjId(at.object)).sym(at.index)
        } else {
            self.own(id.0 - of_objects)
        }
    }

    // Whether a package has an object.
    pub(crate) fn has_object(&self, q: u32) -> bool
        requires { q < length self.now.world }
        ensures { result ≡ nat_lt 0 (object_count self.now.world q) }
    {
        0 < self.loaded.object_count(q)
    }

    // The number of the first object of a package that has one.
    pub(crate) fn first_object(&self, q: u32) -> u32
        requires package { q < length self.now.world }
        requires some { nat_lt 0 (object_count self.now.world q) ≡ true }
        ensures value { result ≡ first_object self.now.world q }
        ensures inside { result < length (objects_of self.now.world) }
    {
        self.loaded.first_object(q)
    }

    // The number of the loaded package that a stored path means.
    pub(crate) fn find_package(&self, name: &[u8]) -> Option<u32>
        ensures value { result ≡ find_package (paths_of self.now.world) name.now }
        ensures inside { IfSome result (λ q. q < length self.now.world) }
    {
        self.loaded.find_package(name)
    }

    /// The kind that a number of relocations means, if it means one. The bit that says weak is no part of the number.
    pub fn kind(&self, number: u16) -> Option<RelocKind>
        ensures { result ≡ kind_of self.now.numbers number }
    {
        self.numbers.kind(number)
    }

    /// The row of made name `k`.
    #[tactic(auto, unfolding(crate::specs::Rows::made_row))]
    pub fn made_row(&self, k: u8) -> SymId
        requires { k < made_count }
        ensures { result.0 ≡ made_row self.now k }
    {
        SymId(self.of_objects() + ASKED_COUNT + k as u32)
    }

    /// The size of each row's symbol has 32 bits: a law over all rows, which costs a look at each.
    pub fn sizes_fit(&self)
        ensures { SizesFit self.now }
    {
        for id in 0..self.count() {
            let _size = self.row(SymId(id)).size;
        }
    }

    /// The object of a row, and the row's local index there. The linker's own rows are in one object more.
    pub fn owner(&self, id: SymId) -> (ObjId, u32)
        requires { id.0 < row_count self.now }
        ensures object { result.0.0 ≡ (row_at self.now id.0).object }
        ensures local { result.1 ≡ (row_at self.now id.0).local }
    {
        let of_objects = self.of_objects();
        if id.0 < of_objects {
            let at = self.place(id.0);
            (ObjId(at.object), at.index)
        } else {
            (ObjId(self.objects()), id.0 - of_objects)
        }
    }
}
