// The objects of a link, and the rows of their symbols.
ghost use Rattle.std.specs.Prelude.{◌≡◌, ◌<◌, ◌≤◌, ◌-◌, ◌^◌, [], length, get_or, IfOk};
ghost use Rattle.std.specs.List.{sum_by};
ghost use Rattle.glk_arena.specs.World.{objects_of, symbol_count};
ghost use Rattle.glk_base.specs.Groups.{group_of, group_start};
ghost use Rattle.glk_keys.specs.Blocks.{starts_of};
ghost use Rattle.glk_keys.specs.Rows.{row_limit};
ghost use Rattle.glk_obj.specs.Object.{IsObject};
ghost use Rattle.glk_obj.specs.Records.{symbols};

use crate::blocks::BlockStarts;
use glk_arena::Loaded;
use glk_base::OutOfMemory;
use glk_obj::ObjView;
use std::alloc::Global;
use std::marker::Model;

// The objects of a link in load order. Their symbols are rows, counted through the objects. Contracts see
// the bytes of each object.
#[derive(Drop)]
pub(crate) struct Objects<'a> {
    views: Vec<ObjView<'a>>,
    // where the blocks of symbols of each object begin
    blocks: Vec<BlockStarts>,
    // the first row of each object
    firsts: Vec<u32>,
    // the number of each row's object
    owners: Vec<u32>,
}

impl<'a> Model for Objects<'a> {
    ghost use Rattle.std.specs.Prelude.{ℕ, List};
    ghost use Rattle.glk_keys.specs.ObjectTables.{AreIndexed};

    ghost Value = { List (List ℕ) };

    ghost view = { λ o. o.views.items };

    ghost invariant = { λ o. AreIndexed o.views.items o.blocks.items o.firsts.items o.owners.items };
}

// A symbol of an object: the object's number, and the local index.
#[derive(Clone, Copy, Debug)]
pub(crate) struct LocalSymbol {
    pub object: u32,
    pub index: u32,
}

impl<'a> Objects<'a> {
    // The objects of loaded packages. It takes one pass over them, and four bytes for each row.
    pub fn new(alloc: Global, loaded: &'a Loaded) -> Result<Objects<'a>, OutOfMemory>
        requires { symbol_count loaded.now ≤ row_limit }
        ensures { IfOk result (λ objects. objects ≡ objects_of loaded.now) }
    {
        let count = loaded.objects();
        // So many objects would not fit in memory.
        if count == u32::MAX {
            return Err(OutOfMemory);
        }
        let mut views = Vec::with_capacity(alloc, count as usize)?;
        let mut blocks = Vec::with_capacity(alloc, count as usize)?;
        let mut firsts = Vec::with_capacity(alloc, count as usize)?;
        let mut owners = Vec::with_capacity(alloc, loaded.rows() as usize)?;
        for n in 0..count {
            let view = loaded.object(n);
            let first = owners.len();
            blocks.push(BlockStarts::of(&view))?;
            firsts.push(first as u32)?;
            owners.resize(first + view.symbols() as usize, n)?;
            views.push(view)?;
        }
        Ok(Objects {
            views,
            blocks,
            firsts,
            owners,
        })
    }

    // How many objects there are.
    pub fn count(&self) -> u32
        ensures value { result ≡ length self.now }
        ensures few { length self.now < 2 ^ 32 - 1 }
    {
        self.views.len() as u32
    }

    // How many rows they have.
    pub fn rows(&self) -> u32
        ensures value { result ≡ sum_by symbols self.now }
        ensures small { sum_by symbols self.now ≤ row_limit }
    {
        self.owners.len() as u32
    }

    // Object `n`.
    pub fn object(&self, n: u32) -> &ObjView<'a>
        requires { n < length self.now }
        ensures object { IsObject result.now }
        ensures value { result.now ≡ get_or self.now n [] }
    {
        &self.views[n as usize]
    }

    // Where the blocks of symbols of object `n` begin.
    pub fn blocks(&self, n: u32) -> BlockStarts
        requires { n < length self.now }
        ensures { result ≡ starts_of (get_or self.now n []) }
    {
        self.blocks[n as usize]
    }

    // The first row of object `n`.
    pub fn first_row(&self, n: u32) -> u32
        requires { n < length self.now }
        ensures { result ≡ group_start symbols self.now n }
    {
        self.firsts[n as usize]
    }

    // The symbol that a row is.
    pub fn symbol(&self, row: u32) -> LocalSymbol
        requires { row < sum_by symbols self.now }
        ensures object { result.object ≡ group_of symbols self.now row }
        ensures index { result.index ≡ row - group_start symbols self.now result.object }
        ensures inside { result.object < length self.now }
        ensures within { result.index < symbols (get_or self.now result.object []) }
    {
        let object = self.owners[row as usize];
        LocalSymbol {
            object,
            index: row - self.firsts[object as usize],
        }
    }
}
