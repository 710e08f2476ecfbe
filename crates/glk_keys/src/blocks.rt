// In which block of its object a symbol is.
ghost use Rattle.std.specs.Prelude.{◌≡◌, ◌<◌, ◌≤◌, ◌+◌};
ghost use Rattle.glk_keys.specs.LocalIndices.{symdef_symbols, hashed64_symbols, hashed_symbols, unpackaged_symbols};
ghost use Rattle.glk_keys.specs.Blocks.{starts_of, origin_in, range_view, IsInBlock};
ghost use Rattle.glk_keys.specs.Rows.{origin_at};
ghost use Rattle.glk_obj.specs.Records.{symbols};

use glk_obj::{Block, ObjView};

// A block of symbols.
#[derive(Clone, Copy, Debug, PartialEq, Eq)]
pub(crate) enum SymbolBlock {
    Symdef,
    Hashed64def,
    Hasheddef,
    Nonpkgdef,
    Nonpkgref,
}

// The local index of the first symbol of each block but Symdef, which is the first one, and the
// number of all symbols. They are counted once an object, since the length of a block is a quotient.
#[derive(Clone, Copy, Debug)]
pub(crate) struct BlockStarts {
    pub hashed64: u32,
    pub hashed: u32,
    pub named: u32,
    pub references: u32,
    pub end: u32,
}

impl BlockStarts {
    // Those of an object.
    #[tactic(auto, unfolding(crate::specs::Blocks::starts_of))]
    pub fn of(object: &ObjView<'_>) -> BlockStarts
        ensures { result ≡ starts_of object.now }
    {
        let end = object.symbols();
        let hashed64 = object.count(Block::Symdef);
        let hashed = hashed64 + object.count(Block::Hashed64def);
        BlockStarts {
            hashed64,
            hashed,
            named: hashed + object.count(Block::Hasheddef),
            references: object.definitions(),
            end,
        }
    }

    // The symbols of Symdef.
    pub fn symdef(self, object: &ObjView<'_>) -> IndexRange
        requires { self ≡ starts_of object.now }
        ensures range { range_view result ≡ symdef_symbols object.now }
        ensures within { result.first + result.size ≤ symbols object.now }
    {
        let _ = object;
        IndexRange {
            first: 0,
            size: self.hashed64,
        }
    }

    // The symbols of Hashed64def.
    pub fn short_hashed(self, object: &ObjView<'_>) -> IndexRange
        requires { self ≡ starts_of object.now }
        ensures range { range_view result ≡ hashed64_symbols object.now }
        ensures within { result.first + result.size ≤ symbols object.now }
    {
        let _ = object;
        IndexRange {
            first: self.hashed64,
            size: self.hashed - self.hashed64,
        }
    }

    // The symbols of Hasheddef.
    pub fn long_hashed(self, object: &ObjView<'_>) -> IndexRange
        requires { self ≡ starts_of object.now }
        ensures range { range_view result ≡ hashed_symbols object.now }
        ensures within { result.first + result.size ≤ symbols object.now }
    {
        let _ = object;
        IndexRange {
            first: self.hashed,
            size: self.named - self.hashed,
        }
    }

    // The symbols of Nonpkgdef and then Nonpkgref.
    pub fn unpackaged(self, object: &ObjView<'_>) -> IndexRange
        requires { self ≡ starts_of object.now }
        ensures range { range_view result ≡ unpackaged_symbols object.now }
        ensures within { result.first + result.size ≤ symbols object.now }
    {
        let _ = object;
        IndexRange {
            first: self.named,
            size: self.end - self.named,
        }
    }

    // The block of symbol `i` of the object.
    #[tactic(auto, unfolding(crate::specs::Blocks::starts_of, crate::specs::Rows::origin_at))]
    pub fn block(self, object: &ObjView<'_>, i: u32) -> SymbolBlock
        requires starts { self ≡ starts_of object.now }
        requires symbol { i < symbols object.now }
        ensures origin { origin_at object.now i ≡ origin_in object.now i result }
        ensures inside { IsInBlock object.now i result }
    {
        let _ = object;
        if i < self.hashed64 {
            SymbolBlock::Symdef
        } else if i < self.hashed {
            SymbolBlock::Hashed64def
        } else if i < self.named {
            SymbolBlock::Hasheddef
        } else if i < self.references {
            SymbolBlock::Nonpkgdef
        } else {
            SymbolBlock::Nonpkgref
        }
    }
}

// Symbols of an object that have one local index after the other.
#[derive(Clone, Copy, Debug)]
pub(crate) struct IndexRange {
    pub first: u32,
    pub size: u32,
}
