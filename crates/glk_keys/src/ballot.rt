// Rows as a ballot: what the election of keys and definitions is told of them.
ghost use Rattle.std.specs.Prelude.{◌≡◌, ◌<◌, ℕ, length, IsTrue};
ghost use Rattle.glk_keys.specs.Blocks.{starts_of, flag_class_of};
ghost use Rattle.glk_keys.specs.Keys.{name_key as name_key_of, row_key, same_key as same_key_of};
ghost use Rattle.std.specs.Str.{bytes_eq};
ghost use Rattle.glk_keys.specs.Rows.{object_row, row_at, row_count};
ghost use Rattle.glk_keys.specs.Views.{key_view};
ghost use Rattle.glk_keys.specs.Votes.{class_of, is_strong_class};
ghost use Rattle.glk_obj.specs.Object.{IsObject};
ghost use Rattle.glk_obj.specs.Records.{symbols, definitions};
ghost use Rattle.glk_obj.specs.Views.{symbol_view};

use crate::blocks::{BlockStarts, SymbolBlock};
use crate::keys::{SymbolKey, hash_key, same_key};
use crate::rows::Rows;
use glk_base::{ObjId, SymId};
use glk_elect::{Ballot, Vote};
use glk_obj::{ObjView, SymRec};
use glk_table::{Keys, RankClass, rank};

const ABI_STATIC: u16 = 65535;

// Names up to this length are compared without a look at where they are.
const SHORT_NAME: usize = 64;

// The key of a symbol without a hash, which is symbol `local` of object `object`.
#[tactic(auto, unfolding(crate::specs::Keys::name_key))]
fn name_key<'a>(object: u32, local: u32, symbol: SymRec<'a>) -> SymbolKey<'a>
    ensures { key_view result ≡ name_key_of object local (symbol_view symbol.entry) }
{
    if symbol.abi == ABI_STATIC || symbol.name.is_empty() {
        SymbolKey::OfObject { object, local }
    } else {
        SymbolKey::Named {
            name: symbol.name,
            abi: symbol.abi,
        }
    }
}

// The key of symbol `i` of object `n`.
fn object_key<'a>(n: u32, object: &ObjView<'a>, starts: BlockStarts, i: u32) -> SymbolKey<'a>
    requires object { IsObject object.now }
    requires starts { starts ≡ starts_of object.now }
    requires symbol { i < symbols object.now }
    ensures { key_view result ≡ row_key (object_row n object.now i) }
{
    match starts.block(object, i) {
        SymbolBlock::Symdef => name_key(n, i, object.sym(i)),
        SymbolBlock::Hashed64def => SymbolKey::Short(object.hash64(i - starts.hashed64)),
        SymbolBlock::Hasheddef => SymbolKey::Long(object.hash(i - starts.hashed)),
        SymbolBlock::Nonpkgdef => name_key(n, i, object.sym(i)),
        SymbolBlock::Nonpkgref => name_key(n, i, object.sym(i)),
    }
}

// The class of a definition without a hash.
#[tactic(auto, unfolding(crate::specs::Blocks::flag_class_of))]
fn flag_class(object: &ObjView<'_>, i: u32) -> RankClass
    requires { i < definitions object.now }
    ensures { result ≡ flag_class_of object.now i }
{
    if object.sym(i).is_dupok() {
        RankClass::Shared
    } else if object.data(i).is_empty() {
        RankClass::Other
    } else {
        RankClass::Strong
    }
}

// The class of symbol `i` of an object, if it is a definition.
fn object_class(object: &ObjView<'_>, starts: BlockStarts, i: u32) -> Option<RankClass>
    requires starts { starts ≡ starts_of object.now }
    requires symbol { i < symbols object.now }
    ensures { (n : ℕ) → result ≡ class_of (object_row n object.now i) }
{
    match starts.block(object, i) {
        SymbolBlock::Symdef => Some(flag_class(object, i)),
        SymbolBlock::Hashed64def => Some(RankClass::Shared),
        SymbolBlock::Hasheddef => Some(RankClass::Shared),
        SymbolBlock::Nonpkgdef => Some(flag_class(object, i)),
        SymbolBlock::Nonpkgref => None,
    }
}

// Whether no other definition of the key is to be of this class.
fn is_strong(class: RankClass) -> bool
    ensures { result ≡ is_strong_class class }
{
    match class {
        RankClass::Strong => true,
        RankClass::Shared | RankClass::Other => false,
    }
}

impl<'a> Rows<'a> {
    /// The key of a row.
    pub fn key_in(&self, id: SymId) -> SymbolKey<'a>
        requires { id.0 < row_count self.now }
        ensures { key_view result ≡ row_key (row_at self.now id.0) }
    {
        let of_objects = self.of_objects();
        if id.0 < of_objects {
            let at = self.place(id.0);
            object_key(
                at.object,
                self.object(ObjId(at.object)),
                self.blocks(at.object),
                at.index,
            )
        } else {
            let i = id.0 - of_objects;
            name_key(self.objects(), i, self.own(i))
        }
    }

    /// The class of a row, if it is a definition.
    pub fn class(&self, id: SymId) -> Option<RankClass>
        requires { id.0 < row_count self.now }
        ensures { result ≡ class_of (row_at self.now id.0) }
    {
        if id.0 < self.of_objects() {
            let at = self.place(id.0);
            object_class(
                self.object(ObjId(at.object)),
                self.blocks(at.object),
                at.index,
            )
        } else {
            None
        }
    }

    // Whether two rows of one object have their names at one place, where names are long. Then the names are
    // equal, and none of their bytes is read.
    fn share_name(&self, a: u32, b: u32) -> bool
        requires rows { (a < row_count self.now) × (b < row_count self.now) }
        ensures { IsTrue result → (row_at self.now a).symbol.name ≡ (row_at self.now b).symbol.name }
    {
        let of_objects = self.of_objects();
        if a >= of_objects || b >= of_objects {
            return false;
        }
        let first = self.place(a);
        let second = self.place(b);
        if first.object != second.object {
            return false;
        }
        let object = self.object(ObjId(first.object));
        object.name_range(first.index) == object.name_range(second.index)
    }

    // Whether two rows have one key.
    fn same_rows(&self, a: u32, b: u32) -> bool
        requires rows { (a < row_count self.now) × (b < row_count self.now) }
        ensures { result ≡ same_key_of (row_key (row_at self.now a)) (row_key (row_at self.now b)) }
    {
        match (self.key_in(SymId(a)), self.key_in(SymId(b))) {
            (SymbolKey::Named { name: x, abi: m }, SymbolKey::Named { name: y, abi: n }) => {
                m == n && self.same_name(a, b, x, y)
            }
            (x, y) => same_key(x, y),
        }
    }

    // Whether the names of two rows are equal. A long name that both have at one place of their object isn't read.
    fn same_name(&self, a: u32, b: u32, x: &[u8], y: &[u8]) -> bool
        requires rows { (a < row_count self.now) × (b < row_count self.now) }
        requires first { x.now ≡ (row_at self.now a).symbol.name }
        requires second { y.now ≡ (row_at self.now b).symbol.name }
        ensures { result ≡ bytes_eq x.now y.now }
    {
        if x.len() != y.len() {
            return false;
        }
        if x.len() > SHORT_NAME && self.share_name(a, b) {
            return true;
        }
        x == y
    }
}

impl<'a> Keys for Rows<'a> {
    ghost use Rattle.glk_keys.specs.KeyNumbers.{keys_of, keyed_lawful};
    ghost use Rattle.glk_keys.specs.Keys.{row_keys};

    ghost list = { λ s. keys_of s };

    ghost lawful = { λ s. keyed_lawful (row_keys s) };

    fn len(&self) -> u32 {
        self.count()
    }

    fn hash(&self, id: u32) -> u64 {
        hash_key(self.key_in(SymId(id)))
    }

    fn same(&self, a: u32, b: u32) -> bool {
        a == b || self.same_rows(a, b)
    }
}

impl<'a> Ballot for Rows<'a> {
    ghost use Rattle.glk_keys.specs.Votes.{groups_of, votes_of};
    ghost use Rattle.glk_keys.specs.GroupLaws.{grouped_rows};

    ghost groups = { λ s. groups_of s };

    ghost votes = { λ s. votes_of s };

    ghost grouped = { λ s. grouped_rows s };

    fn groups(&self) -> u32 {
        self.objects() + 1
    }

    fn first(&self, group: u32) -> u32 {
        if group < self.objects() {
            self.first_row(group)
        } else if group == self.objects() {
            self.of_objects()
        } else {
            self.count()
        }
    }

    fn vote(&self, id: u32) -> Option<Vote> {
        let _rows = self.count();
        match self.class(SymId(id)) {
            Some(class) => Some(Vote {
                rank: rank(class, self.row(SymId(id)).size, SymId(id)),
                strong: is_strong(class),
            }),
            None => None,
        }
    }
}
