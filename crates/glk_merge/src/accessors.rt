// What a merged program answers of keys and references.
ghost use Rattle.std.specs.Prelude.{◌≡◌, ◌<◌, length, slice_index, IfSome};
ghost use Rattle.glk_arena.specs.World.{objects_of};
ghost use Rattle.glk_keys.specs.Definitions.{chosen_of, made_name_of};
ghost use Rattle.glk_keys.specs.Interfaces.{iface_flag};
ghost use Rattle.glk_keys.specs.Keys.{key_id, find_key};
ghost use Rattle.glk_keys.specs.MadeNames.{made_count};
ghost use Rattle.glk_keys.specs.Rows.{row_count};
ghost use Rattle.glk_keys.specs.Targets.{target_of};
ghost use Rattle.glk_merge.specs.Accessors.{key_numbers, row_numbers};
ghost use Rattle.glk_merge.specs.Mergings.{IsKey, IsRow, IsSomeKey, IsTargetKey};
ghost use Rattle.glk_obj.specs.Views.{ref_view};

use crate::find::find_row;
use crate::key_tables::NO_DEFINITION;
use crate::merged::Merged;
use crate::offers::referent;
use glk_base::{KeyId, ObjId, SymId};
use glk_keys::{Referent, Target, made_number};
use glk_obj::SymRef;
use glk_table::{Elected, Place};

impl<'a> Merged<'a> {
    // The key of a row.
    fn key_number(&self, id: u32) -> u32
        requires { id < row_count self.now.program }
        ensures { result ≡ key_id self.now.program id }
    {
        self.keys[id as usize]
    }

    /// The key of a row: of the rows that are the same symbol, the least.
    pub fn key(&self, id: SymId) -> KeyId
        requires { id.0 < row_count self.now.program }
        ensures value { result.0 ≡ key_id self.now.program id.0 }
        ensures key { IsKey self.now.program result.0 }
    {
        KeyId(self.key_number(id.0))
    }

    /// The row of the chosen definition of a key, if it has one. Of a made name it is its row among the made
    /// names, which is no definition of an object.
    pub fn chosen(&self, key: KeyId) -> Option<SymId>
        requires { IsKey self.now.program key.0 }
        ensures value { row_numbers result ≡ chosen_of self.now.program key.0 }
        ensures within { IsRow self.now.program (row_numbers result) }
    {
        let chosen = self.chosen[key.0 as usize];
        if chosen == NO_DEFINITION {
            None
        } else {
            Some(SymId(chosen))
        }
    }

    /// The number of the made name that a key is, if it is one.
    pub fn made(&self, key: KeyId) -> Option<u8>
        requires { IsKey self.now.program key.0 }
        ensures value { result ≡ made_name_of self.now.program key.0 }
        ensures within { IfSome result (λ k. k < made_count) }
    {
        made_number(self.rows.key_in(SymId(key.0)))
    }

    /// Whether a key is a type that is turned into an interface: a definition of it says so, also one that is
    /// passed over, or the flags that an object gives to a reference.
    pub fn iface_flag(&self, key: KeyId) -> bool
        requires { IsKey self.now.program key.0 }
        ensures { result ≡ iface_flag self.now.program key.0 }
    {
        self.iface_flags[key.0 as usize]
    }

    /// What a reference in an object means. It takes constant time.
    #[tactic(auto, unfolding(glk_keys::specs::Targets::target_of))]
    pub fn target(&self, o: ObjId, r: SymRef) -> Target
        requires { o.0 < length (objects_of self.now.program.world) }
        ensures value { result ≡ target_of self.now.program o.0 (ref_view r) }
        ensures key { IsTargetKey self.now.program result }
    {
        match referent(&self.rows, &self.offers, o, r) {
            Referent::Nothing => Target::Nothing,
            Referent::Row(id) => Target::Key(self.key(id)),
            Referent::Missing => Target::Missing {
                pkg: r.pkg,
                index: r.sym,
            },
        }
    }

    /// The key of a name with an ABI, if a row has it. The rows that the linker asks for are looked at first;
    /// for another name it takes one pass over all rows.
    pub fn find(&self, name: &[u8], abi: u16) -> Option<KeyId>
        ensures value { key_numbers result ≡ find_key self.now.program name.now abi }
        ensures key { IsSomeKey self.now.program (key_numbers result) }
    {
        match find_row(&self.rows, name, abi) {
            Some(id) => Some(self.key(SymId(id))),
            None => None,
        }
    }

    /// The closed key table.
    pub fn elected(&self) -> &Elected
        ensures { result.now ≡ self.now.poll.election }
    {
        self.polled.elected()
    }

    /// The place of a row's key in the closed key table.
    pub fn place(&self, id: SymId) -> Place
        requires { id.0 < row_count self.now.program }
        ensures { result ≡ slice_index self.now.poll.places id.0 }
    {
        self.polled.place(id.0)
    }
}
