// The ids of a table.
ghost use Rattle.std.specs.Prelude.{◌≡◌, ℕ, ◌<◌, ◌↔◌, List, length, IsTrue};
ghost use Rattle.glk_table.specs.Keys.{hash_of, key_of, IsLawful};

/// The ids below `len`, each with a hash and a key. Contracts see them as a list that holds, for
/// each id, its hash and the number of its key. Ids of one key have one hash.
pub trait Keys: Sync {
    ghost list: { Self → List (ℕ × ℕ) };

    /// How many ids there are.
    fn len(&self) -> u32
        ensures { result ≡ length (list self.now) };

    /// The hash of the id's key.
    fn hash(&self, id: u32) -> u64
        requires { id < length (list self.now) }
        ensures { result ≡ hash_of (list self.now) id };

    /// Whether two ids have one key.
    fn same(&self, a: u32, b: u32) -> bool
        requires { (a < length (list self.now)) × (b < length (list self.now)) }
        ensures { IsTrue result ↔ (key_of (list self.now) a ≡ key_of (list self.now) b) };

    ghost lawful: { (x : Self) → IsLawful (list x) };
}
