// What the search reads of a program.
ghost use Rattle.std.specs.Prelude.{◌≡◌, ◌<◌, OnOk, map};
ghost use Rattle.std.specs.List.{All};
ghost use Rattle.glk_closure.specs.Graph.{Graph};
ghost use Rattle.glk_closure.specs.Views.{effect_view, IsWithin};

use crate::effect::Effect;
use glk_base::OutOfMemory;

/// A linked program, by its symbols: keys, which are the numbers below `keys`. Contracts see it as
/// a graph.
pub trait Program {
    ghost graph: { Self → Graph };

    /// How many keys there are.
    fn keys(&self) -> u32
        ensures { result ≡ (graph self.now).keys };

    /// The roots: the entry, the stand-ins of what is not kept, and the listed init tasks. Those
    /// without a definition count for nothing.
    fn roots(&self) -> &[u32]
        ensures value { result.now ≡ (graph self.now).roots }
        ensures within { All (λ r. r < (graph self.now).keys) (graph self.now).roots };

    /// Whether a key has a definition.
    fn is_defined(&self, key: u32) -> bool
        requires { key < (graph self.now).keys }
        ensures { result ≡ (graph self.now).defined key };

    /// Whether an object says of a key that it is used in an interface.
    fn is_flagged(&self, key: u32) -> bool
        requires { key < (graph self.now).keys }
        ensures { result ≡ (graph self.now).flagged key };

    /// Whether a key calls methods by reflection.
    fn reflects(&self, key: u32) -> bool
        requires { key < (graph self.now).keys }
        ensures { result ≡ (graph self.now).reflects key };

    /// Replaces what is in a buffer by the effects of a key. The search asks for a key at most twice.
    ///
    /// # Errors
    /// Out of memory: the buffer holds anything.
    fn effects<'a>(&'a self, key: u32, out: &mut Vec<Effect<'a>>) -> Result<(), OutOfMemory>
        requires { key < (graph self.now).keys }
        ensures value { OnOk result (map effect_view out.new.items ≡ (graph self.now).effects key) }
        ensures within { OnOk result (All (IsWithin (graph self.now).keys) ((graph self.now).effects key)) };
}
