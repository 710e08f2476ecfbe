// What is read of a program's init tasks.
ghost use Rattle.std.specs.Prelude.{◌≡◌, ◌<◌, ◌^◌, OnOk};
ghost use Rattle.std.specs.List.{All};
ghost use Rattle.glk_init.specs.Graph.{InitGraph, IsWithin};

use glk_base::OutOfMemory;

/// What a symbol waits for by one of its INITORDER relocations.
#[derive(Clone, Copy, Debug, PartialEq, Eq)]
pub struct InitEdge {
    /// The relocation's number among those of the symbol.
    pub relocation: u32,
    /// The key that it means; none where it means a symbol that no loaded object has.
    pub target: Option<u32>,
}

/// A linked program, by its symbols: keys, which are the numbers below `keys`. Contracts see of it what
/// init order goes by.
pub trait InitProgram {
    ghost graph: { Self → InitGraph };

    /// How many keys there are.
    fn keys(&self) -> u32
        ensures { result ≡ (graph self.now).keys };

    /// Whether a key has a definition.
    fn is_defined(&self, key: u32) -> bool
        requires { key < (graph self.now).keys }
        ensures { result ≡ (graph self.now).defined key };

    /// The name of a key.
    fn name(&self, key: u32) -> &[u8]
        requires { key < (graph self.now).keys }
        ensures { result.now ≡ (graph self.now).name key };

    /// The load position of a key's definition.
    fn position(&self, key: u32) -> u32
        requires { key < (graph self.now).keys }
        ensures { result ≡ (graph self.now).position key };

    /// How many bytes a key's definition has.
    fn size(&self, key: u32) -> u32
        requires { key < (graph self.now).keys }
        ensures { result ≡ (graph self.now).size key };

    /// Replaces what is in a buffer by the INITORDER relocations of a key that have a target, weak and
    /// strong, in their order. A relocation that means nothing is none of them.
    ///
    /// # Errors
    /// Out of memory: the buffer holds anything.
    fn edges(&self, key: u32, out: &mut Vec<InitEdge>) -> Result<(), OutOfMemory>
        requires { key < (graph self.now).keys }
        ensures value { OnOk result (out.new.items ≡ (graph self.now).edges key) }
        ensures within { OnOk result (All (IsWithin (graph self.now).keys) ((graph self.now).edges key)) };
}
