// What the passes of a link begin with.
use glk_arena::{Builtins, Loaded};
use glk_obj::Numbers;

/// What is linked: the packages that are loaded, the builtin list, and the numbers of the kinds of
/// relocations.
#[derive(Drop)]
pub struct Inputs {
    pub loaded: Loaded,
    pub builtins: Builtins,
    pub numbers: Numbers,
}
