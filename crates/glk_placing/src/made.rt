// What the link makes for a program in `.rodata`.
ghost use Rattle.std.specs.Prelude.{◌≡◌, ◌<◌};
ghost use Rattle.glk_placing.specs.Programs.{made_contents, made_index, made_list};

use glk_layout::MadeContent;

/// The sizes in bytes of what is made in `.rodata` after its symbols, in this order. An empty list has its
/// place too.
#[derive(Clone, Copy, Debug, PartialEq, Eq)]
pub struct MadeSizes {
    /// The list of the init tasks of the main package, eight bytes a task.
    pub main_tasks: u64,
    /// That of the runtime.
    pub runtime_tasks: u64,
    /// The trees of inlined calls, one after the other.
    pub trees: u64,
    /// The table of buckets by which functions are found.
    pub findfunctab: u64,
    /// The pointer programs of data and zeros.
    pub pointers: u64,
}

/// What is made in `.rodata`, in the order of its addresses.
#[derive(Clone, Copy, Debug, PartialEq, Eq)]
pub enum MadeContentKind {
    MainTasks,
    RuntimeTasks,
    Trees,
    FindFuncTab,
    Pointers,
}

impl MadeContentKind {
    /// Its index among them.
    pub(crate) fn index(self) -> usize
        ensures index { result ≡ made_index self }
        ensures inside { result < made_contents }
    {
        match self {
            MadeContentKind::MainTasks => 0,
            MadeContentKind::RuntimeTasks => 1,
            MadeContentKind::Trees => 2,
            MadeContentKind::FindFuncTab => 3,
            MadeContentKind::Pointers => 4,
        }
    }
}

// How many contents these are.
pub(crate) const MADE_CONTENTS: usize = 5;

// The multiples on which lists of addresses, and lists of smaller numbers, are.
const LIST_ALIGN: u32 = 8;

const TABLE_ALIGN: u32 = 4;

const NO_ALIGN: u32 = 1;

fn content(align: u32, size: u64) -> MadeContent
    ensures { result ≡ record { align = align; size = size } }
{
    MadeContent { align, size }
}

// These contents in their order.
pub(crate) fn made_list(sizes: &MadeSizes) -> [MadeContent; MADE_CONTENTS]
    ensures { result ≡ made_list sizes.now }
{
    [
        content(LIST_ALIGN, sizes.main_tasks),
        content(LIST_ALIGN, sizes.runtime_tasks),
        content(TABLE_ALIGN, sizes.trees),
        content(TABLE_ALIGN, sizes.findfunctab),
        content(NO_ALIGN, sizes.pointers),
    ]
}
