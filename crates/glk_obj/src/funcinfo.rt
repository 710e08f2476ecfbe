// What is known of a function beside its code.
ghost use Rattle.std.specs.Prelude.{◌≡◌, ◌+◌, ◌<◌, ◌≤◌, ◌^◌, length};
ghost use Rattle.std.specs.Option.{SomeIff};
ghost use Rattle.glk_obj.specs.FuncInfos.{HoldsFuncInfo, args, func_id, func_flag, start_line, node_count_offset, nodes_offset, node_count, node_offset as node_offset_of, node_width, node_from, node_at};
ghost use Rattle.glk_obj.specs.Views.{node_view};

use crate::records::{SymRef, reference};
use glk_base::le32;
use std::marker::Model;

// Where the data have the ID of the function.
const FUNC_ID: usize = 8;
// Where they have its flag.
const FUNC_FLAG: usize = 9;
// Where they have its first line.
const START_LINE: usize = 12;
// Where they have the number of its files.
const FILE_COUNT: usize = 16;
// Where they have the numbers of the files.
const FILES: usize = 20;
// The width of a file's number.
const FILE_WIDTH: usize = 4;
// The width of a node.
const NODE_WIDTH: usize = 24;

/// A call that the compiler has inlined into a function, a node of the function's inline tree.
#[derive(Clone, Copy, Debug, PartialEq, Eq)]
pub struct InlNode {
    /// The node of the call around this one; below 0 where the function itself is around it.
    pub parent: i32,
    /// The file that has the call, by its index in the object's file block.
    pub file: u32,
    /// The line that has the call.
    pub line: i32,
    /// The function that is called.
    pub func: SymRef,
    /// The offset in the function of the instruction just before what was inlined.
    pub parent_pc: i32,
}

/// The FuncInfo of a function, read in place: the data of the symbol that its aux of type 1 names.
/// The layout is that of `cmd/internal/goobj/funcinfo.go`. Contracts see it as its bytes.
#[derive(Drop)]
pub struct FuncInfo<'a> {
    bytes: &'a [u8],
    /// Where the nodes begin.
    start: usize,
    nodes: u32,
}

impl<'a> Model for FuncInfo<'a> {
    ghost use Rattle.std.specs.Prelude.{◌≡◌, List, ℕ};
    ghost use Rattle.glk_obj.specs.FuncInfos.{IsRead};

    ghost Value = { List ℕ };

    ghost view = { λ f. f.bytes.now };

    ghost invariant = { λ f. IsRead f.bytes.now f.start f.nodes };
}

// The offset of node `k`, the nodes being at `start`.
fn node_offset(bytes: &[u8], start: usize, k: u32) -> usize
    requires whole { HoldsFuncInfo bytes.now }
    requires start { start ≡ nodes_offset bytes.now }
    requires low { start < 2 ^ 40 }
    requires index { k < node_count bytes.now }
    ensures value { result ≡ node_offset_of bytes.now k }
    ensures room { result + node_width ≤ length bytes.now }
{
    let _ = bytes;
    start + NODE_WIDTH * k as usize
}

// The node that begins here.
fn node(bytes: &[u8], at: usize) -> InlNode
    requires { at + node_width ≤ length bytes.now }
    ensures { node_view result ≡ node_from bytes.now at }
{
    InlNode {
        parent: le32(bytes, at).unwrap().cast_signed(),
        file: le32(bytes, at + 4).unwrap(),
        line: le32(bytes, at + 8).unwrap().cast_signed(),
        func: reference(bytes, at + 12),
        parent_pc: le32(bytes, at + 20).unwrap().cast_signed(),
    }
}

impl<'a> FuncInfo<'a> {
    /// The FuncInfo that these bytes begin with, or none exactly where they are shorter than the
    /// layout says. Further bytes are ignored.
    pub fn read(bytes: &'a [u8]) -> Option<FuncInfo<'a>>
        ensures { SomeIff result (HoldsFuncInfo bytes.now) bytes.now }
    {
        let files = le32(bytes, FILE_COUNT)?;
        let at = FILES + FILE_WIDTH * files as usize;
        let nodes = le32(bytes, at)?;
        let start = at + 4;
        if bytes.len() < start + NODE_WIDTH * nodes as usize {
            return None;
        }
        Some(FuncInfo {
            bytes,
            start,
            nodes,
        })
    }

    /// The size of the arguments in bytes.
    pub fn args(&self) -> u32
        ensures { result ≡ args self.now }
    {
        le32(self.bytes, 0).unwrap()
    }

    /// The number by which the runtime knows a function of its own; 0 for others.
    pub fn func_id(&self) -> u8
        ensures { result ≡ func_id self.now }
    {
        self.bytes[FUNC_ID]
    }

    /// The flags that the runtime reads.
    pub fn func_flag(&self) -> u8
        ensures { result ≡ func_flag self.now }
    {
        self.bytes[FUNC_FLAG]
    }

    /// The line on which the function begins.
    pub fn start_line(&self) -> i32
        ensures { result ≡ start_line self.now }
    {
        le32(self.bytes, START_LINE).unwrap().cast_signed()
    }

    /// How many nodes the inline tree has.
    pub fn nodes(&self) -> u32
        ensures { result ≡ node_count self.now }
    {
        self.nodes
    }

    /// Node `k` of the inline tree.
    pub fn node(&self, k: u32) -> InlNode
        requires { k < node_count self.now }
        ensures { node_view result ≡ node_at self.now k }
    {
        node(self.bytes, node_offset(self.bytes, self.start, k))
    }
}
