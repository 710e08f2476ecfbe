// Numbers of objects, rows and keys.

/// The number of an object of a link, in load order from 0.
#[derive(Clone, Copy, Debug, PartialEq, Eq, PartialOrd, Ord)]
pub struct ObjId(pub u32);

/// The load position of a row: a definition or a reference of an object, objects in order and in
/// each its local indices in order.
#[derive(Clone, Copy, Debug, PartialEq, Eq, PartialOrd, Ord)]
pub struct SymId(pub u32);

/// A symbol: the least load position among the rows that mean it.
#[derive(Clone, Copy, Debug, PartialEq, Eq, PartialOrd, Ord)]
pub struct KeyId(pub u32);
