//! Where the parts of type data are, as Go's `internal/abi` lays them out on 64 bits. Each offset is
//! counted in bytes from the start of its own part; names are Go's.

/// `Type.TFlag`: bits that say more of the type.
pub const TYPE_TFLAG: u32 = 20;
/// `Type.Kind_`: the kind in the low five bits.
pub const TYPE_KIND: u32 = 23;
/// `Type.Str`: the reference to the type's string.
pub const TYPE_STR: u32 = 40;
/// The length of `Type`.
pub const TYPE_BYTES: u32 = 48;

/// What `ArrayType` has after `Type`: Elem, Slice, Len.
pub const ARRAY_BYTES: u32 = 24;
/// What `ChanType` has after `Type`: Elem, Dir.
pub const CHAN_BYTES: u32 = 16;
/// What `FuncType` has after `Type`: InCount, OutCount, and room up to a multiple of 8.
pub const FUNC_BYTES: u32 = 8;
/// What `MapType` has after `Type`: Key, Elem, Bucket, Hasher, KeySize, ValueSize, BucketSize, Flags.
pub const MAP_BYTES: u32 = 40;
/// What `PtrType` has after `Type`: Elem.
pub const POINTER_BYTES: u32 = 8;
/// What `SliceType` has after `Type`: Elem.
pub const SLICE_BYTES: u32 = 8;
/// What `StructType` has after `Type`: PkgPath, Fields.
pub const STRUCT_BYTES: u32 = 32;

/// `UncommonType.Mcount`: the number of methods, two bytes.
pub const UNCOMMON_MCOUNT: u32 = 4;
/// `UncommonType.Moff`: how far from the part's start the methods are, four bytes.
pub const UNCOMMON_MOFF: u32 = 8;
/// The length of `UncommonType`.
pub const UNCOMMON_BYTES: u32 = 16;

/// `Method.Name`: the reference to the method's name.
pub const METHOD_NAME: u32 = 0;
/// `Method.Mtyp`: the method's type, without its receiver.
pub const METHOD_MTYP: u32 = 4;
/// `Method.Ifn`: the code for calls through an interface.
pub const METHOD_IFN: u32 = 8;
/// `Method.Tfn`: the code for other calls.
pub const METHOD_TFN: u32 = 12;
/// The length of `Method`.
pub const METHOD_BYTES: u32 = 16;

/// `Imethod.Name`: the reference to the name of an interface's method.
pub const IMETHOD_NAME: u32 = 0;
/// `Imethod.Typ`: the reference to its type.
pub const IMETHOD_TYP: u32 = 4;
/// The length of `Imethod`.
pub const IMETHOD_BYTES: u32 = 8;

/// `ITab.Type`: the reference to the type of an interface table.
pub const ITAB_TYP: u32 = 8;

/// `TFlagUncommon`: an uncommon part follows.
pub const TFLAG_UNCOMMON: u8 = 1 << 0;
/// `TFlagExtraStar`: the first byte of the string is a star that is not the type's.
pub const TFLAG_EXTRA_STAR: u8 = 1 << 1;

/// `KindMask`: the bits of `Kind_` that hold the kind.
pub const KIND_MASK: u8 = (1 << 5) - 1;

pub const KIND_ARRAY: u8 = 17;

pub const KIND_CHAN: u8 = 18;

pub const KIND_FUNC: u8 = 19;

pub const KIND_INTERFACE: u8 = 20;

pub const KIND_MAP: u8 = 21;

pub const KIND_POINTER: u8 = 22;

pub const KIND_SLICE: u8 = 23;

pub const KIND_STRING: u8 = 24;

pub const KIND_STRUCT: u8 = 25;
