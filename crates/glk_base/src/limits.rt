// How long files may be, and how many functions a generated world may have.

/// The greatest length in bytes of an archive, and of all package files of a link together.
pub const FILE_LIMIT: u64 = 1 << 30;

/// The greatest number of functions in a generated world.
pub const FUNCTION_LIMIT: u32 = 200_000;
