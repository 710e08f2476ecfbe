// The numbers of packages that mean no entry of PkgIdx, as `cmd/internal/goobj` has them.

/// The package of a reference to nothing.
pub const NIL_PACKAGE: u32 = 0;
/// The package of symbols without one: those of Nonpkgdef and Nonpkgref.
pub const NONE_PACKAGE: u32 = 0x7fff_ffff;
/// The package of the symbols of Hashed64def.
pub const HASHED64_PACKAGE: u32 = 0x7fff_fffe;
/// The package of the symbols of Hasheddef.
pub const HASHED_PACKAGE: u32 = 0x7fff_fffd;
/// The package of the symbols that every linker knows.
pub const BUILTIN_PACKAGE: u32 = 0x7fff_fffc;
/// The object's own package: the symbols of Symdef.
pub const SELF_PACKAGE: u32 = 0x7fff_fffb;
