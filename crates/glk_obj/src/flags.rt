// What the flags in the records of symbols say.
ghost use Rattle.std.specs.Prelude.{◌≡◌};
ghost use Rattle.glk_obj.specs.Flags.{is_dupok, is_local, is_typelink, is_leaf, is_nosplit, is_reflectmethod, is_gotype, is_used_in_iface, is_itab, is_dict, is_pkginit, marks_used_in_iface};
ghost use Rattle.glk_obj.specs.Views.{symbol_view, ref_flags_view};

use crate::records::{RefFlagsRec, SymRec};

// The bits of the first flag byte.
const DUPOK: u8 = 1 << 0;

const LOCAL: u8 = 1 << 1;

const TYPELINK: u8 = 1 << 2;

const LEAF: u8 = 1 << 3;

const NOSPLIT: u8 = 1 << 4;

const REFLECTMETHOD: u8 = 1 << 5;

const GOTYPE: u8 = 1 << 6;

// The bits of the second flag byte.
const USED_IN_IFACE: u8 = 1 << 0;

const ITAB: u8 = 1 << 1;

const DICT: u8 = 1 << 2;

const PKGINIT: u8 = 1 << 3;

impl<'a> SymRec<'a> {
    /// Whether other definitions of its key may be there, of which one is chosen.
    pub fn is_dupok(&self) -> bool
        ensures { result ≡ is_dupok (symbol_view self.now) }
    {
        self.flag & DUPOK != 0
    }

    /// Whether only its own object refers to it.
    pub fn is_local(&self) -> bool
        ensures { result ≡ is_local (symbol_view self.now) }
    {
        self.flag & LOCAL != 0
    }

    /// Whether it is a type that is listed in the image.
    pub fn is_typelink(&self) -> bool
        ensures { result ≡ is_typelink (symbol_view self.now) }
    {
        self.flag & TYPELINK != 0
    }

    /// Whether it is a function that calls none.
    pub fn is_leaf(&self) -> bool
        ensures { result ≡ is_leaf (symbol_view self.now) }
    {
        self.flag & LEAF != 0
    }

    /// Whether it is a function that does not grow the stack.
    pub fn is_nosplit(&self) -> bool
        ensures { result ≡ is_nosplit (symbol_view self.now) }
    {
        self.flag & NOSPLIT != 0
    }

    /// Whether it is a function that calls methods by reflection.
    pub fn is_reflectmethod(&self) -> bool
        ensures { result ≡ is_reflectmethod (symbol_view self.now) }
    {
        self.flag & REFLECTMETHOD != 0
    }

    /// Whether its data are a Go type.
    pub fn is_gotype(&self) -> bool
        ensures { result ≡ is_gotype (symbol_view self.now) }
    {
        self.flag & GOTYPE != 0
    }

    /// Whether it is a type that is turned into an interface.
    pub fn is_used_in_iface(&self) -> bool
        ensures { result ≡ is_used_in_iface (symbol_view self.now) }
    {
        self.flag2 & USED_IN_IFACE != 0
    }

    /// Whether it is a table of an interface's methods.
    pub fn is_itab(&self) -> bool
        ensures { result ≡ is_itab (symbol_view self.now) }
    {
        self.flag2 & ITAB != 0
    }

    /// Whether it is a dictionary of a generic function.
    pub fn is_dict(&self) -> bool
        ensures { result ≡ is_dict (symbol_view self.now) }
    {
        self.flag2 & DICT != 0
    }

    /// Whether it is a package's initialization.
    pub fn is_pkginit(&self) -> bool
        ensures { result ≡ is_pkginit (symbol_view self.now) }
    {
        self.flag2 & PKGINIT != 0
    }
}

impl RefFlagsRec {
    /// Whether the symbol of the other package is a type that is turned into an interface.
    pub fn is_used_in_iface(&self) -> bool
        ensures { result ≡ marks_used_in_iface (ref_flags_view self.now) }
    {
        self.flag2 & USED_IN_IFACE != 0
    }
}
