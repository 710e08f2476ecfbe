// Laws of the spellings.
ghost use Rattle.std.specs.Prelude.{◌≡◌, Ok};
ghost use Rattle.glk_objdesc.specs.Printable.{IsPrintable};
ghost use Rattle.glk_objtext.specs.Laws.{NumbersReadBack, SignedReadBack, OctetsReadBack, ReferencesReadBack, StringsReadBack, TextsReadBack};
ghost use Rattle.glk_objtext.specs.FormLaws.{BadLinesAreThose, CanonicalTextsSpell, DescriptionsAreThose, FieldsAreThose, NumbersAreThose, SignedAreThose, OctetsAreThose, SizedAreThose, ReferencesAreThose, StringsAreThose};
ghost use Rattle.glk_objtext.specs.Reading.{read_text};
ghost use Rattle.glk_objtext.specs.Text.{text_of};

use crate::bytes::see_bytes;
use glk_objdesc::{ObjDesc, see_types};

/// The canonical spelling of a number, a number with a sign, bytes, a reference, or a string
/// without a zero byte reads as what it was written of. The function does nothing; its clauses are
/// the law.
pub fn spellings_read_back()
    ensures numbers { NumbersReadBack }
    ensures signed_numbers { SignedReadBack }
    ensures octets { OctetsReadBack }
    ensures references { ReferencesReadBack }
    ensures strings { StringsReadBack }
{}

/// The canonical text of a printable description reads as the description, whichever it is: its
/// numbers are within their types and its strings of bytes, as those of each value are. The
/// function does nothing; its clause is the law.
pub fn text_reads_back()
    ensures { TextsReadBack }
{}

/// The same of a description at hand, of which it is known only that it is printable. The call
/// changes nothing, and takes one pass over the description, by which a proof sees that its
/// numbers are within their types and its strings of bytes.
pub fn printed_is_read(d: &ObjDesc)
    requires printable { IsPrintable d.now }
    ensures { read_text (text_of d.now) ≡ Ok d.now }
{
    see_types(d);
    see_bytes(d);
}

/// A line is cut into the fields that the text form gives it, and a field reads as what it spells by
/// that form, and as nothing else. The function does nothing; its clauses are the law.
pub fn fields_are_spelled()
    ensures fields { FieldsAreThose }
    ensures numbers { NumbersAreThose }
    ensures signed_numbers { SignedAreThose }
    ensures octets { OctetsAreThose }
    ensures sized { SizedAreThose }
    ensures references { ReferencesAreThose }
    ensures strings { StringsAreThose }
{}

/// A text reads as the description that it spells by the text form, and as nothing else; it is refused
/// for the first line that breaks a rule of that form, with the least rule that it breaks, and for
/// nothing else. The canonical text of a printable description spells it. The function does nothing;
/// its clauses are the law.
pub fn texts_are_spelled()
    ensures descriptions { DescriptionsAreThose }
    ensures refusals { BadLinesAreThose }
    ensures canonical { CanonicalTextsSpell }
{}
