// What holds of all images and fields: laws of the definitions, which are proved with these
// functions and cost nothing when they run.
ghost use Rattle.glk_reloc.specs.Laws.{AreBytesSized, IsOneAnswer, IsOnePatched};
ghost use Rattle.glk_reloc.specs.Parts.{IsPartPatched, IsUnpatchedSame, IsJoinedPatched, AreChunksPatched, IsJoinedAnswer, IsEarlyAnswer};

/// Any two answers for the same fields are equal. So `patch_all` answers the same for every number
/// of workers.
pub fn one_answer()
    ensures { IsOneAnswer }
{}

/// Any two lists of bytes in which exactly the same fields were written are equal. So where
/// `patch_all` answers Ok, it leaves the same bytes for every number of workers.
pub fn one_patched()
    ensures { IsOnePatched }
{}

/// In a part of patched bytes, as a section or a symbol, exactly its own fields are written.
pub fn part_patched()
    ensures { IsPartPatched }
{}

/// Bytes without fields stay as they are.
pub fn unpatched_same()
    ensures { IsUnpatchedSame }
{}

/// Bytes patched with some fields, then with further ones, are patched with all of them.
pub fn joined_patched()
    ensures { IsJoinedPatched }
{}

/// Patching chunk after chunk is patching all fields.
pub fn chunks_patched()
    ensures { AreChunksPatched }
{}

/// The answer for two lists of fields, one after the other, is that of the first where it overflows,
/// else that of the second, its index counted from the first field of all.
pub fn joined_answer()
    ensures { IsJoinedAnswer }
{}

/// Where fields overflow, further ones after them change nothing in the answer.
pub fn early_answer()
    ensures { IsEarlyAnswer }
{}

/// The bytes of a field are as many as its size.
pub fn bytes_sized()
    ensures { AreBytesSized }
{}
