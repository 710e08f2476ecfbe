// What holds of all images: laws of the definitions, which are proved with these functions and cost
// nothing when they run.
ghost use Rattle.glk_elf.specs.SectionBytes.{SectionsInFile, SectionsPatched, MemoryWithin};
ghost use Rattle.glk_elf.specs.ReaderLaw.{ImagesReadBack};

/// The image of any parts, where they are placed and their numbers fit their fields, breaks no rule
/// of the reader; its eleven sections with addresses are found by their names, and by their numbers,
/// with the addresses, sizes and bytes of the parts, those in the file are in memory at their
/// addresses, and its symbols are the rows of the parts. By their numbers the three tables are found
/// after the sections, the empty section 0 before them, and no others.
pub fn images_read_back()
    ensures { ImagesReadBack }
{}

/// In an image each section from `.text` to `.data` is at its address less the base.
pub fn sections_in_file()
    ensures { SectionsInFile }
{}

/// A file as long as an image, which differs from it within sections alone, is the image of the same
/// parts with the bytes that it has for these sections. So fields of an image may be written in
/// place, and it stays an image.
pub fn sections_patched()
    ensures { SectionsPatched }
{}

/// Any part of a section in the file is in the memory of the image at its address.
pub fn memory_within()
    ensures { MemoryWithin }
{}
