// What holds of all sections and patched images: laws of the definitions, which are proved with
// these functions and cost nothing when they run.
ghost use Rattle.glk_image.specs.Image.{IsOneImage};
ghost use Rattle.glk_image.specs.Patched.{ImagePatched};
ghost use Rattle.glk_image.specs.Laws.{SectionHoldsContents, IsOneSection};

/// An image whose fields are written in place, each within a section, is the image of the same
/// parts with each section's fields written. So it is of no matter whether the file or the fields
/// are written first.
pub fn image_patched()
    ensures { ImagePatched }
{}

/// In the bytes of a section each content is at its address, and the padding byte everywhere else.
pub fn section_holds_contents()
    ensures { SectionHoldsContents }
{}

/// Only one list of bytes has these contents at their addresses and padding everywhere else.
pub fn one_section()
    ensures { IsOneSection }
{}

/// There is one image with a frame, contents and fields.
pub fn one_image()
    ensures { IsOneImage }
{}
