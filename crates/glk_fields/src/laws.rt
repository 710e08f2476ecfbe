// What holds of the fields of every image: a law of the definitions, which is proved with this function and
// costs nothing when it runs.
ghost use Rattle.glk_fields.specs.Laws.{AreFieldsWritable};

/// Where no relocation of a kept symbol is at fault, the fields of an image can be written: they rise, share no
/// byte, and each is within a section of the file.
pub fn fields_writable()
    ensures { AreFieldsWritable }
{}
