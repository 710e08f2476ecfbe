// What holds of all layouts: laws of the definitions, which are proved with these functions and cost
// nothing when they run.
ghost use Rattle.glk_layout.specs.Laws.{BoxesAreInOrder, AreSymbolsInOrder, AreSectionsInOrder, TextEnds};

/// Boxes one after the other are each on their alignment, in order, and share no byte.
pub fn boxes_in_order()
    ensures { BoxesAreInOrder }
{}

/// The symbols of a section are each on their alignment, in load order, share no byte, and are within
/// the section.
pub fn symbols_in_order()
    ensures { AreSymbolsInOrder }
{}

/// Sections do not end before they start, and none starts before the end of the one before.
pub fn sections_in_order()
    ensures { AreSectionsInOrder }
{}

/// `.text` ends where its symbols do: what `text_end` answers is the section's end.
pub fn text_ends()
    ensures { TextEnds }
{}
