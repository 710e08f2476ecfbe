// What holds of the definitions: laws that are proved with these functions and cost nothing when
// they run.
ghost use Rattle.glk_frames.specs.Laws.{FramesReadBack, BucketsFind, PartsFit};

use glk_pcval::tables_end_themselves;

/// A function that an image holds whole is read back from it: its frames and its depth, at every
/// offset.
pub fn frames_read_back()
    ensures { FramesReadBack }
{
    tables_end_themselves();
}

/// The function that is found by buckets is the one that the search of all functions finds.
pub fn bucket_finds()
    ensures { BucketsFind }
{}

/// A part of a bucket fits its byte: it is at most 240.
pub fn parts_fit()
    ensures { PartsFit }
{}
