// What holds of the section and the trees: laws that are proved with these functions and cost nothing
// when they run.
ghost use Rattle.std.specs.Prelude.{◌≡◌, ◌∷◌, [], pos};
ghost use Rattle.glk_frames.specs.Object.{frames_of};
ghost use Rattle.glk_pctab.specs.Functions.{func, function};
ghost use Rattle.glk_pctab.specs.Laws.{SectionReadsBack, FunctionsFound};
ghost use Rattle.glk_pctab.specs.Sound.{IsSound, AreApart};
ghost use Rattle.glk_pctab.specs.Witness.{one_pclntab, one_call};

use glk_frames::frames_read_back;

/// The section and the inline trees have the frames and the depths of each function: they are read
/// back at every offset, wherever the trees are.
pub fn section_reads_back()
    ensures { SectionReadsBack }
{
    frames_read_back();
}

/// Each function is found in the section, by the search of all functions and by buckets in memory.
pub fn functions_found()
    ensures { FunctionsFound }
{}

/// A function with an inlined call meets what the laws ask. Inside the call two frames are shown, that
/// of the inlined function first; at the offset of the call no file and no line are known.
pub fn premises_are_met()
    ensures sound { IsSound one_pclntab }
    ensures apart { AreApart one_pclntab }
    ensures inlined { (function one_pclntab 0).inlined ≡ one_call ∷ [] }
    ensures shown { frames_of (func one_pclntab 0) (pos 3)
        ≡ record { name = 103 ∷ []; file = 97 ∷ []; line = pos 0 }
        ∷ record { name = 102 ∷ []; file = 63 ∷ []; line = pos 0 } ∷ [] }
{}
