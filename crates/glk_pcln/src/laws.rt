// What holds of the pieces: laws that are proved with these functions and cost nothing when they run.
ghost use Rattle.glk_pcln.specs.Laws.{PiecesReadBack, PiecesTold};

use glk_frames::frames_read_back;

/// Each function is read back from the section and from any memory that has the inline trees and
/// findfunctab: its frames with files and lines, its depths of the stack, and where it is.
pub fn pieces_read_back()
    ensures { PiecesReadBack }
{
    frames_read_back();
}

/// Module data tell where the section, findfunctab and the base of funcdata are.
pub fn pieces_told()
    ensures { PiecesTold }
{}
