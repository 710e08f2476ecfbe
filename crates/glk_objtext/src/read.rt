// Reading a text.
ghost use Rattle.std.specs.Prelude.{◌≡◌, ℕ, List, [], OnOk, IfOk, IfErr};
ghost use Rattle.glk_objtext.specs.Answers.{Gives};
ghost use Rattle.glk_objtext.specs.Grammar.{line_at};
ghost use Rattle.glk_objtext.specs.Reading.{read_lines, read_text};
ghost use Rattle.glk_objtext.specs.Rules.{IsRefusalOf};
ghost use Rattle.glk_objtext.specs.Spelled.{Spells};
ghost use Rattle.glk_objtext.specs.Building.{answer_with, ReadsOn, IsRefusedLine};

use crate::builder::Builder;
use crate::fields::{count_fields, nth_field};
use crate::line::Line;
use crate::rules::{FIELD_COUNT, HASH_LENGTH, MISPLACED_OBJECT, MISPLACED_PART, OUT_OF_ORDER};
use crate::stage::Stage;
use crate::values::read_value;
use crate::words::Word;
use glk_base::Fault;
use glk_base::lines::{cut_line, is_skipped, trim};
use glk_objdesc::ObjDesc;
use std::alloc::Global;

/// The first bad line of a text, and the least rule that it breaks.
#[derive(Clone, Copy, Debug, PartialEq, Eq)]
pub struct TextBad {
    /// The number of the line, from 1; a number past 2^32 - 1 is given as 2^32 - 1.
    pub line: u32,
    /// The number of the rule: 4 for X4.
    pub rule: u8,
}

// What a trimmed line says at this stage.
#[tactic(auto, unfolding(crate::specs::Grammar::line_at))]
fn read_line(alloc: Global, stage: &Stage, line: &[u8]) -> Result<Line, Fault<u8>>
    ensures { Gives (line_at stage.now line.now) result }
{
    let word = Word::read(nth_field(line, 0))?;
    if !stage.begins_well(word) {
        return Err(Fault::Bad(MISPLACED_OBJECT));
    }
    if !stage.is_ordered(word) {
        return Err(Fault::Bad(OUT_OF_ORDER));
    }
    if count_fields(line) != word.fields() {
        return Err(Fault::Bad(FIELD_COUNT));
    }
    let value = read_value(alloc, word, line)?;
    if !stage.has_room(word) {
        return Err(Fault::Bad(MISPLACED_PART));
    }
    if !stage.fits_width(&value) {
        return Err(Fault::Bad(HASH_LENGTH));
    }
    Ok(value)
}

// What the lines so far say, and how far they have come.
#[derive(Drop)]
struct Reader {
    builder: Builder,
    stage: Stage,
}

impl Reader {
    // Takes the next line, or names the least rule that it breaks.
    fn take(&mut self, alloc: Global, raw: &[u8]) -> Result<(), Fault<u8>>
        ensures ok { OnOk result
            (ReadsOn self.old.builder self.old.stage raw.now self.new.builder self.new.stage) }
        ensures bad { IfErr result (IsRefusedLine self.old.stage raw.now) }
    {
        let line = trim(raw);
        if is_skipped(line) {
            return Ok(());
        }
        let value = read_line(alloc, &self.stage, line)?;
        let stage = self.stage.after(&value);
        self.builder.add(alloc, value)?;
        self.stage = stage;
        Ok(())
    }

    // The description, once there are no more lines.
    fn finish(self) -> Result<ObjDesc, Fault<TextBad>>
        ensures { (n : ℕ) → Gives (answer_with self.builder (read_lines n self.stage [])) result }
    {
        if !self.stage.has_begun() {
            return Err(Fault::Bad(TextBad {
                line: 1,
                rule: MISPLACED_OBJECT,
            }));
        }
        Ok(self.builder.finish()?)
    }
}

/// The description that a text spells, or its first bad line.
///
/// Lines end with a newline; the last may lack it. A line loses spaces, tabs and carriage returns
/// at both ends. Empty lines and lines that begin with `#` are skipped.
///
/// # Errors
/// `Bad` for the first bad line, with the least rule that it breaks; `OutOfMemory`.
pub fn parse(alloc: Global, text: &[u8]) -> Result<ObjDesc, Fault<TextBad>>
    ensures described { IfOk result (Spells text.now) }
    ensures refused { IfErr result (IsRefusalOf text.now) }
    ensures reads { Gives (read_text text.now) result }
{
    read_lines_of(alloc, text)
}

// The same without the words of the text form.
fn read_lines_of(alloc: Global, text: &[u8]) -> Result<ObjDesc, Fault<TextBad>>
    ensures { Gives (read_text text.now) result }
{
    let mut reader = Reader {
        builder: Builder::new(alloc),
        stage: Stage::start(),
    };
    let mut rest = Some(text);
    let mut line = 1u32;
    while let Some(left) = rest {
        let (raw, after) = cut_line(left);
        match reader.take(alloc, raw) {
            Ok(()) => {}
            Err(Fault::Bad(rule)) => return Err(Fault::Bad(TextBad { line, rule })),
            Err(Fault::OutOfMemory) => return Err(Fault::OutOfMemory),
        }
        line = line.saturating_add(1);
        rest = after;
    }
    reader.finish()
}
