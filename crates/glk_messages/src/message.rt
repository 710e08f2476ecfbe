// The message of an outcome.
ghost use Rattle.glk_messages.specs.Lines.{line_of, ReportsLine};
ghost use Rattle.glk_messages.specs.Messages.{refusal_text, overflow_text, undefined_text, text_of, Reports};

use crate::names::{form_name, letter, limit_name, table_name, why_name};
use crate::outcome::Outcome;
use crate::pieces::Piece::{Byte, Count, Fingerprint, Name, Number, Signed, Words};
use crate::pieces::write_line;
use glk_base::Text;
use glk_cause::Cause;
use glk_io::Sink;

/// Writes the message of an outcome, or a prefix of it where the sink fails. It takes no memory.
#[tactic(auto, unfolding(crate::specs::Messages::text_of))]
pub fn report<S: Sink>(sink: &mut S, outcome: &Outcome)
    ensures { Reports (S.state sink.old) (S.state sink.new) outcome.now }
{
    match outcome {
        Outcome::Done => {}
        Outcome::Refused(refusal) => write_refusal(sink, refusal),
        Outcome::Usage(bad) => write_line(
            sink,
            &[
                Words(b"word "),
                Count(bad.word),
                Words(b": "),
                Words(why_name(bad.why)),
            ],
        ),
        Outcome::OutOfMemory => write_line(sink, &[Words(b"out of memory")]),
    }
}

// Writes the line of a refusal, or a prefix of it.
#[tactic(auto, unfolding(crate::specs::Messages::refusal_text))]
fn write_refusal<'a, S: Sink>(sink: &mut S, refusal: &'a Cause)
    ensures { ReportsLine (S.state sink.old) (S.state sink.new) (line_of (refusal_text refusal.now)) }
{
    match refusal {
        Cause::NotYet { form } => {
            write_line(sink, &[Words(b"not built yet: "), Words(form_name(*form))])
        }
        Cause::ReadFault { path, .. } => { write_line(sink, &[Words(b"read fault: "), Name(path)]) }
        Cause::WriteFault { path, .. } => {
            write_line(sink, &[Words(b"write fault: "), Name(path)])
        }
        Cause::Absent { path } => { write_line(sink, &[Words(b"no such file: "), Name(path)]) }
        Cause::FileTooLong { path, limit } => write_line(
            sink,
            &[Name(path), Words(b": longer than "), Number(*limit)],
        ),
        Cause::ConfigBad { path, line } => write_line(
            sink,
            &[Name(path), Words(b":"), Count(*line), Words(b": bad line")],
        ),
        Cause::Malformed {
            path,
            member,
            family,
            rule,
            offset,
        } => write_line(
            sink,
            &[
                Name(path),
                Words(b": member "),
                Count(*member),
                Words(b": rule "),
                Words(letter(*family)),
                Byte(*rule),
                Words(b" at "),
                Number(*offset),
            ],
        ),
        Cause::NotGoObject { path, member } => write_line(
            sink,
            &[
                Name(path),
                Words(b": member "),
                Count(*member),
                Words(b": not a Go object for linux/amd64"),
            ],
        ),
        Cause::HeaderLine {
            path,
            member,
            first,
            here,
        } => write_line(
            sink,
            &[
                Name(path),
                Words(b": member "),
                Count(*member),
                Words(b": "),
                Name(here),
                Words(b" differs from "),
                Name(first),
            ],
        ),
        Cause::Fingerprint {
            importer,
            package,
            wanted,
            found,
        } => write_line(
            sink,
            &[
                Name(importer),
                Words(b" imports "),
                Name(package),
                Words(b": fingerprint "),
                Fingerprint(*wanted),
                Words(b", found "),
                Fingerprint(*found),
            ],
        ),
        Cause::MissingPackage { importer, package } => write_line(
            sink,
            &[
                Name(importer),
                Words(b" imports "),
                Name(package),
                Words(b": not in the configuration"),
            ],
        ),
        Cause::Clash { name, packages, .. } => write_line(
            sink,
            &[
                Name(name),
                Words(b": defined twice: "),
                Name(&packages.0),
                Words(b" and "),
                Name(&packages.1),
            ],
        ),
        Cause::InitCycle { name } => { write_line(sink, &[Name(name), Words(b": init cycle")]) }
        Cause::Undefined { from, name } => write_undefined(sink, from, name),
        Cause::TypeBad { name, rule, offset } => write_line(
            sink,
            &[
                Name(name),
                Words(b": rule Y"),
                Byte(*rule),
                Words(b" at "),
                Count(*offset),
            ],
        ),
        Cause::RelocBad { name, rule, index } => write_line(
            sink,
            &[
                Name(name),
                Words(b": rule Q"),
                Byte(*rule),
                Words(b" at relocation "),
                Count(*index),
            ],
        ),
        Cause::KindBad { name, rule } => write_line(
            sink,
            &[Name(name), Words(b": rule J"), Byte(*rule)],
        ),
        Cause::TableBad { func, table, rule } => write_line(
            sink,
            &[
                Name(func),
                Words(b": "),
                Words(table_name(*table)),
                Words(b": rule P"),
                Byte(*rule),
            ],
        ),
        Cause::TooLarge { limit, number } => write_line(
            sink,
            &[
                Words(b"too large: "),
                Words(limit_name(*limit)),
                Words(b" "),
                Number(*number),
            ],
        ),
        Cause::Overflow {
            name,
            offset,
            value,
        } => write_overflow(sink, name, *offset, value),
        Cause::ElfBad { path, rule, offset } => write_line(
            sink,
            &[
                Name(path),
                Words(b": rule E"),
                Byte(*rule),
                Words(b" at "),
                Number(*offset),
            ],
        ),
        Cause::TextBad { path, line, rule } => write_line(
            sink,
            &[
                Name(path),
                Words(b":"),
                Count(*line),
                Words(b": rule X"),
                Byte(*rule),
            ],
        ),
        Cause::TooBig { path, number } => write_line(
            sink,
            &[Name(path), Words(b": too big: "), Number(*number)],
        ),
    }
}

// Writes that the value of a field does not fit it.
#[tactic(auto, unfolding(crate::specs::Messages::overflow_text))]
fn write_overflow<'a, S: Sink>(sink: &mut S, name: &'a Text, offset: u32, value: &'a i128)
    ensures { ReportsLine (S.state sink.old) (S.state sink.new)
        (line_of (overflow_text name.now offset value.now)) }
{
    write_line(
        sink,
        &[
            Name(name),
            Words(b"+"),
            Count(offset),
            Words(b": value "),
            Signed(value),
            Words(b" does not fit"),
        ],
    )
}

// Writes that a symbol has no definition.
#[tactic(auto, unfolding(crate::specs::Messages::undefined_text))]
fn write_undefined<'a, S: Sink>(sink: &mut S, from: &'a Text, name: &'a Text)
    ensures { ReportsLine (S.state sink.old) (S.state sink.new) (line_of (undefined_text from.now name.now)) }
{
    if from.as_bytes().is_empty() {
        return write_line(sink, &[Words(b"undefined: "), Name(name)]);
    }
    write_line(sink, &[Name(from), Words(b": undefined: "), Name(name)])
}
