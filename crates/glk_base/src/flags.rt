// Words of a command line, read as Go's `flag` package reads them.
ghost use Rattle.std.specs.Prelude.{◌≡◌, MatchOption, Some, None};
ghost use Rattle.glk_base.specs.Flags.{Flagged, after_dash as behind_dash, named_flag as named_by, flag_with as flag_behind, flag_of, flag_view};

/// What a word of a command line is.
#[derive(Clone, Copy, Debug, PartialEq, Eq)]
pub enum FlagWord<'a> {
    /// No flag: it does not begin with a dash, or is `-` alone. It ends the flags.
    Plain,
    /// `--`, which ends the flags.
    End,
    /// Like a flag, but what follows its dashes is no name, as in `---f` and `-=x`.
    BadSyntax,
    /// A flag, with one dash or two: its name, and its value where it is `-name=value`.
    Flag {
        name: &'a str,
        value: Option<&'a str>,
    },
}

/// What a word is, as `parseOne` of Go's `flag` package reads it. A flag's value may also be the
/// word after it: whether it takes one, its command knows.
#[tactic(auto, unfolding(crate::specs::Flags::flag_of))]
pub fn split_flag(word: &str) -> FlagWord<'_>
    ensures { flag_view result ≡ flag_of word.now }
{
    let rest = match after_dash(word) {
        Some(rest) => rest,
        None => return FlagWord::Plain,
    };
    if rest.is_empty() {
        return FlagWord::Plain;
    }
    match after_dash(rest) {
        Some(body) => {
            if body.is_empty() {
                return FlagWord::End;
            }
            flag_with(body)
        }
        None => flag_with(rest),
    }
}

// What follows a dash, where the text begins with one.
#[tactic(auto, unfolding(crate::specs::Flags::after_dash))]
fn after_dash(text: &str) -> Option<&str>
    ensures { MatchOption result (behind_dash text.now ≡ None)
        (λ rest. behind_dash text.now ≡ Some rest.now) }
{
    text.strip_prefix('-')
}

// The flag that follows the dashes.
#[tactic(auto, unfolding(crate::specs::Flags::flag_with))]
fn flag_with(body: &str) -> FlagWord<'_>
    ensures { flag_view result ≡ flag_behind body.now }
{
    if body.is_empty() || body.starts_with('-') || body.starts_with('=') {
        return FlagWord::BadSyntax;
    }
    named_flag(body)
}

// A name, with a value after its first equals sign.
#[tactic(auto, unfolding(crate::specs::Flags::named_flag))]
fn named_flag(body: &str) -> FlagWord<'_>
    ensures { flag_view result ≡ named_by body.now }
{
    match body.split_once('=') {
        Some((name, value)) => FlagWord::Flag {
            name,
            value: Some(value),
        },
        None => FlagWord::Flag {
            name: body,
            value: None,
        },
    }
}
