// The words of the variants that a message names.
ghost use Rattle.std.specs.Prelude.{◌≡◌};
ghost use Rattle.glk_messages.specs.Names.{form_text, why_text, family_letter, limit_text, table_text};

use glk_base::RuleFamily;
use glk_cause::{Form, Limit, Table};
use glk_words::Why;

// A form that golink does not handle yet.
#[tactic(auto, unfolding(crate::specs::Names::form_text))]
pub(crate) fn form_name(form: Form) -> &'static [u8]
    ensures { result.now ≡ form_text form }
{
    match form {
        Form::Command => b"command",
        Form::Flag => b"flag",
        Form::Size => b"size",
        Form::Object => b"object",
        Form::Symbol => b"symbol",
    }
}

// The letter of a family of rules.
#[tactic(auto, unfolding(crate::specs::Names::family_letter))]
pub(crate) fn letter(family: RuleFamily) -> &'static [u8]
    ensures { result.now ≡ family_letter family }
{
    match family {
        RuleFamily::Archive => b"A",
        RuleFamily::Object => b"V",
    }
}

// What is wrong with a word.
#[tactic(auto, unfolding(crate::specs::Names::why_text))]
pub(crate) fn why_name(why: Why) -> &'static [u8]
    ensures { result.now ≡ why_text why }
{
    match why {
        Why::NoCommand => b"no command",
        Why::UnknownCommand => b"unknown command",
        Why::UnknownFlag => b"unknown flag",
        Why::BadSyntax => b"bad flag syntax",
        Why::MissingValue => b"missing value",
        Why::BadValue => b"bad value",
        Why::MissingFile => b"missing file",
        Why::ExtraWord => b"extra word",
    }
}

// What there is too much of.
#[tactic(auto, unfolding(crate::specs::Names::limit_text))]
pub(crate) fn limit_name(limit: Limit) -> &'static [u8]
    ensures { result.now ≡ limit_text limit }
{
    match limit {
        Limit::Packages => b"packages",
        Limit::Rows => b"rows",
        Limit::File => b"file",
        Limit::Address => b"address",
        Limit::Names => b"names",
    }
}

// A table of a function, in small letters.
#[tactic(auto, unfolding(crate::specs::Names::table_text))]
pub(crate) fn table_name(table: Table) -> &'static [u8]
    ensures { result.now ≡ table_text table }
{
    match table {
        Table::Info => b"info",
        Table::Pcsp => b"pcsp",
        Table::Pcfile => b"pcfile",
        Table::Pcline => b"pcline",
        Table::Pcinline => b"pcinline",
        Table::Pcdata => b"pcdata",
        Table::Funcdata => b"funcdata",
        Table::Tree => b"tree",
    }
}
