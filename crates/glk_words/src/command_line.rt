// What a list of words asks for.
ghost use Rattle.std.specs.Prelude.{◌≡◌, ◌≤◌, ◌<◌, ◌↔◌, [], IfOk, IfErr, OnOk, length, get_or, Ok, Some, string_bytes, IsTrue, true};
ghost use Rattle.std.specs.Option.{option_map};
ghost use Rattle.glk_words.specs.declared.commands.Flag.TheVariants as flag;
ghost use Rattle.glk_words.specs.Commands.{is_truth, accepts, default_workers};
ghost use Rattle.glk_words.specs.Values.{truth_of, number_of, worker_limit};
ghost use Rattle.glk_words.specs.CommandLine.{usage, command_line_of, settings_of, command_line_view, Has, IsValue, IsValueOf, IsTruth, IsNumber, IsPath, AreAccepted, HasAccepted, Fails};
ghost use Rattle.glk_words.specs.Steps.{after_command, after_value, after_flag, after_flags, Asks, AddsValue, ReadsFlag, Stops};
ghost use Rattle.glk_words.specs.Words.{texts_of};

use crate::commands::{Command, Flag};
use crate::usage::{UsageBad, Why};
use crate::values::{number, truth};
use glk_base::{Fault, FlagWord, OutOfMemory, split_flag};
use std::alloc::{AllocError, Global};

// How many threads work at once where no flag says.
const DEFAULT_WORKERS: u32 = 4;

// The value of a truth flag that has none.
const TRUE: &str = "true";

/// A flag of a command line, with its value.
#[derive(Clone, Copy, Debug)]
pub struct FlagSetting<'a> {
    pub flag: Flag,
    pub value: &'a str,
}

/// A command with its flags and its file.
#[derive(Debug, Drop)]
pub struct Invocation<'a> {
    pub command: Command,
    /// In the order of the words; of two settings of a flag the last counts.
    pub settings: Vec<FlagSetting<'a>>,
    /// The file that it works on, or nothing where it takes none.
    pub file: &'a str,
}

/// What a command line asks for.
#[derive(Debug, Drop)]
pub enum CommandLine<'a> {
    /// The help text.
    Help,
    /// The name of this version.
    Version,
    /// A command.
    Invocation(Invocation<'a>),
}

// A faulty word.
fn fault(index: usize, why: Why) -> UsageBad
    ensures { result ≡ usage index why }
{
    let word = if index < u32::MAX as usize {
        index as u32
    } else {
        u32::MAX
    };
    UsageBad { word, why }
}

// The word at an index.
fn word_at(words: &[String], index: usize) -> &str
    requires { index < length words.now }
    ensures { result.now ≡ get_or (texts_of words.now) index [] }
{
    words[index].as_str()
}

/// What the words after the program's name ask for.
///
/// # Errors
/// The first fault in the words, which are judged from left to right, or out of memory.
pub fn parse_command_line(
    alloc: Global,
    words: &[String],
) -> Result<CommandLine<'_>, Fault<UsageBad>>
    ensures line { IfOk result (λ line. command_line_of (texts_of words.now) ≡ Ok (command_line_view line)) }
    ensures accepted { IfOk result HasAccepted }
    ensures fault { IfErr result (Fails (command_line_of (texts_of words.now))) }
{
    match parse_command_line_body(alloc, words) {
        Ok(line) => Ok(line),
        Err(fault) => Err(fault),
    }
}

// The same without what follows of the values.
#[tactic(auto, unfolding(crate::specs::CommandLine::command_line_of))]
fn parse_command_line_body(
    alloc: Global,
    words: &[String],
) -> Result<CommandLine<'_>, Fault<UsageBad>>
    ensures line { IfOk result (λ line. command_line_of (texts_of words.now) ≡ Ok (command_line_view line)) }
    ensures fault { IfErr result (Fails (command_line_of (texts_of words.now))) }
{
    if words.is_empty() {
        return Err(Fault::Bad(fault(0, Why::NoCommand)));
    }
    let name = word_at(words, 0);
    if name == "--help" {
        return Ok(CommandLine::Help);
    }
    if name == "--version" {
        return Ok(CommandLine::Version);
    }
    let command = match Command::named(name) {
        Some(command) => command,
        None => return Err(Fault::Bad(fault(0, Why::UnknownCommand))),
    };
    Ok(CommandLine::Invocation(parse_flags(alloc, command, words)?))
}

// What the words after a command's name ask of it.
fn parse_flags<'a>(
    alloc: Global,
    command: Command,
    words: &'a [String],
) -> Result<Invocation<'a>, Fault<UsageBad>>
    requires { 0 < length words.now }
    ensures asked { IfOk result (Asks (after_command command words.now)) }
    ensures fault { IfErr result (Fails (after_command command words.now)) }
{
    let mut settings = Vec::new(alloc);
    let mut pending: Option<Flag> = None;
    for index in 1..words.len() {
        let word = word_at(words, index);
        match pending {
            Some(flag) => match push_setting(&mut settings, flag, index, word) {
                Ok(()) => pending = None,
                Err(fault) => return Err(fault),
            },
            None => match split_flag(word) {
                FlagWord::Plain => return operands(command, settings, words, index),
                FlagWord::End => return operands(command, settings, words, index + 1),
                FlagWord::BadSyntax => {
                    return Err(Fault::Bad(fault(index, Why::BadSyntax)));
                }
                FlagWord::Flag { name, value } => {
                    match parse_flag(&mut settings, command, index, name, value) {
                        Ok(flag) => pending = flag,
                        Err(fault) => return Err(fault),
                    }
                }
            },
        }
    }
    match pending {
        Some(_) => Err(Fault::Bad(fault(words.len(), Why::MissingValue))),
        None => operands(command, settings, words, words.len()),
    }
}

// A word that is the value of a flag.
#[tactic(auto, unfolding(crate::specs::CommandLine::with_value))]
fn push_setting<'a>(
    settings: &mut Vec<FlagSetting<'a>>,
    flag: Flag,
    index: usize,
    value: &'a str,
) -> Result<(), Fault<UsageBad>>
    ensures on { OnOk result (AddsValue flag settings.old.items settings.new.items index value.now) }
    ensures fault { IfErr result (Stops (after_value flag settings.old.items index value.now)) }
{
    if !flag.accepts(value) {
        return Err(Fault::Bad(fault(index, Why::BadValue)));
    }
    settings.push(FlagSetting { flag, value })?;
    Ok(())
}

// A word that is a flag; the answer is that flag where the next word is its value.
fn parse_flag<'a>(
    settings: &mut Vec<FlagSetting<'a>>,
    command: Command,
    index: usize,
    name: &str,
    value: Option<&'a str>,
) -> Result<Option<Flag>, Fault<UsageBad>>
    ensures on { IfOk result
        (ReadsFlag command settings.old.items settings.new.items index name.now value.entry) }
    ensures fault { IfErr result (Stops (after_flag command settings.old.items index name.now value.entry)) }
{
    let flag = match command.flag(name) {
        Some(flag) => flag,
        None => return Err(Fault::Bad(fault(index, Why::UnknownFlag))),
    };
    match value {
        Some(value) => {
            push_setting(settings, flag, index, value)?;
            Ok(None)
        }
        None => {
            if !flag.is_truth() {
                return Ok(Some(flag));
            }
            push_setting(settings, flag, index, TRUE)?;
            Ok(None)
        }
    }
}

// The words after the flags, from an index on.
#[tactic(auto, unfolding(crate::specs::CommandLine::operands))]
fn operands<'a>(
    command: Command,
    settings: Vec<FlagSetting<'a>>,
    words: &'a [String],
    index: usize,
) -> Result<Invocation<'a>, Fault<UsageBad>>
    requires { index ≤ length words.now }
    ensures asked { IfOk result (Asks (after_flags command settings.entry.items index words.now)) }
    ensures fault { IfErr result (Fails (after_flags command settings.entry.items index words.now)) }
{
    if !command.takes_file() {
        if index < words.len() {
            return Err(Fault::Bad(fault(index, Why::ExtraWord)));
        }
        return Ok(Invocation {
            command,
            settings,
            file: "",
        });
    }
    if index == words.len() {
        return Err(Fault::Bad(fault(index, Why::MissingFile)));
    }
    if words.len() - index > 1 {
        return Err(Fault::Bad(fault(index + 1, Why::ExtraWord)));
    }
    Ok(Invocation {
        command,
        settings,
        file: word_at(words, index),
    })
}

// The truth value of a truth flag's value.
fn truth_in(flag: Flag, value: &str) -> bool
    requires truth { is_truth flag ≡ true }
    requires accepted { accepts flag value.now ≡ true }
    ensures { truth_of value.now ≡ Some result }
{
    let _ = flag;
    match truth(value) {
        Some(is) => is,
        None => unreachable!(),
    }
}

// The number of threads of an accepted value.
#[tactic(auto, unfolding(crate::specs::Commands::accepts))]
fn workers_in(value: &str) -> u32
    requires { accepts flag.Workers value.now ≡ true }
    ensures value { number_of value.now ≡ Some result }
    ensures range { (1 ≤ result) × (result ≤ worker_limit) }
{
    match number(value) {
        Some(n) => n as u32,
        None => unreachable!(),
    }
}

impl<'a> Invocation<'a> {
    /// The value of a flag, which is that of its last setting.
    pub fn value(&self, flag: Flag) -> Option<&'a str>
        ensures { IsValueOf (settings_of self.now) flag result }
    {
        let mut last = None;
        for setting in &self.settings {
            if setting.flag == flag {
                last = Some(setting.value);
            }
        }
        last
    }

    /// The value of a flag, or another where the flag is not set.
    ///
    /// # Errors
    /// Out of memory.
    pub fn value_or(&self, alloc: Global, flag: Flag, default: &str) -> Result<String, AllocError>
        ensures { IfOk result (λ text. IsValue (settings_of self.now) flag default.now (string_bytes text)) }
    {
        match self.value(flag) {
            Some(value) => String::from_str(alloc, value),
            None => String::from_str(alloc, default),
        }
    }

    /// The path that is a flag's value, where the flag is set.
    ///
    /// # Errors
    /// Out of memory.
    pub fn path(&self, alloc: Global, flag: Flag) -> Result<Option<String>, AllocError>
        ensures { IfOk result (λ path. IsPath (settings_of self.now) flag (option_map string_bytes path)) }
    {
        match self.value(flag) {
            Some(value) => Ok(Some(String::from_str(alloc, value)?)),
            None => Ok(None),
        }
    }

    /// The truth value of a truth flag, which is false where the flag is not set.
    pub fn is_set(&self, flag: Flag) -> bool
        requires accepted { AreAccepted (settings_of self.now) }
        requires truth { is_truth flag ≡ true }
        ensures { IsTruth (settings_of self.now) flag result }
    {
        match self.value(flag) {
            Some(value) => truth_in(flag, value),
            None => false,
        }
    }

    /// How many threads may work at once, from 1 to 64.
    pub fn workers(&self) -> u32
        requires { AreAccepted (settings_of self.now) }
        ensures value { IsNumber (settings_of self.now) flag.Workers default_workers result }
        ensures range { (1 ≤ result) × (result ≤ worker_limit) }
    {
        match self.value(Flag::Workers) {
            Some(value) => workers_in(value),
            None => DEFAULT_WORKERS,
        }
    }

    /// Whether a flag is set, to whatever value.
    pub fn has(&self, flag: Flag) -> bool
        ensures { IsTrue result ↔ Has (settings_of self.now) flag }
    {
        match self.value(flag) {
            Some(_) => true,
            None => false,
        }
    }
}
