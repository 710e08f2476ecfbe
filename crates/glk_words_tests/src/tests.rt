// Command lines, and the answers that Go's `flag` package and each command's list of flags give.
use glk_base::Fault;
use glk_words::{Command, CommandLine, Flag, UsageBad, Why, parse_command_line, spellings_agree};
use std::alloc::Global;
use std::test::Fail;

// The words of a line: a space is between two.
fn words_of(alloc: Global, line: &str) -> Result<Vec<String>, Fail> {
    let mut words = Vec::new(alloc);
    if line.is_empty() {
        return Ok(words);
    }
    for word in line.split(' ') {
        words.push(String::from_str(alloc, word)?)?;
    }
    Ok(words)
}

// The first fault of a line.
fn fault_of(alloc: Global, line: &str) -> Result<Option<UsageBad>, Fail> {
    let words = words_of(alloc, line)?;
    match parse_command_line(alloc, &words) {
        Ok(_) => Ok(None),
        Err(Fault::Bad(bad)) => Ok(Some(bad)),
        Err(Fault::OutOfMemory) => Err(Fail::from("out of memory")),
    }
}

// Whether the line asks for this command with this value of a flag, and this file.
fn asks(
    alloc: Global,
    line: &str,
    command: Command,
    flag: Flag,
    value: &str,
    file: &str,
) -> Result<bool, Fail> {
    let words = words_of(alloc, line)?;
    match parse_command_line(alloc, &words) {
        Ok(CommandLine::Invocation(asked)) => {
            let text = asked.value_or(alloc, flag, "")?;
            Ok(asked.command == command && text.as_str() == value && asked.file == file)
        }
        _ => Ok(false),
    }
}

#[test]
fn commands_have_their_flags_and_files(rt: HostRuntime) -> Result<(), Fail> {
    for (line, command, flag, value, file) in [
        ("link -o x m.a", Command::Link, Flag::Out, "x", "m.a"),
        ("link --o=x m.a", Command::Link, Flag::Out, "x", "m.a"),
        ("link -o -s m.a", Command::Link, Flag::Out, "-s", "m.a"),
        ("link -o -- m.a", Command::Link, Flag::Out, "--", "m.a"),
        ("link -o=a=b m.a", Command::Link, Flag::Out, "a=b", "m.a"),
        (
            "link -o a -s -o b -- -x",
            Command::Link,
            Flag::Out,
            "b",
            "-x",
        ),
        (
            "link -importcfg x -",
            Command::Link,
            Flag::ImportCfg,
            "x",
            "-",
        ),
        (
            "link -numbers x m.a",
            Command::Link,
            Flag::Numbers,
            "x",
            "m.a",
        ),
        (
            "link -builtin x m.a",
            Command::Link,
            Flag::Builtin,
            "x",
            "m.a",
        ),
        ("link --E e m.a", Command::Link, Flag::Entry, "e", "m.a"),
        (
            "link -workers 64 m.a",
            Command::Link,
            Flag::Workers,
            "64",
            "m.a",
        ),
        (
            "link -buildmode exe f",
            Command::Link,
            Flag::BuildMode,
            "exe",
            "f",
        ),
        (
            "link -buildid -x=y f",
            Command::Link,
            Flag::BuildId,
            "-x=y",
            "f",
        ),
        (
            "link -extld gcc m.a",
            Command::Link,
            Flag::ExtLd,
            "gcc",
            "m.a",
        ),
        ("link -s false", Command::Link, Flag::Strip, "true", "false"),
        ("link --w=F m.a", Command::Link, Flag::OmitDwarf, "F", "m.a"),
        (
            "mkobj -o x.a m.txt",
            Command::Mkobj,
            Flag::Out,
            "x.a",
            "m.txt",
        ),
        ("dump m.a", Command::Dump, Flag::Out, "", "m.a"),
        ("nm -n m", Command::Nm, Flag::ByAddress, "true", "m"),
        ("nm -size=0 m", Command::Nm, Flag::Size, "0", "m"),
        ("nm --sort none m", Command::Nm, Flag::Sort, "none", "m"),
        (
            "addr2line -i m",
            Command::Addr2line,
            Flag::Inline,
            "true",
            "m",
        ),
        ("gen -n 200000", Command::Gen, Flag::Count, "200000", ""),
        ("gen -workers 1", Command::Gen, Flag::Workers, "1", ""),
        (
            "gen -seed=18446744073709551615",
            Command::Gen,
            Flag::Seed,
            "18446744073709551615",
            "",
        ),
    ] {
        let found = asks(rt.alloc(), line, command, flag, value, file)?;
        assert!(rt; found, "of {line:?}");
    }
    Ok(())
}

#[test]
fn a_faulty_line_has_its_first_fault(rt: HostRuntime) -> Result<(), Fail> {
    for (line, word, why) in [
        ("", 0, Why::NoCommand),
        (" link m.a", 0, Why::UnknownCommand),
        ("-help", 0, Why::UnknownCommand),
        ("link --help", 1, Why::UnknownFlag),
        ("link", 1, Why::MissingFile),
        ("link -s --", 3, Why::MissingFile),
        ("link m.a -s", 2, Why::ExtraWord),
        ("link -- m.a n.a o.a", 3, Why::ExtraWord),
        ("link -sw m.a", 1, Why::UnknownFlag),
        ("link -S=x m.a", 1, Why::UnknownFlag),
        ("link ---s m.a", 1, Why::BadSyntax),
        ("link -s --=x m.a", 2, Why::BadSyntax),
        ("link -o", 2, Why::MissingValue),
        ("link -s=maybe m.a", 1, Why::BadValue),
        ("link -buildmode=pie m.a", 1, Why::BadValue),
        ("link -workers=65 -q", 1, Why::BadValue),
        ("link -q -workers=0", 1, Why::UnknownFlag),
        ("link -workers 01 m.a", 2, Why::BadValue),
        ("link -workers +1 m.a", 2, Why::BadValue),
        ("nm -sort type m", 2, Why::BadValue),
        ("gen x", 1, Why::ExtraWord),
        ("gen -n 200001", 2, Why::BadValue),
        ("gen -n 0", 2, Why::BadValue),
        ("gen -seed=18446744073709551616", 1, Why::BadValue),
    ] {
        let found = fault_of(rt.alloc(), line)?;
        assert_eq!(rt; found, Some(UsageBad { word, why }), "of {line:?}");
    }
    Ok(())
}

// Whether the line sets a truth flag; none where the line is refused.
fn is_set(alloc: Global, line: &str) -> Result<Option<bool>, Fail> {
    let words = words_of(alloc, line)?;
    match parse_command_line(alloc, &words) {
        Ok(CommandLine::Invocation(asked)) => Ok(Some(asked.is_set(Flag::Strip))),
        _ => Ok(None),
    }
}

#[test]
fn the_words_of_truth_are_those_of_parse_bool(rt: HostRuntime) -> Result<(), Fail> {
    for (line, is) in [
        ("link m.a", Some(false)),
        ("link -s m.a", Some(true)),
        ("link -s=1 m.a", Some(true)),
        ("link -s=t m.a", Some(true)),
        ("link -s=T m.a", Some(true)),
        ("link -s=TRUE m.a", Some(true)),
        ("link -s=true m.a", Some(true)),
        ("link -s=True m.a", Some(true)),
        ("link -s=0 m.a", Some(false)),
        ("link -s=f m.a", Some(false)),
        ("link -s=F m.a", Some(false)),
        ("link -s=FALSE m.a", Some(false)),
        ("link -s=false m.a", Some(false)),
        ("link -s=False m.a", Some(false)),
        ("link -s=tRUE m.a", None),
        ("link -s=yes m.a", None),
        ("link -s= m.a", None),
    ] {
        let found = is_set(rt.alloc(), line)?;
        assert_eq!(rt; found, is, "of {line:?}");
    }
    spellings_agree();
    Ok(())
}
