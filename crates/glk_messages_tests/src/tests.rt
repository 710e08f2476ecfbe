// The messages of causes that no small input has, by the table of messages.
use glk_base::{RuleFamily, Text};
use glk_cause::{Cause, Form, Limit, Table};
use glk_io::MemSink;
use glk_messages::{Outcome, report};
use std::alloc::Global;
use std::test::Fail;

// The message of each cause of `cause`, by its number.
const MESSAGES: [&str; 14] = [
    "golink: x.f: rule Y4 at 88\n",
    "golink: x.f: rule Q3 at relocation 7\n",
    "golink: x.f: rule J5\n",
    "golink: x.f: pcsp: rule P2\n",
    "golink: x.f: funcdata: rule P7\n",
    "golink: x.f+1: value -2147483649 does not fit\n",
    "golink: x.f: init cycle\n",
    "golink: undefined: x.f\n",
    "golink: too large: names 1074791442\n",
    "golink: too large: address 1099515830272\n",
    "golink: x.f: rule E2 at 0\n",
    "golink: x.f: too big: 18446744073709551615\n",
    "golink: x.f: member 4294967295: rule V255 at 18446744073709551615\n",
    "golink: not built yet: symbol\n",
];

// A cause that names this.
fn cause(alloc: Global, number: usize, name: Text) -> Cause {
    match number {
        0 => Cause::TypeBad {
            name,
            rule: 4,
            offset: 88,
        },
        1 => Cause::RelocBad {
            name,
            rule: 3,
            index: 7,
        },
        2 => Cause::KindBad { name, rule: 5 },
        3 => Cause::TableBad {
            func: name,
            table: Table::Pcsp,
            rule: 2,
        },
        4 => Cause::TableBad {
            func: name,
            table: Table::Funcdata,
            rule: 7,
        },
        5 => Cause::Overflow {
            name,
            offset: 1,
            value: -2_147_483_649,
        },
        6 => Cause::InitCycle { name },
        7 => Cause::Undefined {
            from: Text::of(Vec::new(alloc)),
            name,
        },
        8 => Cause::TooLarge {
            limit: Limit::Names,
            number: 1_074_791_442,
        },
        9 => Cause::TooLarge {
            limit: Limit::Address,
            number: 1_099_515_830_272,
        },
        10 => Cause::ElfBad {
            path: name,
            rule: 2,
            offset: 0,
        },
        11 => Cause::TooBig {
            path: name,
            number: u64::MAX,
        },
        12 => Cause::Malformed {
            path: name,
            member: u32::MAX,
            family: RuleFamily::Object,
            rule: 255,
            offset: u64::MAX,
        },
        _ => Cause::NotYet { form: Form::Symbol },
    }
}

// A sink with the message of a refusal.
fn with_message(mut sink: MemSink, refusal: Cause) -> MemSink {
    report(&mut sink, &Outcome::Refused(refusal));
    sink
}

#[test]
fn causes_have_their_messages(rt: HostRuntime) -> Result<(), Fail> {
    let alloc = rt.alloc();
    for number in 0..MESSAGES.len() {
        let sink = MemSink::new(alloc, 100, Vec::new(alloc))?;
        let name = Text::new(alloc, b"x.f")?;
        let sink = with_message(sink, cause(alloc, number, name));
        assert_eq!(rt; sink.bytes(), MESSAGES[number].as_bytes());
    }
    Ok(())
}
