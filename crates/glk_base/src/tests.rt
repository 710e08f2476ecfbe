// Each public call once, with memory.
use super::lines::{after_word, cut_line, first_word, is_skipped, is_text, small_number, trim};
use super::{Field, Seq, StrText, Text, escaped_path, le64, push_fields, read_varint, same_path};
use std::test::Fail;

const BYTES: [u8; 9] = [1, 2, 3, 4, 5, 6, 7, 8, 9];

#[test]
fn numbers_have_their_lowest_part_first(rt: HostRuntime) {
    assert_eq!(rt; le64(&BYTES, 1), Some(0x0908_0706_0504_0302));
    // as `binary.PutUvarint` writes 300
    let number = read_varint(b"\xac\x02\x05", 5, 1 << 35);
    assert_eq!(rt;
        number.map(|found| (found.value, found.size)),
        Some((300, 2))
    );
}

#[test]
fn fields_follow_one_another(rt: HostRuntime) -> Result<(), Fail> {
    let mut record = b"x".to_vec(rt.alloc())?;
    let fields = [
        Field::U16(0x0302),
        Field::Byte(4),
        Field::U64(0x0c0b_0a09_0807_0605),
        Field::U32(0x100f_0e0d),
    ];
    push_fields(&mut record, &fields)?;
    assert_eq!(rt;
        record.as_slice(),
        b"x\x02\x03\x04\x05\x06\x07\x08\x09\x0a\x0b\x0c\x0d\x0e\x0f\x10".as_slice()
    );
    Ok(())
}

#[test]
fn texts_and_lists_hold_what_they_were_given(rt: HostRuntime) -> Result<(), Fail> {
    let alloc = rt.alloc();
    let text = Text::new(alloc, &BYTES)?;
    assert_eq!(rt; text.as_bytes(), BYTES.as_slice());
    let same = Text::of(BYTES.to_vec(alloc)?);
    assert!(rt; text == same);
    let name = StrText::of(String::from_str(alloc, "m.o")?);
    assert_eq!(rt; name.as_str(), "m.o");
    let items = Seq::new(BYTES.to_vec(alloc)?);
    assert_eq!(rt; items.as_slice().len(), 9);
    let items = items.into_vec();
    assert_eq!(rt; items.as_slice(), BYTES.as_slice());
    Ok(())
}

#[test]
fn a_line_is_cut_trimmed_and_taken_apart(rt: HostRuntime) {
    let (line, rest) = cut_line(b" \tCALL   2 \r\n");
    assert_eq!(rt; rest, Some(b"".as_slice()));
    let line = trim(line);
    assert_eq!(rt; first_word(line), b"CALL".as_slice());
    assert_eq!(rt; after_word(line), b"2".as_slice());
    assert!(rt; !is_skipped(line) && is_text(line));
}

#[test]
fn a_small_number_has_one_spelling(rt: HostRuntime) {
    assert_eq!(rt; small_number(b"0"), Some(0));
    assert_eq!(rt; small_number(b"10"), Some(10));
    assert_eq!(rt; small_number(b"65535"), Some(65535));
    for text in [
        b"65536".as_slice(),
        b"00",
        b"07",
        b"+7",
        b"-7",
        b"",
        b"7 ",
        b"7a",
        b"99999999",
    ] {
        assert_eq!(rt; small_number(text), None, "{text:?}");
    }
}

#[test]
fn a_stored_path_is_plain_or_escaped(rt: HostRuntime) {
    for (stored, path, want) in [
        (b"fmt".as_slice(), b"fmt".as_slice(), true),
        (b"", b"", true),
        (b"fmt", b"fm", false),
        (b"fm", b"fmt", false),
        // A dot is escaped after the last slash alone.
        (b"a.b/c.d", b"a.b/c.d", true),
        (b"a.b/c%2ed", b"a.b/c.d", true),
        (b"a%2eb/c%2ed", b"a.b/c.d", false),
        (b"a%2eb/c.d", b"a.b/c.d", false),
        (b"a.b/", b"a.b/", true),
        (b"a%2eb/", b"a.b/", false),
        // Without a slash, every dot.
        (b"x%2ey%2ez", b"x.y.z", true),
        (b"x%2ey.z", b"x.y.z", false),
        // The digits are lower-case.
        (b"x%2Ey", b"x.y", false),
        // Each spelling is of its own path.
        (b"x.y", b"x%2ey", false),
        (b"x%252ey", b"x%2ey", true),
        (b"x%2ey%2ez", b"x%2ey.z", false),
        // The other bytes, in every part.
        (
            b"%00%1f%20!/!%22#%25~%7f%80%ff",
            b"\x00\x1f !/!\"#%~\x7f\x80\xff",
            true,
        ),
        (b"a%20", b"a!", false),
    ] {
        assert_eq!(rt; same_path(stored, path), want, "of {stored:?} and {path:?}");
    }
}

#[test]
fn a_path_is_escaped(rt: HostRuntime) -> Result<(), Fail> {
    for (path, want) in [
        (b"".as_slice(), b"".as_slice()),
        (b"runtime/internal/sys", b"runtime/internal/sys"),
        (b"github.com/a.b/c.d", b"github.com/a.b/c%2ed"),
        (b"gopkg.in/yaml.v3", b"gopkg.in/yaml%2ev3"),
        (b"a \"b\"", b"a%20%22b%22"),
    ] {
        let text = escaped_path(rt.alloc(), path)?;
        assert_eq!(rt; text.as_bytes(), want);
    }
    Ok(())
}
