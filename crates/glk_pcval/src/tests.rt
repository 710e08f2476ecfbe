// Tables with their values, each worked out by hand from the format.
use super::{PcBad, Steps, check, encode, value_at};
use std::test::Fail;

/// The value 0 at offsets 0 to 3, then 8 at 4.
const TABLE: [u8; 5] = [0x02, 0x04, 0x10, 0x01, 0x00];

#[test]
fn a_table_is_read_and_written_back(rt: HostRuntime) -> Result<(), Fail> {
    assert_eq!(rt; check(&TABLE), Ok(()));
    let mut steps = Steps::new(&TABLE);
    assert_eq!(rt; steps.next(), Some((0, 4)));
    assert_eq!(rt; steps.next(), Some((8, 5)));
    assert_eq!(rt; steps.next(), None);
    assert_eq!(rt; value_at(&TABLE, 3), Some(0));
    assert_eq!(rt; value_at(&TABLE, 4), Some(8));
    let made = encode(rt.alloc(), &[(0, 4), (8, 5)])?;
    assert_eq!(rt; made.as_slice(), TABLE.as_slice());
    Ok(())
}

#[test]
fn the_ends_of_32_bits_are_written(rt: HostRuntime) -> Result<(), Fail> {
    let least = encode(rt.alloc(), &[(i32::MIN, 1)])?;
    assert_eq!(rt;
        least.as_slice(),
        b"\xfd\xff\xff\xff\x0f\x01\x00".as_slice()
    );
    let farthest = encode(rt.alloc(), &[(0, u32::MAX)])?;
    assert_eq!(rt;
        farthest.as_slice(),
        b"\x02\xff\xff\xff\xff\x0f\x00".as_slice()
    );
    Ok(())
}

#[test]
fn a_refusal_says_its_offset(rt: HostRuntime) -> Result<(), Fail> {
    let text = format!(in rt.alloc(); "{}", PcBad { offset: 7 })?;
    assert_eq!(rt; text.as_str(), "not a pc table: wrong at byte 7");
    Ok(())
}
