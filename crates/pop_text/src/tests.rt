use crate::{Output, ShortText};
use std::test::Fail;

#[test]
fn the_largest_numbers_are_printed_in_full(rt: HostRuntime) -> Result<(), Fail> {
    // 2^64 - 1, worked by hand
    let mut out = Output::with_room(rt.alloc(), 100)?;
    out.push_number(u64::MAX)?;
    out.push_spaced(u64::MAX)?;
    assert_eq!(rt;
        out.into_bytes().as_slice(),
        b"18446744073709551615 18446744073709551615".as_slice()
    );

    let mut out = Output::with_room(rt.alloc(), 0)?;
    out.push_pair(u64::MAX, b'=', u64::MAX)?;
    assert_eq!(rt;
        out.into_bytes().as_slice(),
        b" 18446744073709551615=18446744073709551615".as_slice()
    );
    Ok(())
}

#[test]
fn numbers_are_printed_one_behind_another(rt: HostRuntime) -> Result<(), Fail> {
    let mut out = Output::with_room(rt.alloc(), 0)?;
    out.push(b"n ")?;
    out.push_number(0)?;
    out.push_spaced(4294967295)?;
    out.push_pair(10, b':', 9)?;
    assert_eq!(rt;
        out.into_bytes().as_slice(),
        b"n 0 4294967295 10:9".as_slice()
    );
    Ok(())
}

#[test]
fn a_text_goes_on_behind_bytes_at_hand(rt: HostRuntime) -> Result<(), Fail> {
    let mut out = Output::behind(Vec::from_slice(rt.alloc(), b"v 1")?);
    out.reserve(3)?;
    out.push_spaced(0)?;
    out.push(b"\n")?;
    assert_eq!(rt; out.into_bytes().as_slice(), b"v 1 0\n".as_slice());
    Ok(())
}

#[test]
fn a_short_text_is_written_from_its_end_to_its_front(rt: HostRuntime) -> Result<(), Fail> {
    let mut text = ShortText::new();
    assert_eq!(rt; text.as_bytes(), b"".as_slice());
    text.put(b'\n');
    text.put_spaced(4294967295);
    text.put_number(10);
    text.put(b'e');
    assert_eq!(rt; text.as_bytes(), b"e10 4294967295\n".as_slice());
    Ok(())
}
