use crate::words_of;
use std::alloc::{AllocError, Global};
use std::process::Abort;
use std::test::Fail;

// Bytes, and the arguments in them, or `None`. Worked by hand.
static TEXTS: [(&[u8], &str); 9] = [
    (b"", "[]"),
    (b"\0", r#"[""]"#),
    (b"tree\0--root\x002\0", r#"["tree", "--root", "2"]"#),
    (b"\0a b\0\0", r#"["", "a b", ""]"#),
    (b"\xc3\xa9\0", "[\"\u{e9}\"]"),
    (b"tree", "none"),
    (b"tree\0--root", "none"),
    (b"\xc3\0\xa9\0", "none"),
    (b"tree\0\xff\0", "none"),
];

// The arguments in the bytes, as text.
fn told(alloc: Global, bytes: &[u8]) -> Result<String, AllocError> {
    match words_of(alloc, bytes)? {
        Some(words) => format!(in alloc; "{words:?}"),
        None => "none".to_string(alloc),
    }
}

// Compares the arguments in the bytes with the expected text.
fn has_words(rt: &impl Abort, alloc: Global, bytes: &[u8], want: &str) -> Result<(), AllocError> {
    let found = told(alloc, bytes)?;
    assert_eq!(rt; found.as_str(), want);
    Ok(())
}

#[test]
fn a_byte_0_ends_each_word(rt: HostRuntime) -> Result<(), Fail> {
    for (bytes, want) in TEXTS.iter() {
        has_words(&rt, rt.alloc(), bytes, want)?;
    }
    Ok(())
}
