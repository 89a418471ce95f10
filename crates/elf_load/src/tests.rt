//! A small executable, the same with each rule broken, and a raw file.

use super::*;
use std::process::Abort;
use std::test::Fail;

/// An executable with one program header, of four bytes in the file and eight in memory.
fn executable() -> [u8; 88] {
    let mut file = [0; 88];
    file[..6].copy_from_slice(b"\x7fELF\x01\x01".as_slice());
    file[16] = 2;
    file[18] = 243;
    file[27] = 0x80;
    file[28] = 52;
    file[42] = 32;
    file[44] = 1;
    file[52] = 1;
    file[56] = 84;
    file[67] = 0x80;
    file[68] = 4;
    file[72] = 8;
    file[84] = 0x6f;
    file
}

/// Asserts that a firmware is entered at the start of RAM, and that one piece with these bytes
/// stands there.
fn assert_one_piece(rt: &impl Abort, loaded: Result<Loaded, LoadError>, bytes: &[u8]) {
    match loaded {
        Ok(loaded) => {
            assert_eq!(rt; loaded.entry, 0x8000_0000);
            assert_eq!(rt; loaded.pieces.as_slice().len(), 1);
            for piece in loaded.pieces.as_slice() {
                assert_eq!(rt; piece.at, 0x8000_0000);
                assert_eq!(rt; piece.bytes.as_slice(), bytes);
            }
        }
        Err(_) => assert!(rt; false),
    }
}

/// The front of an executable that ends one byte before its header does.
fn half_a_header() -> [u8; 51] {
    let mut file = [0; 51];
    file[..6].copy_from_slice(b"\x7fELF\x01\x01".as_slice());
    file
}

/// Asserts that a file is refused by this rule.
fn assert_refused(rt: &impl Abort, loaded: Result<Loaded, LoadError>, rule: LoadError) {
    match loaded {
        Ok(_) => assert!(rt; false),
        Err(error) => assert_eq!(rt; error, rule),
    }
}

#[test]
fn zeros_follow_the_file_bytes_of_a_segment(rt: HostRuntime) -> Result<(), Fail> {
    let loaded = load(rt.alloc(), executable().as_slice(), 1);
    assert_one_piece(&rt, loaded, [0x6f, 0, 0, 0, 0, 0, 0, 0].as_slice());
    Ok(())
}

#[test]
fn each_rule_is_named_where_one_field_breaks_it(rt: HostRuntime) -> Result<(), Fail> {
    // The offset of a byte of the good file, another value, and the rule that this breaks.
    let rows = [
        (4, 2, LoadError::Class),
        (5, 2, LoadError::Encoding),
        (16, 3, LoadError::FileType),
        (18, 62, LoadError::Machine),
        (24, 2, LoadError::Entry),
        (27, 0x70, LoadError::Entry),
        (28, 57, LoadError::Headers),
        (42, 40, LoadError::Headers),
        (45, 1, LoadError::Headers),
        (72, 3, LoadError::Sizes),
        (56, 85, LoadError::File),
        (67, 0x70, LoadError::Memory),
        (74, 0x10, LoadError::Memory),
    ];
    for (at, byte, rule) in rows {
        let mut file = executable();
        *file.get_mut(at).ok_or("no such byte")? = byte;
        assert_refused(&rt, load(rt.alloc(), file.as_slice(), 1), rule);
    }
    let cut = load(rt.alloc(), half_a_header().as_slice(), 1);
    assert_refused(&rt, cut, LoadError::Cut);
    let mut raw = Vec::new(rt.alloc());
    raw.resize((1 << 20) + 1, 0)?;
    assert_refused(&rt, load(rt.alloc(), &raw, 1), LoadError::TooLong);
    Ok(())
}

#[test]
fn a_raw_file_is_one_piece_at_the_start_of_ram(rt: HostRuntime) -> Result<(), Fail> {
    let loaded = load(rt.alloc(), b"\x6f\0\0\0".as_slice(), 1);
    assert_one_piece(&rt, loaded, b"\x6f\0\0\0".as_slice());
    Ok(())
}
