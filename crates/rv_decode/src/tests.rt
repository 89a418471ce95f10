//! Words that another assembler gave, and the two that differ from a row in one bit.
use super::*;
use std::test::Fail;

/// The fields of an instruction, in the order of the struct.
fn fields(ins: Option<Ins>) -> Option<(Op, u8, u8, u8, i32, u16)> {
    let ins = ins?;
    Some((ins.op, ins.rd, ins.rs1, ins.rs2, ins.imm, ins.csr))
}

fn fields_of(word: u32) -> Option<(Op, u8, u8, u8, i32, u16)> {
    fields(decode(word))
}

#[test]
fn a_word_without_a_row_is_no_instruction(rt: HostRuntime) {
    // SUB is funct7 32 on funct3 0 and SRA on funct3 5. On funct3 1, of SLL, there is no row.
    assert!(rt; decode(0x4000_1033).is_none());
    assert_eq!(rt; fields_of(0x4000_0033), Some((Op::Sub, 0, 0, 0, 0, 0)));
    assert!(rt; decode(0).is_none());
    assert!(rt; decode(0xffff_ffff).is_none());
}

#[test]
fn each_format_has_its_fields(rt: HostRuntime) {
    let rows = [
        // add x1, x2, x3
        (0x0031_00b3, (Op::Add, 1, 2, 3, 0, 0)),
        // addi x1, x0, -1
        (0xfff0_0093, (Op::Addi, 1, 0, 0, -1, 0)),
        // sw x1, -4(x2)
        (0xfe11_2e23, (Op::Sw, 0, 2, 1, -4, 0)),
        // beq x0, x0, -4
        (0xfe00_0ee3, (Op::Beq, 0, 0, 0, -4, 0)),
        // lui x10, 0x12345
        (0x1234_5537, (Op::Lui, 10, 0, 0, 0x1234_5000, 0)),
        // jal x0, -4
        (0xffdf_f06f, (Op::Jal, 0, 0, 0, -4, 0)),
        // srai x1, x1, 2
        (0x4020_d093, (Op::Srai, 1, 1, 0, 2, 0)),
        // csrrw x0, mtvec, x5
        (0x3052_9073, (Op::Csrrw, 0, 5, 0, 0, 0x305)),
        // csrrci x6, mie, 31: the immediate without sign, and no register
        (0x304f_f373, (Op::Csrrci, 6, 0, 0, 31, 0x304)),
        // mret
        (0x3020_0073, (Op::Mret, 0, 0, 0, 0, 0)),
    ];
    for (word, want) in rows {
        assert_eq!(rt; fields_of(word), Some(want), "of {word:x}");
    }
}

#[test]
fn a_word_at_the_address_of_another_is_decoded(rt: HostRuntime) -> Result<(), Fail> {
    let sub = Some((Op::Sub, 0, 0, 0, 0, 0));
    let mut cache = DecodeCache::new(rt.alloc());
    assert_eq!(rt; fields(cache.decode(0x8000_0000, 0x4000_0033)), sub);
    assert!(rt; cache.decode(0x8000_0000, 0x4000_1033).is_none());
    assert_eq!(rt; fields(cache.decode(0x8001_0000, 0x4000_0033)), sub);
    let known = cache.known().ok_or("nothing is known")?;
    assert_eq!(rt; fields(known.instruction(0x8000_0000, 0x4000_0033)), sub);
    assert!(rt; known.instruction(0x8000_0000, 0x0031_00b3).is_none());
    assert!(rt; cache.fresh().known().is_none());
    Ok(())
}
