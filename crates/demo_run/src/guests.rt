//! The guests of a demonstration.

ghost use Rattle.std.specs.Prelude.{◌≡◌, ◌≤◌, IfOk};
ghost use Rattle.demo_run.specs.Guests.{guest_words, guest_bytes};

use byteorder::{ByteOrder, LittleEndian};
use outside::NoMemory;
use std::alloc::Global;

/// How many instructions the guest has.
const WORDS: usize = 18;

/// The firmware of a guest that prints n letters, 1 to 2000, and ends after 5006 n + 7 turns.
pub fn guest_of(alloc: Global, n: u32) -> Result<Vec<u8>, NoMemory>
    requires some { 1 ≤ n }
    requires few { n ≤ 2000 }
    ensures { IfOk result (λ v. v.items ≡ guest_bytes n) }
{
    let mut bytes = Vec::new(alloc);
    bytes.resize(4 * WORDS, 0)?;
    LittleEndian::write_u32_into(&words(n), &mut bytes);
    Ok(bytes)
}

/// The instructions of that guest.
#[rattlefmt::skip]
fn words(n: u32) -> [u32; WORDS]
    requires { n ≤ 2000 }
    ensures { result ≡ guest_words n }
{
    [
        0x100002b7,             // lui t0, 0x10000: the UART
        (n << 20) + 0x00000413, // li s0, n: the letters to come
        0x00100313,             // li t1, 1: the number

        0x3e800493,             // letter: li s1, 1000
        0x00231393,             // step: slli t2, t1, 2
        0x00730333,             // add t1, t1, t2
        0x00130313,             // addi t1, t1, 1
        0xfff48493,             // addi s1, s1, -1
        0xfe0498e3,             // bnez s1, step

        0x00f37393,             // andi t2, t1, 15
        0x06138393,             // addi t2, t2, 'a'
        0x00728023,             // sb t2, 0(t0)
        0xfff40413,             // addi s0, s0, -1
        0xfc041ce3,             // bnez s0, letter

        0x001003b7,             // lui t2, 0x100: the finisher
        0x00005337,             // lui t1, 0x5
        0x55530313,             // addi t1, t1, 0x555
        0x0063a023,             // sw t1, 0(t2)
    ]
}
