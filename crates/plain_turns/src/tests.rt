//! A loop that counts in a register and in RAM, and a word of another kind after it.

use super::*;
use ram_pages::Ram;
use rv_csr::{Csrs, Mode};
use rv_decode::DecodeCache;
use rv_exec::{Bus, Hart, Regs};
use std::alloc::Global;
use std::test::Fail;
use system_bus::Memory;

const START: u32 = 0x8000_0000;

/// Where the loop stores its count.
const COUNT: u32 = START + 64;

const WORDS: [(u32, u32); 4] = [
    (START, 0x0010_8093), // addi x1, x1, 1
    (START + 4, 0x0411_2023), // sw x1, 64(x2)
    (START + 8, 0xff9f_f06f), // jal x0, -8
    (START + 12, 0x3400_1073), // csrrw x0, mscratch, x0
];

/// A hart at an address, RAM with the words in it, and a cache that knows them.
fn started(alloc: Global, pc: u32) -> Result<(Hart, Memory, DecodeCache), Fail> {
    let mut memory = Memory {
        ram: Ram::new(alloc, 1)?,
    };
    let mut cache = DecodeCache::new(alloc);
    for (at, word) in WORDS {
        memory.ram.store(at, 4, word)?;
        let _ = cache.decode(at, word);
    }
    let mut x = Regs::new();
    x.set(2, START);
    let hart = Hart {
        pc,
        x,
        mode: Mode::M,
        csrs: Csrs::new(),
        reservation: None,
    };
    Ok((hart, memory, cache))
}

#[test]
fn plain_turns_are_made_as_many_as_there_is_room_for(rt: HostRuntime) -> Result<(), Fail> {
    let (mut hart, mut memory, cache) = started(rt.alloc(), START)?;
    assert_eq!(rt; run(&mut hart, &mut memory, &cache, 7), 7);
    assert_eq!(rt; hart.pc, START + 4);
    assert_eq!(rt; hart.x.get(1), 3);
    assert_eq!(rt; memory.load(COUNT, 4), Ok(2));
    Ok(())
}

#[test]
fn a_turn_of_another_kind_is_left(rt: HostRuntime) -> Result<(), Fail> {
    let (mut hart, mut memory, cache) = started(rt.alloc(), START + 12)?;
    assert_eq!(rt; run(&mut hart, &mut memory, &cache, 7), 0);
    assert_eq!(rt; hart.pc, START + 12);
    hart.pc = START;
    hart.x.set(2, 0x1000_0000);
    assert_eq!(rt; run(&mut hart, &mut memory, &cache, 7), 1);
    assert_eq!(rt; hart.pc, START + 4);
    Ok(())
}
