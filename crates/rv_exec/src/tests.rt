//! Instructions on a bus of one cell.
ghost use Rattle.std.specs.Prelude.{◌%◌, ◌^◌, ◌*◌, ◌==◌, ◌≡◌, ℕ, Ok, Err, false, if◌then◌else◌};
ghost use Rattle.rv_exec.specs.declared.bus.BusError.TheVariants.{Fault};

use super::*;
use rv_csr::{Csrs, Inputs, Mode};
use rv_decode::{Ins, decode};

const CELL: u32 = 0x8000_0000;

/// One cell of RAM, and nothing elsewhere.
#[derive(Drop)]
struct Cell {
    word: u32,
}

impl Bus for Cell {
    ghost answers = { record {
      load = λ cell at size.
          if at == 2 ^ 31
          then Ok
          (if size == 1 then cell.word % 2 ^ 8
          else (if size == 2 then cell.word % 2 ^ 16
          else (if size == 4 then cell.word else 0)))
          else Err Fault;
      loaded = λ cell at size. cell;
      can_store = λ cell at size. at == 2 ^ 31;
      stored = λ cell at size value. record { word = value };
      may_want = λ cell at size. false;
      is_ram = λ cell at. at == 2 ^ 31;
      inputs = λ cell. record { msip = false; mtip = false; meip = false; time = 0 };
    } };

    fn load(&mut self, at: u32, size: u32) -> Result<u32, BusError> {
        if at != CELL {
            return Err(BusError::Fault);
        }
        let word = self.word;
        Ok(match size {
            1 => word % (1 << 8),
            2 => word % (1 << 16),
            4 => word,
            _ => 0,
        })
    }

    fn store(&mut self, at: u32, _size: u32, value: u32) -> Result<(), BusError> {
        if at != CELL {
            return Err(BusError::Fault);
        }
        self.word = value;
        Ok(())
    }

    fn is_ram(&self, at: u32) -> bool {
        at == CELL
    }

    fn inputs(&self) -> Inputs {
        Inputs {
            msip: false,
            mtip: false,
            meip: false,
            time: 0,
        }
    }
}

/// A hart in M with a in x1 and b in x2.
fn hart_with(a: u32, b: u32) -> Hart {
    let mut x = Regs::new();
    x.set(1, a);
    x.set(2, b);
    Hart {
        pc: CELL,
        x,
        mode: Mode::M,
        csrs: Csrs::new(),
        reservation: None,
    }
}

/// Executes a word, if it is an instruction.
fn run(hart: &mut Hart, cell: &mut Cell, word: u32) -> Option<Done> {
    let ins = decode(word)?;
    Some(execute(hart, cell, ins, word))
}

#[test]
fn products_and_quotients_meet_their_corners(rt: HostRuntime) {
    const MIN: u32 = 0x8000_0000;
    const MAX: u32 = 0xffff_ffff;
    // Of x3, x1, x2: div, rem, divu, remu, mulh, mulhu, mulhsu.
    let rows = [
        (0x0220_c1b3, MIN, MAX, MIN),
        (0x0220_e1b3, MIN, MAX, 0),
        (0x0220_c1b3, 7, 0, MAX),
        (0x0220_d1b3, 7, 0, MAX),
        (0x0220_e1b3, 7, 0, 7),
        (0x0220_f1b3, 7, 0, 7),
        (0x0220_91b3, MIN, MIN, 0x4000_0000),
        (0x0220_b1b3, MAX, MAX, 0xffff_fffe),
        (0x0220_a1b3, MAX, MAX, MAX),
    ];
    for (word, a, b, want) in rows {
        let mut hart = hart_with(a, b);
        let done = run(&mut hart, &mut Cell { word: 0 }, word);
        assert_eq!(rt; done, Some(Done::Retired { idle: false }));
        assert_eq!(rt; hart.x.get(3), want, "of {word:x}");
    }
}

#[test]
fn a_conditional_store_needs_a_reservation(rt: HostRuntime) {
    const LR: u32 = 0x1000_a1af;
    const SC: u32 = 0x1820_a1af;
    let mut hart = hart_with(CELL, 5);
    let mut cell = Cell { word: 9 };
    for (word, want) in [(LR, 9), (SC, 0), (SC, 1)] {
        assert!(rt; run(&mut hart, &mut cell, word).is_some());
        assert_eq!(rt; hart.x.get(3), want, "of {word:x}");
    }
    assert_eq!(rt; cell.word, 5);
}

#[test]
fn what_traps_names_its_cause_and_value(rt: HostRuntime) {
    // lw x3, 1(x1), lw x3, 4(x1), ecall, ebreak, csrrw x0, mhartid, x1
    let rows = [
        (0x0010_a183, 4, CELL + 1),
        (0x0040_a183, 5, CELL + 4),
        (0x0000_0073, 11, 0),
        (0x0010_0073, 3, CELL),
        (0xf140_9073, 2, 0xf140_9073),
    ];
    for (word, cause, value) in rows {
        let mut hart = hart_with(CELL, 0);
        let done = run(&mut hart, &mut Cell { word: 0 }, word);
        assert_eq!(rt; done, Some(Done::Trap { cause, value }), "of {word:x}");
        assert_eq!(rt; hart.pc, CELL);
    }
    let waits = run(&mut hart_with(0, 0), &mut Cell { word: 0 }, 0x1050_0073);
    assert_eq!(rt; waits, Some(Done::Retired { idle: true }));
}

#[test]
fn a_load_is_known_before_it_runs(rt: HostRuntime) {
    // lb x3, 4(x1) and sb x2, 4(x1)
    for (word, want) in [(0x0040_8183, Some((CELL + 4, 1))), (0x0020_8223, None)] {
        let load = match decode(word) {
            Some(ins) => laws::load_of(&hart_with(CELL, 0), ins),
            None => None,
        };
        assert_eq!(rt; load, want, "of {word:x}");
    }
}
