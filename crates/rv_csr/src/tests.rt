//! Each register by its number, in both modes.
use super::*;

#[test]
fn each_register_reads_what_it_keeps_of_a_write(rt: HostRuntime) {
    let inputs = Inputs {
        msip: true,
        mtip: false,
        meip: true,
        time: 0x7_0000_0005,
    };
    // The number, what all ones leave there, and the bit of mcounteren that U needs, if it may.
    let rows: [(u16, Option<u32>, u32); 24] = [
        (0x300, Some(0x0022_1888), 0),
        (0x301, Some(0x4010_1101), 0),
        (0x304, Some(0x888), 0),
        (0x305, Some(0xffff_fffd), 0),
        (0x306, Some(7), 0),
        (0x340, Some(0xffff_ffff), 0),
        (0x341, Some(0xffff_fffc), 0),
        (0x342, Some(0xffff_ffff), 0),
        (0x343, Some(0xffff_ffff), 0),
        (0x344, Some(0x808), 0),
        (0xb00, Some(0xffff_ffff), 0),
        (0xb80, Some(0xffff_ffff), 0),
        (0xb02, Some(0xffff_ffff), 0),
        (0xb82, Some(0xffff_ffff), 0),
        (0xc00, None, 1),
        (0xc80, None, 1),
        (0xc01, None, 2),
        (0xc81, None, 2),
        (0xc02, None, 4),
        (0xc82, None, 4),
        (0xf11, None, 0),
        (0xf12, None, 0),
        (0xf13, None, 0),
        (0xf14, None, 0),
    ];
    for (at, kept, counter) in rows {
        let mut csrs = Csrs::new();
        assert!(rt;
            csrs.write(at, Mode::U, u32::MAX).is_err(),
            "U writes {at:x}"
        );
        assert!(rt; csrs.read(at, Mode::U, &inputs).is_err(), "U reads {at:x}");
        let written = csrs.write(at, Mode::M, u32::MAX);
        assert_eq!(rt; written.is_ok(), kept.is_some(), "M writes {at:x}");
        if let Some(word) = kept {
            assert_eq!(rt; csrs.read(at, Mode::M, &inputs), Ok(word), "M reads {at:x}");
        }
        for enabled in 0..8 {
            let set = csrs.write(0x306, Mode::M, enabled);
            assert!(rt; set.is_ok());
            let may = csrs.read(at, Mode::U, &inputs).is_ok();
            assert_eq!(rt;
                may,
                enabled & counter != 0,
                "U reads {at:x} under {enabled}"
            );
        }
    }
    let csrs = Csrs::new();
    assert_eq!(rt; csrs.read(0xc01, Mode::M, &inputs), Ok(5));
    assert_eq!(rt; csrs.read(0xc81, Mode::M, &inputs), Ok(7));
}

#[test]
fn registers_that_are_not_listed_are_illegal(rt: HostRuntime) {
    let inputs = Inputs {
        msip: false,
        mtip: false,
        meip: false,
        time: 0,
    };
    let mut csrs = Csrs::new();
    // mstatush, menvcfg, mcountinhibit, mhpmevent3, pmpcfg0, pmpaddr0, mhpmcounter3, mconfigptr
    for at in [0x310, 0x30a, 0x320, 0x323, 0x3a0, 0x3b0, 0xb03, 0xf15] {
        assert!(rt; csrs.read(at, Mode::M, &inputs).is_err(), "of {at:x}");
        assert!(rt; csrs.write(at, Mode::M, 0).is_err(), "of {at:x}");
    }
}

#[test]
fn a_trap_and_its_return_bring_the_mode_back(rt: HostRuntime) {
    let inputs = Inputs {
        msip: true,
        mtip: true,
        meip: false,
        time: 0,
    };
    let mut csrs = Csrs::new();
    // Vectored, with the software and the timer interrupt enabled and MIE and MPRV set.
    for (at, word) in [(0x305, 0x8000_0101), (0x304, 0x88), (0x300, 0x2_0008)] {
        assert!(rt; csrs.write(at, Mode::M, word).is_ok());
    }
    assert!(rt; csrs.wakes(&inputs));
    assert!(rt; csrs.hears(Mode::M));
    assert_eq!(rt; csrs.due_interrupt(Mode::M, &inputs), Some(3));
    assert_eq!(rt; csrs.enter_interrupt(Mode::U, 0x8000_0040, 3), 0x8000_010c);
    assert_eq!(rt; csrs.read(0x300, Mode::M, &inputs), Ok(0x2_0080));
    assert_eq!(rt; csrs.read(0x341, Mode::M, &inputs), Ok(0x8000_0040));
    assert_eq!(rt; csrs.read(0x342, Mode::M, &inputs), Ok(0x8000_0003));
    assert_eq!(rt; csrs.due_interrupt(Mode::M, &inputs), None);
    assert_eq!(rt; csrs.mret(), (0x8000_0040, Mode::U));
    assert_eq!(rt; csrs.read(0x300, Mode::M, &inputs), Ok(0x88));
    assert_eq!(rt; csrs.enter_trap(Mode::U, 0x8000_0044, 8, 0), 0x8000_0100);
    assert_eq!(rt; csrs.read(0x342, Mode::M, &inputs), Ok(8));
    csrs.tick(false);
    csrs.tick(true);
    assert_eq!(rt; csrs.read(0xb00, Mode::M, &inputs), Ok(2));
    assert_eq!(rt; csrs.read(0xb02, Mode::M, &inputs), Ok(1));
}
