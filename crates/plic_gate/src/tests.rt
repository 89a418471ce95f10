//! Claims of two sources at a tie.

use super::*;
use std::test::Fail;

/// A controller with the sources 1 and 10 of priority 1, enabled and pending.
fn two_pending(threshold: u32) -> Plic {
    let mut plic = Plic::new();
    plic.write(0x4, 1);
    plic.write(0x28, 1);
    plic.write(0x2000, 0x402);
    plic.write(0x20_0000, threshold);
    plic.set_level(1, true);
    plic.set_level(10, true);
    plic
}

#[test]
fn claims_answer_in_order_whatever_the_threshold(rt: HostRuntime) -> Result<(), Fail> {
    for threshold in 0..2 {
        let mut plic = two_pending(threshold);
        let stands = plic.meip();
        assert_eq!(rt; stands, threshold == 0);
        assert_eq!(rt; plic.read(0x1000), 0x402);
        assert_eq!(rt; plic.read(0x20_0004), 1);
        assert_eq!(rt; plic.claim(), 10);
        assert_eq!(rt; plic.claim(), 0);
        plic.write(0x20_0004, 10);
        assert_eq!(rt; plic.claim(), 10);
    }
    Ok(())
}
