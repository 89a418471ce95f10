//! What holds of every chain.

ghost use Rattle.vio_mmio.specs.FirstBroken.{NamesFirstBroken, HasItsRanges};
ghost use Rattle.vio_mmio.specs.Spread.{GathersItsTotal};

/// A chain that is bad breaks the rule that is named, and no descriptor before breaks one.
pub fn names_first_broken()
    ensures { NamesFirstBroken }
{}

/// A chain that is good has the ranges of its descriptors in order, and each of these keeps every
/// rule.
pub fn has_its_ranges()
    ensures { HasItsRanges }
{}

/// Ranges that lie in RAM give just as many bytes as they have.
pub fn gathers_its_total()
    ensures { GathersItsTotal }
{}
