//! The count of faults of an adapter to the host.
ghost use Rattle.std.specs.Prelude.{◌≡◌};
ghost use Rattle.outside.specs.Causes.{one_more};

use crate::Failed;

/// Counts a fault.
pub(crate) fn count_fault(faults: &mut u64) -> Failed
    ensures { faults.new ≡ one_more faults.old }
{
    *faults = faults.saturating_add(1);
    Failed
}
