//! What a world counts, and what it notes for contracts.
ghost use Rattle.std.specs.Prelude.{◌≡◌, ◌∷◌, [], None, option_copied};
ghost use Rattle.outside.specs.declared.openings.Opening.TheVariants as opening;
ghost use Rattle.outside.specs.Causes.{one_more, both};
ghost use Rattle.outside.specs.Roles.{at, put, same};

use crate::past::{Past, told_name};
use crate::{Opening, PerRole, Role};

/// How often devices and openings failed, and how many devices were opened and given back. Each
/// count stays at `u64::MAX` once it is there. For contracts alone: all openings, those that failed,
/// and what the source of each role that was last given back had left.
#[derive(Drop)]
pub(crate) struct Counters {
    pub(crate) faults: PerRole<u64>,
    pub(crate) disk_faults: u64,
    pub(crate) opening_faults: u64,
    pub(crate) opened: PerRole<u64>,
    pub(crate) returned: PerRole<u64>,
    pub(crate) openings: Past<Opening>,
    pub(crate) refused: Past<Opening>,
    pub(crate) left: PerRole<Option<Past<u8>>>,
    pub(crate) disks_opened: u64,
    pub(crate) disks_returned: u64,
    pub(crate) clocks_opened: u64,
    pub(crate) clocks_returned: u64,
}

impl Counters {
    /// Nothing was counted yet.
    pub(crate) fn new() -> Self
        ensures { result ≡ record {
          faults = same 0;
          disk_faults = 0;
          opening_faults = 0;
          opened = same 0;
          returned = same 0;
          openings = [];
          refused = [];
          left = same None;
          disks_opened = 0;
          disks_returned = 0;
          clocks_opened = 0;
          clocks_returned = 0;
        } }
    {
        Counters {
            faults: PerRole::same(0),
            disk_faults: 0,
            opening_faults: 0,
            opened: PerRole::same(0),
            returned: PerRole::same(0),
            openings: Past::new(),
            refused: Past::new(),
            left: none_told(),
            disks_opened: 0,
            disks_returned: 0,
            clocks_opened: 0,
            clocks_returned: 0,
        }
    }

    /// Counts an opening that failed.
    pub(crate) fn opening_failed(&mut self, opening: Opening)
        ensures { self.new ≡ record self.old {
          opening_faults = one_more self.old.opening_faults;
          refused = opening ∷ self.old.refused;
        } }
    {
        self.opening_faults = self.opening_faults.saturating_add(1);
        self.refused.push(opening);
    }

    /// Counts a source of the role that was opened under that name.
    pub(crate) fn open_source(&mut self, role: Role, name: Option<&str>)
        ensures { self.new ≡ record self.old {
          opened = put self.old.opened role (one_more (at self.old.opened role));
          openings = opening.Source role (option_copied name.entry) ∷ self.old.openings;
        } }
    {
        self.open(role, Opening::Source(role, told_name(name)));
    }

    /// Counts a sink of the role that was opened under that name.
    pub(crate) fn open_sink(&mut self, role: Role, name: Option<&str>)
        ensures { self.new ≡ record self.old {
          opened = put self.old.opened role (one_more (at self.old.opened role));
          openings = opening.Sink role (option_copied name.entry) ∷ self.old.openings;
        } }
    {
        self.open(role, Opening::Sink(role, told_name(name)));
    }

    fn open(&mut self, role: Role, opening: Opening)
        ensures { self.new ≡ record self.old {
          opened = put self.old.opened role (one_more (at self.old.opened role));
          openings = opening ∷ self.old.openings;
        } }
    {
        let count = self.opened.at(role).saturating_add(1);
        self.opened.put(role, count);
        self.openings.push(opening);
    }

    /// Counts an image that was opened under that name.
    pub(crate) fn open_disk(&mut self, name: Option<&str>)
        ensures { self.new ≡ record self.old {
          disks_opened = one_more self.old.disks_opened;
          openings = opening.Disk (option_copied name.entry) ∷ self.old.openings;
        } }
    {
        self.disks_opened = self.disks_opened.saturating_add(1);
        self.openings.push(Opening::Disk(told_name(name)));
    }

    /// Counts a clock that was made.
    pub(crate) fn open_clock(&mut self)
        ensures { self.new ≡ record self.old {
          clocks_opened = one_more self.old.clocks_opened;
          openings = opening.Clock ∷ self.old.openings;
        } }
    {
        self.clocks_opened = self.clocks_opened.saturating_add(1);
        self.openings.push(Opening::Clock);
    }

    /// Counts a source of the role that was given back with these bytes left, and adds its faults.
    pub(crate) fn give_source_back(&mut self, role: Role, faults: u64, left: Option<Past<u8>>)
        ensures { self.new ≡ record self.old {
          faults = put self.old.faults role (both (at self.old.faults role) faults);
          returned = put self.old.returned role (one_more (at self.old.returned role));
          left = put self.old.left role left;
        } }
    {
        self.give_back(role, faults);
        self.left.put(role, left);
    }

    /// Counts a device of the role that was given back, and adds its faults.
    pub(crate) fn give_back(&mut self, role: Role, faults: u64)
        ensures { self.new ≡ record self.old {
          faults = put self.old.faults role (both (at self.old.faults role) faults);
          returned = put self.old.returned role (one_more (at self.old.returned role));
        } }
    {
        let faults = self.faults.at(role).saturating_add(faults);
        self.faults.put(role, faults);
        let count = self.returned.at(role).saturating_add(1);
        self.returned.put(role, count);
    }

    /// Counts an image that was given back, and adds its faults.
    pub(crate) fn give_disk_back(&mut self, faults: u64)
        ensures { self.new ≡ record self.old {
          disk_faults = both self.old.disk_faults faults;
          disks_returned = one_more self.old.disks_returned;
        } }
    {
        self.disk_faults = self.disk_faults.saturating_add(faults);
        self.disks_returned = self.disks_returned.saturating_add(1);
    }

    /// Counts a clock that was given back.
    pub(crate) fn give_clock_back(&mut self)
        ensures { self.new ≡ record self.old {
          clocks_returned = one_more self.old.clocks_returned;
        } }
    {
        self.clocks_returned = self.clocks_returned.saturating_add(1);
    }
}

/// No source was given back yet.
fn none_told() -> PerRole<Option<Past<u8>>>
    ensures { result ≡ same None }
{
    PerRole {
        console_in: None,
        console_out: None,
        log_in: None,
        log_out: None,
        net_in: None,
        net_out: None,
        firmware: None,
        messages: None,
    }
}
