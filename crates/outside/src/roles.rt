//! What a device is for, and a value for each role.
ghost use Rattle.std.specs.Prelude.{◌≡◌};

/// What a source or sink is for.
#[derive(Clone, Copy, Debug, PartialEq, Eq)]
pub enum Role {
    /// What the console's keyboard gives.
    ConsoleIn,
    /// What the console shows.
    ConsoleOut,
    /// A log that is replayed or read.
    LogIn,
    /// A log that is recorded.
    LogOut,
    /// Packets that arrive.
    NetIn,
    /// Packets that are sent.
    NetOut,
    /// The image that the machine starts from.
    Firmware,
    /// What the program says of its run.
    Messages,
}

/// A value for each role.
#[derive(Debug, Drop)]
pub struct PerRole<T> {
    pub console_in: T,
    pub console_out: T,
    pub log_in: T,
    pub log_out: T,
    pub net_in: T,
    pub net_out: T,
    pub firmware: T,
    pub messages: T,
}

impl<T> PerRole<T> {
    ghost use Rattle.outside.specs.Roles.{at};

    /// The value of a role.
    pub fn at(&self, role: Role) -> &T
        ensures { result.now ≡ at self.now role }
    {
        match role {
            Role::ConsoleIn => &self.console_in,
            Role::ConsoleOut => &self.console_out,
            Role::LogIn => &self.log_in,
            Role::LogOut => &self.log_out,
            Role::NetIn => &self.net_in,
            Role::NetOut => &self.net_out,
            Role::Firmware => &self.firmware,
            Role::Messages => &self.messages,
        }
    }
}

impl<T: Drop> PerRole<T> {
    ghost use Rattle.outside.specs.Roles.{put};

    /// Gives the role another value. The other roles keep theirs.
    pub fn put(&mut self, role: Role, value: T)
        ensures { self.new ≡ put self.old role value }
    {
        match role {
            Role::ConsoleIn => self.console_in = value,
            Role::ConsoleOut => self.console_out = value,
            Role::LogIn => self.log_in = value,
            Role::LogOut => self.log_out = value,
            Role::NetIn => self.net_in = value,
            Role::NetOut => self.net_out = value,
            Role::Firmware => self.firmware = value,
            Role::Messages => self.messages = value,
        }
    }
}

impl<T: Copy> PerRole<T> {
    ghost use Rattle.outside.specs.Roles.{same};

    /// The same value for each role.
    pub fn same(value: T) -> Self
        ensures { result ≡ same value }
    {
        PerRole {
            console_in: value,
            console_out: value,
            log_in: value,
            log_out: value,
            net_in: value,
            net_out: value,
            firmware: value,
            messages: value,
        }
    }
}
