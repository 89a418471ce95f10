//! What holds of a device and the packets that were taken from it.

ghost use Rattle.virtio_net.specs.Shown.{NotifyIsShown, ReceiveIsShown, TakeIsShown};

/// A notify does to what is shown what it does to the device.
pub fn notify_is_shown()
    ensures { NotifyIsShown }
{}

/// A packet that arrives does to what is shown what it does to the device.
pub fn receive_is_shown()
    ensures { ReceiveIsShown }
{}

/// Taking the packets away changes nothing that is shown.
pub fn take_is_shown()
    ensures { TakeIsShown }
{}
