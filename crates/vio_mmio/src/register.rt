//! The register map (virtio 1.2, 4.2.2).

ghost use Rattle.std.specs.Prelude.{◌≡◌};
ghost use Rattle.vio_mmio.specs.Map.{register_at};

/// A register that has an offset.
#[derive(Clone, Copy, Debug, PartialEq, Eq)]
pub(crate) enum Register {
    MagicValue,
    Version,
    DeviceId,
    VendorId,
    DeviceFeatures,
    DeviceFeaturesSel,
    DriverFeatures,
    DriverFeaturesSel,
    QueueSel,
    QueueNumMax,
    QueueNum,
    QueueReady,
    QueueNotify,
    InterruptStatus,
    InterruptAck,
    Status,
    QueueDescLow,
    QueueDescHigh,
    QueueDriverLow,
    QueueDriverHigh,
    QueueDeviceLow,
    QueueDeviceHigh,
    ConfigGeneration,
}

impl Register {
    /// The register at this offset.
    pub(crate) fn at(off: u32) -> Option<Register>
        ensures { result ≡ register_at off }
    {
        Some(match off {
            0x000 => Register::MagicValue,
            0x004 => Register::Version,
            0x008 => Register::DeviceId,
            0x00c => Register::VendorId,
            0x010 => Register::DeviceFeatures,
            0x014 => Register::DeviceFeaturesSel,
            0x020 => Register::DriverFeatures,
            0x024 => Register::DriverFeaturesSel,
            0x030 => Register::QueueSel,
            0x034 => Register::QueueNumMax,
            0x038 => Register::QueueNum,
            0x044 => Register::QueueReady,
            0x050 => Register::QueueNotify,
            0x060 => Register::InterruptStatus,
            0x064 => Register::InterruptAck,
            0x070 => Register::Status,
            0x080 => Register::QueueDescLow,
            0x084 => Register::QueueDescHigh,
            0x090 => Register::QueueDriverLow,
            0x094 => Register::QueueDriverHigh,
            0x0a0 => Register::QueueDeviceLow,
            0x0a4 => Register::QueueDeviceHigh,
            0x0fc => Register::ConfigGeneration,
            _ => return None,
        })
    }
}
