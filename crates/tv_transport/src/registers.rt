//! The plain types of the transport's registers (VIRTIO 1.2, section 4.2.2).

/// A register of the transport, by its name in the standard. `register_at` of `specs/Registers.antt` has the offset of each.
#[derive(Clone, Copy)]
pub enum Register {
    MagicValue,
    Version,
    DeviceId,
    VendorId,
    DeviceFeatures,
    DeviceFeaturesSel,
    DriverFeatures,
    DriverFeaturesSel,
    QueueSel,
    QueueNumMax,
    QueueNum,
    QueueReady,
    QueueNotify,
    InterruptStatus,
    InterruptAck,
    Status,
    QueueDescLow,
    QueueDescHigh,
    QueueDriverLow,
    QueueDriverHigh,
    QueueDeviceLow,
    QueueDeviceHigh,
    ConfigGeneration,
}

/// The registers of one queue.
#[derive(Clone, Copy, Default)]
pub struct QueueState {
    /// QueueNum: how many descriptors the driver wants.
    pub size: u32,
    /// QueueReady: whether the device may use the queue.
    pub is_ready: bool,
    /// The address of the descriptor area.
    pub desc: u64,
    /// The address of the driver area.
    pub driver: u64,
    /// The address of the device area.
    pub device: u64,
}

/// What a store to the transport means for the device, beside what it changes in the registers.
#[derive(Clone, Copy, Debug, PartialEq, Eq)]
pub enum Effect {
    /// Nothing further.
    None,
    /// The driver reset the device.
    Reset,
    /// This store made the queue with this number ready.
    Ready(u16),
    /// The driver notified the device of the queue with this number, which may not be there.
    Notify(u16),
    /// The store is one to the device's configuration.
    Config,
}

/// The feature that each device offers and each driver must accept, VIRTIO_F_VERSION_1 (section 6).
pub const VERSION_1: u64 = 1 << 32;
