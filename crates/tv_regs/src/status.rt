//! Bits of the device's status and of its interrupts.

ghost use Rattle.std.specs.Prelude.{⊤, [], ◌∷◌, ◌≡◌, codes};
ghost use Rattle.std.specs.Int.RustNames.{bit_and, bit_or};
ghost use Rattle.tv_transport.specs.Registers.{with_features_ok, with_driver_ok};

use bitflags::{Flag, Flags, bitflag_items};

/// The device's status (VIRTIO 1.2, section 2.1).
#[derive(Clone, Copy, Debug, PartialEq, Eq)]
pub struct Status(u8);

bitflag_items! {
    impl Status: u8 {
        const ACKNOWLEDGE = 1;
        const DRIVER = 2;
        const DRIVER_OK = 4;
        const FEATURES_OK = 8;
        const DEVICE_NEEDS_RESET = 64;
        const FAILED = 128;
    }
}

impl Flags for Status {
    type Bits = u8;

    ghost exact = { ⊤ };

    ghost table = { (codes "ACKNOWLEDGE", 1) ∷ (codes "DRIVER", 2) ∷ (codes "DRIVER_OK", 4) ∷ (codes "FEATURES_OK", 8) ∷ (codes "DEVICE_NEEDS_RESET", 64) ∷ (codes "FAILED", 128) ∷ [] };

    ghost set_of = { λ status. status.0 };

    fn flags<'a>() -> &'a [Flag<Status>] {
        Status::FLAGS
    }

    fn bits(&self) -> u8 {
        self.0
    }

    fn from_bits_retain(bits: u8) -> Status {
        Status(bits)
    }
}

/// The bits that the driver may set at any time: ACKNOWLEDGE, DRIVER and FAILED.
const PLAIN: Status = Status(0x83);

impl Status {
    /// With the bits that a store sets at any time.
    fn with_plain(self, asked: Status) -> Status
        ensures { result.0 ≡ bit_or self.0 (bit_and asked.0 0x83) }
    {
        self.union(asked.intersection(PLAIN))
    }

    /// With FEATURES_OK, where a store asks for it and the accepted features can be used.
    fn with_features_ok(self, asked: Status, can: bool) -> Status
        ensures { result.0 ≡ with_features_ok self.0 asked.0 can }
    {
        if asked.contains(Status::FEATURES_OK) && can {
            self.union(Status::FEATURES_OK)
        } else {
            self
        }
    }

    /// With DRIVER_OK, where a store asks for it and FEATURES_OK is set.
    fn with_driver_ok(self, asked: Status) -> Status
        ensures { result.0 ≡ with_driver_ok self.0 asked.0 }
    {
        if asked.contains(Status::DRIVER_OK) && self.contains(Status::FEATURES_OK) {
            self.union(Status::DRIVER_OK)
        } else {
            self
        }
    }

    /// After a store that asks for these bits, where `can` says that the accepted features can be used.
    pub fn stored(self, asked: Status, can: bool) -> Status
        ensures { result.0 ≡ with_driver_ok (with_features_ok (bit_or self.0 (bit_and asked.0 0x83)) asked.0 can) asked.0 }
    {
        self.with_plain(asked)
            .with_features_ok(asked, can)
            .with_driver_ok(asked)
    }
}

/// Why the device's interrupt is raised (VIRTIO 1.2, section 4.2.2, InterruptStatus).
#[derive(Clone, Copy, Debug, PartialEq, Eq)]
pub struct Interrupts(u8);

bitflag_items! {
    impl Interrupts: u8 {
        const USED_BUFFER = 1;
        const CONFIG_CHANGE = 2;
    }
}

impl Flags for Interrupts {
    type Bits = u8;

    ghost exact = { ⊤ };

    ghost table = { (codes "USED_BUFFER", 1) ∷ (codes "CONFIG_CHANGE", 2) ∷ [] };

    ghost set_of = { λ interrupts. interrupts.0 };

    fn flags<'a>() -> &'a [Flag<Interrupts>] {
        Interrupts::FLAGS
    }

    fn bits(&self) -> u8 {
        self.0
    }

    fn from_bits_retain(bits: u8) -> Interrupts {
        Interrupts(bits)
    }
}
