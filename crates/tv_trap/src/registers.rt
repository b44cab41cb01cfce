//! The names of the control and status registers.

ghost use Rattle.std.specs.Prelude.{◌≡◌};
ghost use Rattle.tv_trap.specs.Registers.{register_at};

/// A control and status register that a hart has.
#[derive(Clone, Copy)]
pub enum Register {
    /// Status: the bits MIE and MPIE.
    Mstatus,
    /// The instruction set: RV64IMA.
    Misa,
    /// Enabled interrupts.
    Mie,
    /// The address of the trap handler.
    Mtvec,
    /// A word for the trap handler.
    Mscratch,
    /// The pc of the last trap.
    Mepc,
    /// The cause of the last trap.
    Mcause,
    /// What the last trap tells beside its cause.
    Mtval,
    /// Interrupt lines that are up.
    Mip,
    /// Events of the hart.
    Mcycle,
    /// Instructions that the hart retired.
    Minstret,
    /// The vendor.
    Mvendorid,
    /// The architecture.
    Marchid,
    /// The implementation.
    Mimpid,
    /// The hart's number.
    Mhartid,
}

impl Register {
    /// The number of the counter of events.
    pub const MCYCLE: u16 = 0xb00;

    /// The number of the counter of retired instructions.
    pub const MINSTRET: u16 = 0xb02;

    /// The register with this number; `None` where there is none.
    pub fn numbered(csr: u16) -> Option<Register>
        ensures { result ≡ register_at csr }
    {
        Some(match csr {
            0x300 => Register::Mstatus,
            0x301 => Register::Misa,
            0x304 => Register::Mie,
            0x305 => Register::Mtvec,
            0x340 => Register::Mscratch,
            0x341 => Register::Mepc,
            0x342 => Register::Mcause,
            0x343 => Register::Mtval,
            0x344 => Register::Mip,
            0xb00 => Register::Mcycle,
            0xb02 => Register::Minstret,
            0xf11 => Register::Mvendorid,
            0xf12 => Register::Marchid,
            0xf13 => Register::Mimpid,
            0xf14 => Register::Mhartid,
            _ => return None,
        })
    }
}
