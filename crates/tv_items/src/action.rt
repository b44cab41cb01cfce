//! Actions, and what a device hears of them.

ghost use Rattle.std.specs.Prelude.{◌≡◌};
ghost use Rattle.tv_items.specs.Fits.{way_of};

use crate::Bytes;

/// What a device asks for. `IsAction` of `specs/Fits.antt` says which of them may be asked, `FitsAction` what each may
/// hear.
#[derive(Drop)]
pub enum Action {
    /// Reads `len` bytes of guest memory, 1 to [`PIECE_BYTES`](tv_base::PIECE_BYTES), at the address `addr`.
    Read { addr: u64, len: u16 },
    /// Writes bytes to guest memory at the address `addr`.
    Write { addr: u64, bytes: Bytes },
    /// Fills a page of guest memory with zeros, and withdraws it from every device where `hold` is set. A page's number is
    /// its address divided by [`PAGE_BYTES`](tv_base::PAGE_BYTES).
    Release { page: u32, hold: bool },
    /// Gives a withdrawn page back.
    Regain { page: u32 },
    /// Raises the device's interrupt.
    Raise,
    /// Reads a sector of the device's disk, 512 bytes.
    DiskRead { sector: u32 },
    /// Writes 512 bytes to a sector of the device's disk.
    DiskWrite { sector: u32, bytes: Bytes },
    /// Makes all that was written to the device's disk last.
    Flush,
    /// Gives the device's disk so many sectors.
    SetLen { sectors: u32 },
    /// Puts bytes to the device's output.
    Put { bytes: Bytes },
    /// Takes at most `most` bytes of the device's input, 1 to [`PIECE_BYTES`](tv_base::PIECE_BYTES).
    Input { most: u16 },
    /// Takes `len` random bytes, 1 to [`PIECE_BYTES`](tv_base::PIECE_BYTES).
    Random { len: u16 },
}

/// What a device hears of an action.
#[derive(Drop)]
pub enum Heard {
    /// It was done.
    Done,
    /// It was not allowed, and nothing was done.
    Refused,
    /// It failed outside the machine.
    Failed,
    /// It was done, and gave these bytes.
    Bytes(Bytes),
    /// A put failed, and this many of its bytes went out.
    Taken(u16),
}

/// Who does an action.
#[derive(Clone, Copy, Debug, PartialEq, Eq)]
pub enum Way {
    /// The memory service.
    Memory,
    /// The interrupt service.
    Interrupt,
    /// The device's worker, over files, streams and random bytes outside the machine.
    Outside,
}

impl Action {
    /// Who does it.
    pub fn way(&self) -> Way
        ensures { result ≡ way_of self.now }
    {
        match self {
            Action::Read { .. }
            | Action::Write { .. }
            | Action::Release { .. }
            | Action::Regain { .. } => Way::Memory,
            Action::Raise => Way::Interrupt,
            Action::DiskRead { .. }
            | Action::DiskWrite { .. }
            | Action::Flush
            | Action::SetLen { .. }
            | Action::Put { .. }
            | Action::Input { .. }
            | Action::Random { .. } => Way::Outside,
        }
    }

    /// The same action again. It takes no memory.
    pub fn copy(&self) -> Action
        ensures { result ≡ self.now }
    {
        match self {
            Action::Read { addr, len } => Action::Read {
                addr: *addr,
                len: *len,
            },
            Action::Write { addr, bytes } => Action::Write {
                addr: *addr,
                bytes: bytes.copy(),
            },
            Action::Release { page, hold } => Action::Release {
                page: *page,
                hold: *hold,
            },
            Action::Regain { page } => Action::Regain { page: *page },
            Action::Raise => Action::Raise,
            Action::DiskRead { sector } => Action::DiskRead { sector: *sector },
            Action::DiskWrite { sector, bytes } => Action::DiskWrite {
                sector: *sector,
                bytes: bytes.copy(),
            },
            Action::Flush => Action::Flush,
            Action::SetLen { sectors } => Action::SetLen { sectors: *sectors },
            Action::Put { bytes } => Action::Put {
                bytes: bytes.copy(),
            },
            Action::Input { most } => Action::Input { most: *most },
            Action::Random { len } => Action::Random { len: *len },
        }
    }
}

impl Heard {
    /// The same reply again. It takes no memory.
    pub fn copy(&self) -> Heard
        ensures { result ≡ self.now }
    {
        match self {
            Heard::Done => Heard::Done,
            Heard::Refused => Heard::Refused,
            Heard::Failed => Heard::Failed,
            Heard::Bytes(bytes) => Heard::Bytes(bytes.copy()),
            Heard::Taken(count) => Heard::Taken(*count),
        }
    }
}
