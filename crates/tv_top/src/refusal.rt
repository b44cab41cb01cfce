//! Why a command is refused.

ghost use Rattle.std.specs.Prelude.{◌≡◌};
ghost use Rattle.tv_top.specs.Refusals.{refused_by, refused_status, fault_refused, journal_refused};
ghost use Rattle.tv_top.specs.declared.refusal.Refusal.TheVariants.{OutOfMemory, Unwritable};

use tv_base::{Failed, Memory};
use tv_journal::JournalFault;
use tv_machine_file::FileFault;
use tv_out::Short;

/// Why a command is refused.
#[derive(Drop)]
pub enum Refusal<'a> {
    /// The file of this name could not be loaded.
    Unreadable(&'a str),
    /// The machine file is too long.
    TooLong,
    /// The machine file has this fault.
    Faulty(FileFault),
    /// The image is empty or longer than memory.
    Misfit,
    /// The bytes are no journal's file; the length of their longest front that begins one.
    NoJournal(u64),
    /// The record with this number, from 0, has an entry that may not stand; or the number of records before an end that
    /// may not.
    Illegal(u32),
    /// The journal's file could not be created, or the output failed.
    Unwritable,
    /// Out of memory, before a run began.
    OutOfMemory,
}

impl Refusal<'_> {
    /// The exit status of a command that is refused so.
    pub fn status(&self) -> u8
        ensures { result ≡ refused_status (refused_by self.now) }
    {
        match self {
            Refusal::TooLong | Refusal::Faulty(_) => 3,
            Refusal::Unreadable(_) => 4,
            Refusal::Unwritable => 5,
            Refusal::Misfit => 8,
            Refusal::OutOfMemory => 9,
            Refusal::NoJournal(_) | Refusal::Illegal(_) => 14,
        }
    }
}

impl From<Memory> for Refusal<'_> {
    ghost from_gives = { λ _ refusal. refusal ≡ OutOfMemory };

    fn from(_memory: Memory) -> Self {
        Refusal::OutOfMemory
    }
}

impl From<Failed> for Refusal<'_> {
    ghost from_gives = { λ _ refusal. refusal ≡ Unwritable };

    fn from(_failed: Failed) -> Self {
        Refusal::Unwritable
    }
}

impl From<Short> for Refusal<'_> {
    ghost from_gives = { λ _ refusal. refusal ≡ Unwritable };

    fn from(_short: Short) -> Self {
        Refusal::Unwritable
    }
}

impl From<FileFault> for Refusal<'_> {
    ghost from_gives = { λ fault refusal. refused_by refusal ≡ fault_refused fault };

    fn from(fault: FileFault) -> Self {
        match fault {
            FileFault::Memory => Refusal::OutOfMemory,
            fault => Refusal::Faulty(fault),
        }
    }
}

impl From<JournalFault> for Refusal<'_> {
    ghost from_gives = { λ fault refusal. refused_by refusal ≡ journal_refused fault };

    fn from(fault: JournalFault) -> Self {
        match fault {
            JournalFault::At(at) => Refusal::NoJournal(at),
            JournalFault::Memory => Refusal::OutOfMemory,
        }
    }
}
