//! Guest memory: bytes from the address 0 on, with queues of 8 descriptors, and a port that serves a device from them.

ghost use Rattle.std.specs.Prelude.{◌≡◌, ◌≤◌, ◌+◌, IfSome};
ghost use Rattle.tv_items.specs.Fits.{BytesOrRefused, DoneOrRefused, FitsAction, IsAction};
ghost use Rattle.tv_base.specs.declared.limits.TheConstants.{PIECE_BYTES};

use crate::outside::Outside;
use arrayvec::ArrayVec;
use tv_items::{Action, Bytes, Heard, Verdict};
use tv_port::{Ended, Port};

/// Bytes of memory; what lies past them is refused.
pub const MEMORY: usize = 0x8000;
/// Where the descriptors of queue 0 lie.
pub const DESCRIPTORS: u64 = 0x1000;
/// Where the available ring of queue 0 lies.
pub const AVAILABLE: u64 = 0x2000;
/// Where the used ring of queue 0 lies.
pub const USED: u64 = 0x3000;
/// How far the areas of a queue lie behind those of the queue before.
pub const RING_BYTES: u64 = 0x100;
/// Where buffers lie.
pub const BUFFERS: u64 = 0x4000;
/// The flag of a descriptor that another follows.
pub const NEXT: u16 = 1;
/// The flag of a descriptor whose buffer the device writes.
pub const WRITE: u16 = 2;
/// Actions that are kept at most.
const KEPT: usize = 100;
/// Verdicts that are kept at most.
const VERDICTS: usize = 8;

/// An action that was asked for.
#[derive(Clone, Copy, Debug, Default, PartialEq, Eq)]
pub enum Asked {
    Read { addr: u64, len: usize },
    Write { addr: u64, len: usize },
    Release { page: u32, hold: bool },
    Regain(u32),
    #[default]
    Raise,
    DiskRead(u32),
    DiskWrite(u32),
    Flush,
    SetLen(u32),
    Put(usize),
    Input(u16),
    Random(u16),
}

/// A verdict that was told.
#[derive(Clone, Copy, Debug, Default, PartialEq, Eq)]
pub struct Told {
    /// How many actions were asked for before it.
    pub after: usize,
    /// The tag of the command.
    pub tag: u32,
    /// Its status.
    pub status: u8,
    /// The tag of the request that waits.
    pub other: u32,
    /// The sum of the numbers of a statistics request.
    pub sum: u64,
}

/// Guest memory, and what lies outside. It answers `left` actions, and no more.
#[derive(Drop)]
pub struct Guest {
    /// Memory.
    pub bytes: [u8; MEMORY],
    /// What lies outside.
    pub outside: Outside,
    /// What was asked for, at most 100 actions.
    pub asked: ArrayVec<Asked, KEPT>,
    /// What was told, at most 8 verdicts.
    pub told: ArrayVec<Told, VERDICTS>,
    /// How many actions it still answers.
    pub left: u64,
    /// Whether there is an interrupt to raise.
    pub has_interrupt: bool,
    /// The first page that can't be released nor regained.
    pub pages: u32,
    stopped: Option<Action>,
}

impl Port for Guest {
    ghost use Rattle.std.specs.Prelude.{◌≡◌};

    ghost moved = { λ p xs q. Unit {0} };

    ghost left = { λ p. p.left };

    ghost over = { λ p. p.left ≡ 0 };

    ghost stopped = { λ p. p.stopped };

    ghost awaits = { λ p xs w. Unit {0} };

    fn ask(&mut self, action: &Action) -> Result<Heard, Ended> {
        if self.left == 0 {
            self.stopped = Some(action.copy());
            return Err(Ended);
        }
        self.left -= 1;
        self.note(asked_of(action));
        Ok(self.answer(action))
    }

    fn tell(&mut self, verdict: &Verdict) {
        let after = self.asked.len();
        if self.told.len() < VERDICTS {
            self.told.push(Told {
                after,
                tag: verdict.tag,
                status: verdict.status,
                other: verdict.other,
                sum: sum_of(verdict.stats.as_slice()),
            });
        }
    }

    ghost stays = { λ p. tt };

    ghost joins = { λ p q r xs ys d e. tt };

    ghost goes_on = { λ p q xs ys w d a. tt };
}

impl Guest {
    /// Memory of zeros, with what lies outside. Each action is answered, and pages below 8 can be released and regained.
    pub fn new(outside: Outside) -> Guest {
        Guest {
            bytes: [0; MEMORY],
            outside,
            asked: ArrayVec::new(),
            told: ArrayVec::new(),
            left: 1_000_000,
            has_interrupt: true,
            pages: 8,
            stopped: None,
        }
    }

    /// Answers an action.
    fn answer(&mut self, action: &Action) -> Heard
        requires { IsAction action.now }
        ensures fits { FitsAction action.now result }
        ensures left { self.new.left ≡ self.old.left }
    {
        match action {
            Action::Read { addr, len } => self.read(*addr, *len),
            Action::Write { addr, bytes } => done_if(self.store(*addr, bytes.as_slice())),
            Action::Release { page, .. } | Action::Regain { page } => done_if(*page < self.pages),
            Action::Raise => done_if(self.has_interrupt),
            Action::DiskRead { sector } => self.outside.read(*sector),
            Action::DiskWrite { sector, bytes } => self.outside.write(*sector, bytes),
            Action::Flush => self.outside.flush(),
            Action::SetLen { sectors } => self.outside.set_len(*sectors),
            Action::Put { bytes } => self.outside.send(bytes),
            Action::Input { most } => self.outside.receive(*most),
            Action::Random { len } => self.outside.random(*len),
        }
    }

    /// The bytes at an address, where all are there.
    fn read(&self, addr: u64, len: u16) -> Heard
        requires { len ≤ PIECE_BYTES }
        ensures { BytesOrRefused len result }
    {
        let len = usize::from(len);
        match place(addr, len) {
            Some(at) => Heard::Bytes(Bytes::of(&self.bytes[at..at + len])),
            None => Heard::Refused,
        }
    }

    /// Keeps what was asked for, as far as there is room.
    fn note(&mut self, asked: Asked)
        ensures { self.new.left ≡ self.old.left }
    {
        if self.asked.len() < KEPT {
            self.asked.push(asked);
        }
    }

    /// Forgets what was asked for and told.
    pub fn forget(&mut self) {
        self.asked.clear();
        self.told.clear();
    }

    /// Stores bytes; `false` where they aren't all there, and nothing is changed then.
    pub fn store(&mut self, addr: u64, bytes: &[u8]) -> bool
        ensures { self.new.left ≡ self.old.left }
    {
        match place(addr, bytes.len()) {
            Some(at) => {
                self.bytes[at..at + bytes.len()].copy_from_slice(bytes);
                true
            }
            None => false,
        }
    }

    /// Stores a descriptor of a queue.
    pub fn describe(&mut self, queue: u8, number: u16, addr: u64, len: u32, flags: u16, next: u16) {
        let at = DESCRIPTORS + RING_BYTES * u64::from(queue) + 16 * u64::from(number);
        let _ = self.store(at, &addr.to_le_bytes());
        let _ = self.store(at + 8, &len.to_le_bytes());
        let _ = self.store(at + 12, &flags.to_le_bytes());
        let _ = self.store(at + 14, &next.to_le_bytes());
    }

    /// Stores an entry of a queue's available ring, and its index.
    pub fn offer(&mut self, queue: u8, place: u16, head: u16, index: u16) {
        let ring = AVAILABLE + RING_BYTES * u64::from(queue);
        let _ = self.store(ring + 4 + 2 * u64::from(place), &head.to_le_bytes());
        let _ = self.store(ring + 2, &index.to_le_bytes());
    }

    /// The bytes from an address on, for the tests to look at; none where they aren't all there.
    pub fn load(&self, addr: u64, len: usize) -> &[u8] {
        match place(addr, len) {
            Some(at) => &self.bytes[at..at + len],
            None => &[],
        }
    }
}

/// An action as it is kept.
fn asked_of(action: &Action) -> Asked {
    match action {
        Action::Read { addr, len } => Asked::Read {
            addr: *addr,
            len: usize::from(*len),
        },
        Action::Write { addr, bytes } => Asked::Write {
            addr: *addr,
            len: bytes.as_slice().len(),
        },
        Action::Release { page, hold } => Asked::Release {
            page: *page,
            hold: *hold,
        },
        Action::Regain { page } => Asked::Regain(*page),
        Action::Raise => Asked::Raise,
        Action::DiskRead { sector } => Asked::DiskRead(*sector),
        Action::DiskWrite { sector, .. } => Asked::DiskWrite(*sector),
        Action::Flush => Asked::Flush,
        Action::SetLen { sectors } => Asked::SetLen(*sectors),
        Action::Put { bytes } => Asked::Put(bytes.as_slice().len()),
        Action::Input { most } => Asked::Input(*most),
        Action::Random { len } => Asked::Random(*len),
    }
}

/// The sum of numbers, modulo 2^64.
fn sum_of(numbers: &[(u16, u64)]) -> u64 {
    let mut sum = 0u64;
    for (_, number) in numbers {
        sum = sum.wrapping_add(*number);
    }
    sum
}

/// Whether it was done.
fn done_if(is_done: bool) -> Heard
    ensures { DoneOrRefused result }
{
    if is_done { Heard::Done } else { Heard::Refused }
}

/// Where so many bytes from an address on lie, where all of them are there.
fn place(addr: u64, len: usize) -> Option<usize>
    ensures { IfSome result (λ at. at + len ≤ MEMORY) }
{
    if addr <= MEMORY as u64 && len <= MEMORY - addr as usize {
        Some(addr as usize)
    } else {
        None
    }
}
