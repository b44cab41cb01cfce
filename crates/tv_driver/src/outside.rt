//! What lies outside: a disk, an output, an input, random bytes.

ghost use Rattle.std.specs.Prelude.{◌≡◌, ◌≤◌, ◌+◌, ◌*◌, IfSome, length};
ghost use Rattle.tv_base.specs.declared.limits.TheConstants.{PIECE_BYTES};
ghost use Rattle.tv_items.specs.Fits.{BytesOrFailed, DoneOrFailed, DoneOrTaken, FewOrFailed};

use tv_base::PIECE_BYTES;
use tv_items::{Bytes, Heard};

/// How many bytes a sector has.
pub const SECTOR: usize = 512;
/// How many sectors the disk has at most.
pub const SECTORS: usize = 8;
/// How many bytes the output keeps.
pub const OUTPUT: usize = 0x3000;
/// What every random byte is.
pub const RANDOM: u8 = 0x5a;
/// By how much each byte of the input is more than the one before, modulo 256. The first is 0.
pub const INPUT_STEP: u8 = 3;
/// How many bytes of a put that fails go out at most.
const FEW: u16 = 3;

/// A disk, an output and an input in memory. One call of them may fail.
#[derive(Drop)]
pub struct Outside {
    /// The bytes of the disk.
    pub disk: [u8; SECTORS * SECTOR],
    /// How many sectors the disk has, up to [`SECTORS`].
    pub sectors: u32,
    /// How many writes, flushes and changes of length of the disk were done.
    pub disk_changes: u32,
    /// What went out, as far as there is room.
    pub output: [u8; OUTPUT],
    /// How many bytes went out.
    pub put: usize,
    /// How many bytes the input still has.
    pub input: usize,
    /// The next byte of the input.
    pub next_input: u8,
    /// How many calls are done before one fails; none fails where it is `None`.
    pub fails_after: Option<u32>,
}

impl Outside {
    /// A disk of zeros with this many sectors, nothing put, an input of so many bytes; no call fails.
    pub fn new(sectors: u32, input: usize) -> Outside {
        Outside {
            disk: [0; SECTORS * SECTOR],
            sectors,
            disk_changes: 0,
            output: [0; OUTPUT],
            put: 0,
            input,
            next_input: 0,
            fails_after: None,
        }
    }

    /// Whether this call fails.
    fn fails(&mut self) -> bool {
        match self.fails_after {
            None => false,
            Some(0) => {
                self.fails_after = None;
                true
            }
            Some(left) => {
                self.fails_after = Some(left - 1);
                false
            }
        }
    }

    /// The bytes of a sector.
    pub fn read(&mut self, sector: u32) -> Heard
        ensures { BytesOrFailed 512 result }
    {
        match self.place(sector) {
            Some(at) if !self.fails() => Heard::Bytes(Bytes::of(&self.disk[at..at + SECTOR])),
            _ => Heard::Failed,
        }
    }

    /// Bytes to a sector.
    pub fn write(&mut self, sector: u32, bytes: &Bytes) -> Heard
        requires { length bytes.now ≡ 512 }
        ensures { DoneOrFailed result }
    {
        match self.place(sector) {
            Some(at) if !self.fails() => {
                self.disk[at..at + SECTOR].copy_from_slice(bytes.as_slice());
                self.disk_changes = self.disk_changes.wrapping_add(1);
                Heard::Done
            }
            _ => Heard::Failed,
        }
    }

    /// Makes what was written last.
    pub fn flush(&mut self) -> Heard
        ensures { DoneOrFailed result }
    {
        if self.fails() {
            return Heard::Failed;
        }
        self.disk_changes = self.disk_changes.wrapping_add(1);
        Heard::Done
    }

    /// Another number of sectors.
    pub fn set_len(&mut self, sectors: u32) -> Heard
        ensures { DoneOrFailed result }
    {
        if sectors > SECTORS as u32 || self.fails() {
            return Heard::Failed;
        }
        self.sectors = sectors;
        self.disk_changes = self.disk_changes.wrapping_add(1);
        Heard::Done
    }

    /// Bytes to the output.
    pub fn send(&mut self, bytes: &Bytes) -> Heard
        ensures { DoneOrTaken (length bytes.now) result }
    {
        let bytes = bytes.as_slice();
        if self.fails() {
            let few = FEW.min(bytes.len() as u16);
            self.keep(&bytes[..usize::from(few)]);
            return Heard::Taken(few);
        }
        self.keep(bytes);
        Heard::Done
    }

    /// Keeps bytes that went out, as far as there is room.
    fn keep(&mut self, bytes: &[u8]) {
        for byte in bytes {
            if self.put < OUTPUT {
                self.output[self.put] = *byte;
                self.put += 1;
            }
        }
    }

    /// At most so many bytes of the input.
    pub fn receive(&mut self, most: u16) -> Heard
        requires { most ≤ PIECE_BYTES }
        ensures { FewOrFailed most result }
    {
        if self.fails() {
            return Heard::Failed;
        }
        let len = self.input.min(usize::from(most));
        self.input -= len;
        let mut bytes = [0; PIECE_BYTES];
        for byte in &mut bytes[..len] {
            *byte = self.next_input;
            self.next_input = self.next_input.wrapping_add(INPUT_STEP);
        }
        Heard::Bytes(Bytes::of(&bytes[..len]))
    }

    /// Random bytes, as many as were asked for.
    pub fn random(&mut self, len: u16) -> Heard
        requires { len ≤ PIECE_BYTES }
        ensures { BytesOrFailed len result }
    {
        if self.fails() {
            return Heard::Failed;
        }
        Heard::Bytes(Bytes::of(&[RANDOM; PIECE_BYTES][..usize::from(len)]))
    }

    /// Where the bytes of a sector lie, where the disk has it.
    fn place(&self, sector: u32) -> Option<usize>
        ensures { IfSome result (λ at. at + 512 ≤ 4096) }
    {
        if sector < self.sectors && sector < SECTORS as u32 {
            Some(sector as usize * SECTOR)
        } else {
            None
        }
    }
}
