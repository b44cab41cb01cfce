//! The reader of a journal file, byte by byte.

ghost use Rattle.std.specs.Prelude.{◌≡◌, ◌≤◌, ◌<◌, ◌+◌, ◌^◌, ◌++◌, ◌∷◌, [], IsTrue, ◌↔◌, OnOk, Some, length};
ghost use Rattle.tv_base.specs.declared.limits.TheConstants.{PIECE_BYTES};
ghost use Rattle.tv_items.specs.declared.action.Heard.TheVariants as heard_as;
ghost use Rattle.tv_journal.specs.declared.Entry.TheVariants as entry_as;
ghost use Rattle.tv_journal.specs.Entries.{One, entries_in};
ghost use Rattle.tv_journal.specs.Grammar.{AreLines, last_record};
ghost use Rattle.tv_journal.specs.Reading.{
  StepGives,
  IsAt,
  IsCounted,
  read_of,
  read_byte,
  fixed_read,
  line_read,
  kind_read,
  hart_read,
  cause_read,
  count_read,
  tick_read,
  is_of_hart,
  with_record,
  first_read,
  number_so_far,
  device_read,
  outcome_read,
  code_read,
  length_read,
  with_length,
  bytes_read,
  greatest_length,
};
ghost use Rattle.tv_journal.specs.Stores.{held, record_in, LiesIn};

use crate::field::Field;
use crate::record::{DeviceStep, EndLine, Store, Stored};
use std::alloc::Global;
use tv_base::{DevNo, HartNo, PIECE_BYTES, Why};

/// Where the next byte of a journal file stands.
#[derive(Clone, Copy)]
pub enum Spot {
    /// In the four bytes that a file begins with.
    Magic,
    /// At the start of a line.
    Line,
    /// At the hart of a record.
    Hart,
    /// In the count of a record of this hart.
    Count(HartNo),
    /// At the device of a step.
    Device(DeviceStep),
    /// At the device of what it heard from outside.
    Outcome,
    /// At the code of what this device heard.
    Code(DevNo),
    /// In the length behind a code.
    Length(DevNo, Code),
    /// In the bytes that this device heard, which are so many.
    Bytes(DevNo, u16),
    /// In the number of a tick.
    Tick,
    /// At the cause of an end line.
    Cause,
    /// In the number of records.
    Closing,
    /// Behind the file.
    Done,
}

/// What a device heard from outside, by its code.
#[derive(Clone, Copy)]
pub enum Code {
    /// It was done.
    Done,
    /// It failed.
    Failed,
    /// It gave bytes.
    Bytes,
    /// It was a put that failed after some bytes.
    Taken,
}

/// Why a byte was not read.
#[derive(Clone, Copy)]
pub enum StepFault {
    /// No file goes on so.
    Refused,
    /// Want of memory.
    Memory,
}

/// What was read of a journal file.
#[derive(Drop)]
pub struct Reader {
    pub spot: Spot,
    pub field: Field,
    pub store: Store,
    pub end: Option<EndLine>,
    pub events: u64,
}

impl Reader {
    /// A reader that has read nothing.
    pub fn new(alloc: Global) -> Reader
        ensures read { read_of result ≡ first_read }
        ensures counted { IsCounted result }
    {
        Reader {
            spot: Spot::Magic,
            field: Field::new(),
            store: Store::new(alloc),
            end: None,
            events: 0,
        }
    }

    /// One byte more. After an error the reader is of no use.
    #[tactic(auto, unfolding(crate::specs::Reading::read_byte))]
    pub fn step(&mut self, byte: u8) -> Result<(), StepFault>
        requires lines { AreLines (record { records = held self.old.store; end = self.old.end }) }
        requires at { IsAt self.old.spot (read_of self.old) }
        requires counted { IsCounted self.old }
        ensures gives { StepGives result (read_byte (read_of self.old) byte) (read_of self.new) }
        ensures counted { OnOk result (IsCounted self.new) }
    {
        let spot = self.spot;
        match spot {
            Spot::Magic => self.read_fixed(byte, *b"TVJ1", Spot::Line),
            Spot::Line => self.read_line(byte),
            Spot::Hart => self.read_hart(byte),
            Spot::Count(hart) => self.read_count(hart, byte),
            Spot::Device(step) => self.read_device(step, byte),
            Spot::Outcome => self.read_outcome(byte),
            Spot::Code(device) => self.read_code(device, byte),
            Spot::Length(device, code) => self.read_length(device, code, byte),
            Spot::Bytes(device, len) => self.read_bytes(device, len, byte),
            Spot::Tick => self.read_tick(byte),
            Spot::Cause => self.read_cause(byte),
            Spot::Closing => {
                let count = self.store.records.len() as u32;
                self.read_fixed(byte, count.to_le_bytes(), Spot::Done)
            }
            Spot::Done => Err(StepFault::Refused),
        }
    }

    /// Whether a whole file was read.
    pub fn is_done(&self) -> bool
        ensures { IsTrue result ↔ (self.now.spot ≡ Spot.Done) }
    {
        let spot = self.spot;
        matches!(spot, Spot::Done)
    }

    /// Goes on at another place.
    fn move_to(&mut self, next: Spot)
        ensures { self.new ≡ record self.old { spot = next; field = [] } }
    {
        self.spot = next;
        self.field.clear();
    }

    /// A byte of four that stand fast.
    fn read_fixed(&mut self, byte: u8, expected: [u8; 4], next: Spot) -> Result<(), StepFault>
        requires short { length self.old.field < 4 }
        ensures gives { StepGives result (fixed_read (read_of self.old) expected next byte) (read_of self.new) }
        ensures counted { IsCounted self.old → IsCounted self.new }
    {
        let at = self.field.len();
        if byte != expected[at] {
            return Err(StepFault::Refused);
        }
        if at + 1 < 4 {
            self.field.push(byte);
        } else {
            self.move_to(next);
        }
        Ok(())
    }

    /// The kind of a line, or the zero that the file's end begins with.
    fn read_line(&mut self, byte: u8) -> Result<(), StepFault>
        ensures gives { StepGives result (line_read (read_of self.old) byte) (read_of self.new) }
        ensures counted { IsCounted self.old → IsCounted self.new }
    {
        let ended = self.end.is_some();
        match byte {
            0x00 => self.move_to(Spot::Closing),
            0x10 if ended => return Err(StepFault::Refused),
            0x10 => self.move_to(Spot::Cause),
            _ if self.store.records.len() == u32::MAX as usize => return Err(StepFault::Refused),
            _ => return self.read_kind(byte),
        }
        Ok(())
    }

    /// The kind of a record.
    fn read_kind(&mut self, byte: u8) -> Result<(), StepFault>
        ensures gives { StepGives result (kind_read (read_of self.old) byte) (read_of self.new) }
        ensures counted { IsCounted self.old → IsCounted self.new }
    {
        let ended = self.end.is_some();
        match byte {
            0x01 if ended => return Err(StepFault::Refused),
            0x01 => self.move_to(Spot::Hart),
            0x0a => self.move_to(Spot::Outcome),
            0x0b => self.move_to(Spot::Tick),
            _ => match DeviceStep::at(byte) {
                Some(step) => self.move_to(Spot::Device(step)),
                None => return Err(StepFault::Refused),
            },
        }
        Ok(())
    }

    /// The hart of a record.
    fn read_hart(&mut self, byte: u8) -> Result<(), StepFault>
        ensures gives { StepGives result (hart_read (read_of self.old) byte) (read_of self.new) }
        ensures counted { IsCounted self.old → IsCounted self.new }
    {
        let Some(hart) = HartNo::new(byte) else {
            return Err(StepFault::Refused);
        };
        if self.ends_with_hart(byte) {
            return Err(StepFault::Refused);
        }
        self.move_to(Spot::Count(hart));
        Ok(())
    }

    /// A byte of a hart's count.
    fn read_count(&mut self, hart: HartNo, byte: u8) -> Result<(), StepFault>
        requires lines { AreLines (record { records = held self.old.store; end = self.old.end }) }
        requires short { length self.old.field < 4 }
        requires counted { IsCounted self.old }
        ensures gives { StepGives result (count_read hart (read_of self.old) (self.old.field ++ byte ∷ [])) (read_of self.new) }
        ensures counted { OnOk result (IsCounted self.new) }
    {
        let Some(count) = self.read_number(byte) else {
            return Ok(());
        };
        if count == 0 {
            return Err(StepFault::Refused);
        }
        self.add(Stored::Run(hart, count), u64::from(count))
    }

    /// A byte of a tick's number.
    fn read_tick(&mut self, byte: u8) -> Result<(), StepFault>
        requires lines { AreLines (record { records = held self.old.store; end = self.old.end }) }
        requires short { length self.old.field < 4 }
        requires counted { IsCounted self.old }
        ensures gives { StepGives result (tick_read (read_of self.old) (self.old.field ++ byte ∷ [])) (read_of self.new) }
        ensures counted { OnOk result (IsCounted self.new) }
    {
        let Some(n) = self.read_number(byte) else {
            return Ok(());
        };
        if n == 0 {
            return Err(StepFault::Refused);
        }
        self.add(Stored::Tick(n), 1)
    }

    /// A byte of a number; the number where it is whole.
    fn read_number(&mut self, byte: u8) -> Option<u32>
        requires short { length self.old.field < 4 }
        ensures { (result, self.new) ≡ number_so_far self.old (self.old.field ++ byte ∷ []) }
    {
        self.field.push(byte);
        if self.field.len() < 4 {
            return None;
        }
        Some(self.field.number())
    }

    /// The device of a step.
    fn read_device(&mut self, step: DeviceStep, byte: u8) -> Result<(), StepFault>
        requires lines { AreLines (record { records = held self.old.store; end = self.old.end }) }
        requires counted { IsCounted self.old }
        ensures gives { StepGives result (device_read step (read_of self.old) byte) (read_of self.new) }
        ensures counted { OnOk result (IsCounted self.new) }
    {
        let Some(device) = DevNo::new(byte) else {
            return Err(StepFault::Refused);
        };
        self.add(Stored::Step(step, device), 1)
    }

    /// The device of what it heard from outside.
    fn read_outcome(&mut self, byte: u8) -> Result<(), StepFault>
        ensures gives { StepGives result (outcome_read (read_of self.old) byte) (read_of self.new) }
        ensures counted { IsCounted self.old → IsCounted self.new }
    {
        let Some(device) = DevNo::new(byte) else {
            return Err(StepFault::Refused);
        };
        self.move_to(Spot::Code(device));
        Ok(())
    }

    /// The code of what a device heard.
    fn read_code(&mut self, device: DevNo, byte: u8) -> Result<(), StepFault>
        ensures gives { StepGives result (code_read device (read_of self.old) byte) (read_of self.new) }
        ensures counted { IsCounted self.old → IsCounted self.new }
    {
        let code = match byte {
            0 => Code::Done,
            1 => Code::Failed,
            2 => Code::Bytes,
            3 => Code::Taken,
            _ => return Err(StepFault::Refused),
        };
        self.move_to(Spot::Length(device, code));
        Ok(())
    }

    /// A byte of the length behind a code.
    fn read_length(&mut self, device: DevNo, code: Code, byte: u8) -> Result<(), StepFault>
        requires lines { AreLines (record { records = held self.old.store; end = self.old.end }) }
        requires short { length self.old.field < 2 }
        requires counted { IsCounted self.old }
        ensures gives { StepGives result (length_read device code (read_of self.old) byte (self.old.field ++ byte ∷ [])) (read_of self.new) }
        ensures counted { OnOk result (IsCounted self.new) }
    {
        self.field.push(byte);
        if self.field.len() < 2 {
            if u16::from(byte) <= code.greatest_length() {
                return Ok(());
            }
            return Err(StepFault::Refused);
        }
        let length = self.field.short();
        if length > code.greatest_length() {
            return Err(StepFault::Refused);
        }
        self.end_length(device, code, length)
    }

    /// What a whole length leads to.
    fn end_length(&mut self, device: DevNo, code: Code, length: u16) -> Result<(), StepFault>
        requires lines { AreLines (record { records = held self.old.store; end = self.old.end }) }
        requires counted { IsCounted self.old }
        ensures gives { StepGives result (Some (with_length device code (read_of self.old) length)) (read_of self.new) }
        ensures counted { OnOk result (IsCounted self.new) }
    {
        match code {
            Code::Done => self.add(Stored::Done(device), 1),
            Code::Failed => self.add(Stored::Failed(device), 1),
            Code::Taken => self.add(Stored::Taken(device, length), 1),
            Code::Bytes => {
                if length == 0 {
                    self.field.clear();
                    return self.add_bytes(device);
                }
                self.move_to(Spot::Bytes(device, length));
                Ok(())
            }
        }
    }

    /// A byte of what a device heard.
    fn read_bytes(&mut self, device: DevNo, len: u16, byte: u8) -> Result<(), StepFault>
        requires lines { AreLines (record { records = held self.old.store; end = self.old.end }) }
        requires short { length self.old.field < len }
        requires few { len ≤ PIECE_BYTES }
        requires counted { IsCounted self.old }
        ensures gives { StepGives result (bytes_read device len (read_of self.old) (self.old.field ++ byte ∷ [])) (read_of self.new) }
        ensures counted { OnOk result (IsCounted self.new) }
    {
        self.field.push(byte);
        if self.field.len() < len as usize {
            return Ok(());
        }
        self.add_bytes(device)
    }

    /// The cause of an end line.
    fn read_cause(&mut self, byte: u8) -> Result<(), StepFault>
        requires counted { IsCounted self.old }
        ensures gives { StepGives result (cause_read (read_of self.old) byte) (read_of self.new) }
        ensures counted { OnOk result (IsCounted self.new) }
    {
        let why = match byte {
            1 => Why::Full,
            2 => Why::DebugLost,
            3 => Why::ListenFailed,
            4 => Why::CrewRefused,
            _ => return Err(StepFault::Refused),
        };
        self.end = Some(EndLine {
            records: self.store.records.len(),
            entries: self.events,
            why,
        });
        self.move_to(Spot::Line);
        Ok(())
    }

    /// Adds a record of so many events, which carries no bytes.
    fn add(&mut self, more: Stored, events: u64) -> Result<(), StepFault>
        requires lines { AreLines (record { records = held self.old.store; end = self.old.end }) }
        requires counted { IsCounted self.old }
        requires none { LiesIn 0 more }
        requires events { events ≡ length (entries_in (record_in [] more)) }
        requires few { events < 2 ^ 32 }
        ensures gives { StepGives result (Some (with_record (read_of self.old) (record_in [] more))) (read_of self.new) }
        ensures counted { OnOk result (IsCounted self.new) }
    {
        match self.store.keep(more) {
            Ok(()) => {}
            Err(_) => return Err(StepFault::Memory),
        }
        self.events += events;
        self.move_to(Spot::Line);
        Ok(())
    }

    /// Adds the record of the bytes that a device heard.
    fn add_bytes(&mut self, device: DevNo) -> Result<(), StepFault>
        requires lines { AreLines (record { records = held self.old.store; end = self.old.end }) }
        requires counted { IsCounted self.old }
        requires few { length self.old.field ≤ PIECE_BYTES }
        ensures gives { StepGives result (Some (with_record (read_of self.old) (One (entry_as.Did device (heard_as.Bytes self.old.field))))) (read_of self.new) }
        ensures counted { OnOk result (IsCounted self.new) }
    {
        match self.store.keep_bytes(device, self.field.as_slice()) {
            Ok(()) => {}
            Err(_) => return Err(StepFault::Memory),
        }
        self.events += 1;
        self.move_to(Spot::Line);
        Ok(())
    }

    /// Whether the last record is a run of this hart.
    fn ends_with_hart(&self, hart: u8) -> bool
        ensures { result ≡ is_of_hart (last_record (held self.now.store)) hart }
    {
        match self.store.last_run() {
            Some((last, _)) => hart == last.get(),
            None => false,
        }
    }
}

impl Code {
    /// The greatest length that may come behind it.
    fn greatest_length(self) -> u16
        ensures { result ≡ greatest_length self }
    {
        match self {
            Code::Done | Code::Failed => 0,
            Code::Bytes | Code::Taken => PIECE_BYTES as u16,
        }
    }
}
