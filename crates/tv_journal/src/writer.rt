//! The writer of a journal file: its bytes are gathered in a piece, which is put when it is full.

ghost use Rattle.std.specs.Prelude.{◌≡◌, ◌≢◌, ◌≤◌, ◌++◌, ◌∷◌, [], Some, None, OnOk, OnErr, length, flat_map};
ghost use Rattle.std.specs.List.{AllByRecursion};
ghost use Rattle.std.specs.Result.{is_err};
ghost use Rattle.tv_out.specs.Faults.{HasCause};
ghost use Rattle.tv_journal.specs.Grammar.{AreLines, EndFits, number, short, end_bytes, cause_byte, lines_bytes, closing_bytes, file_bytes};
ghost use Rattle.tv_journal.specs.Stores.{held, head_bytes, carried_bytes, stored_bytes, stored_lines, Lies, LiesIn};
ghost use Rattle.tv_journal.specs.Writing.{WritesOn, EndsIn, PutGives};

use crate::record::{EndLine, Store, Stored};
use arrayvec::ArrayVec;
use tv_base::{DevNo, PIECE_BYTES, Why};
use tv_out::{Failed, Sink};

/// Bytes that wait to be put.
pub type Piece = ArrayVec<u8, 4096>;

/// Puts what waits.
pub fn put_piece<K: Sink>(sink: &mut K, piece: &mut Piece) -> Result<(), Failed>
    ensures empty { OnOk result (piece.new.items ≡ []) }
    ensures ok { OnOk result (WritesOn [] (K.told sink.old) piece.old.items (K.told sink.new) []) }
    ensures err { OnErr result (EndsIn [] (K.told sink.old) piece.old.items (K.told sink.new)) }
    ensures cause { HasCause (K.told sink.old).faults (K.told sink.new).faults (is_err result) }
{
    if piece.is_empty() {
        return Ok(());
    }
    match sink.put(piece) {
        Ok(()) => {
            piece.clear();
            Ok(())
        }
        Err(_) => Err(Failed),
    }
}

/// Writes bytes, up to as many as a piece has.
pub fn write_bytes<K: Sink>(sink: &mut K, piece: &mut Piece, bytes: &[u8]) -> Result<(), Failed>
    requires fits { length bytes.now ≤ 4096 }
    ensures ok { OnOk result (WritesOn bytes.now (K.told sink.old) piece.old.items (K.told sink.new) piece.new.items) }
    ensures err { OnErr result (EndsIn bytes.now (K.told sink.old) piece.old.items (K.told sink.new)) }
    ensures cause { HasCause (K.told sink.old).faults (K.told sink.new).faults (is_err result) }
{
    if piece.len() + bytes.len() > PIECE_BYTES {
        put_piece(sink, piece)?;
    }
    match piece.try_extend_from_slice(bytes) {
        Ok(()) => Ok(()),
        Err(_) => unreachable!(),
    }
}

/// The bytes of a record, but for those that it carries.
fn line_of_record(more: Stored) -> ArrayVec<u8, 8>
    ensures { result.items ≡ head_bytes more }
{
    let mut line = ArrayVec::new();
    match more {
        Stored::Run(hart, count) => {
            line.push(0x01);
            line.push(hart.get());
            with_number(line, count)
        }
        Stored::Step(step, device) => {
            line.push(step.kind());
            line.push(device.get());
            line
        }
        Stored::Done(device) => line_of_outcome(device, 0, 0),
        Stored::Failed(device) => line_of_outcome(device, 1, 0),
        Stored::Bytes(device, len, _) => line_of_outcome(device, 2, len),
        Stored::Taken(device, count) => line_of_outcome(device, 3, count),
        Stored::Tick(n) => {
            line.push(0x0b);
            with_number(line, n)
        }
    }
}

/// Bytes with a number of four behind them.
fn with_number(mut line: ArrayVec<u8, 8>, n: u32) -> ArrayVec<u8, 8>
    requires { length line.items ≤ 4 }
    ensures { result.items ≡ line.items ++ number n }
{
    match line.try_extend_from_slice(&n.to_le_bytes()) {
        Ok(()) => line,
        Err(_) => unreachable!(),
    }
}

/// The bytes of what a device heard from outside: a code and a length.
fn line_of_outcome(device: DevNo, code: u8, length: u16) -> ArrayVec<u8, 8>
    ensures { result.items ≡ 0x0A ∷ device ∷ code ∷ short length }
{
    let mut line = ArrayVec::new();
    line.push(0x0a);
    line.push(device.get());
    line.push(code);
    match line.try_extend_from_slice(&length.to_le_bytes()) {
        Ok(()) => line,
        Err(_) => unreachable!(),
    }
}

/// The bytes that a record carries.
fn carried(payload: &[u8], more: Stored) -> &[u8]
    requires { LiesIn (length payload.now) more }
    ensures bytes { result.now ≡ carried_bytes payload.now more }
    ensures few { length result.now ≤ 4096 }
{
    match more {
        Stored::Bytes(_, len, at) => &payload[at..at + len as usize],
        _ => &[],
    }
}

/// The bytes of the end of a file.
fn line_of_count(count: u32) -> ArrayVec<u8, 8>
    ensures { result.items ≡ closing_bytes count }
{
    let mut line = ArrayVec::new();
    line.push(0x00);
    with_number(line, count)
}

/// Writes a record.
fn write_record<K: Sink>(
    sink: &mut K,
    piece: &mut Piece,
    payload: &[u8],
    more: &Stored,
) -> Result<(), Failed>
    requires lies { LiesIn (length payload.now) more.now }
    ensures ok { OnOk result (WritesOn (stored_bytes payload.now more.now) (K.told sink.old) piece.old.items (K.told sink.new) piece.new.items) }
    ensures err { OnErr result (EndsIn (stored_bytes payload.now more.now) (K.told sink.old) piece.old.items (K.told sink.new)) }
    ensures cause { HasCause (K.told sink.old).faults (K.told sink.new).faults (is_err result) }
{
    write_bytes(sink, piece, &line_of_record(*more))?;
    write_bytes(sink, piece, carried(payload, *more))
}

/// Writes records, one after the other.
pub fn write_records<K: Sink>(
    sink: &mut K,
    piece: &mut Piece,
    payload: &[u8],
    records: &[Stored],
) -> Result<(), Failed>
    requires lies { AllByRecursion (LiesIn (length payload.now)) records.now }
    ensures ok { OnOk result (WritesOn (flat_map (stored_bytes payload.now) records.now) (K.told sink.old) piece.old.items (K.told sink.new) piece.new.items) }
    ensures err { OnErr result (EndsIn (flat_map (stored_bytes payload.now) records.now) (K.told sink.old) piece.old.items (K.told sink.new)) }
    ensures cause { HasCause (K.told sink.old).faults (K.told sink.new).faults (is_err result) }
{
    for more in records {
        write_record(sink, piece, payload, more)?;
    }
    Ok(())
}

/// Writes an end line.
pub fn write_end<K: Sink>(sink: &mut K, piece: &mut Piece, end: EndLine) -> Result<(), Failed>
    requires cause { cause_byte end.why ≢ None }
    ensures ok { OnOk result (WritesOn (end_bytes end) (K.told sink.old) piece.old.items (K.told sink.new) piece.new.items) }
    ensures err { OnErr result (EndsIn (end_bytes end) (K.told sink.old) piece.old.items (K.told sink.new)) }
    ensures cause { HasCause (K.told sink.old).faults (K.told sink.new).faults (is_err result) }
{
    let cause = match end.why {
        Why::Full => 1,
        Why::DebugLost => 2,
        Why::ListenFailed => 3,
        Why::CrewRefused => 4,
        _ => unreachable!(),
    };
    write_bytes(sink, piece, &[0x10, cause])
}

/// Writes records with an end line among or after them.
fn write_around<K: Sink>(
    sink: &mut K,
    piece: &mut Piece,
    payload: &[u8],
    records: &[Stored],
    end: EndLine,
) -> Result<(), Failed>
    requires place { end.records ≤ length records.now }
    requires cause { cause_byte end.why ≢ None }
    requires lies { AllByRecursion (LiesIn (length payload.now)) records.now }
    ensures ok { OnOk result (WritesOn (stored_lines payload.now records.now (Some end)) (K.told sink.old) piece.old.items (K.told sink.new) piece.new.items) }
    ensures err { OnErr result (EndsIn (stored_lines payload.now records.now (Some end)) (K.told sink.old) piece.old.items (K.told sink.new)) }
    ensures cause { HasCause (K.told sink.old).faults (K.told sink.new).faults (is_err result) }
{
    let (before, after) = records.split_at(end.records);
    write_records(sink, piece, payload, before)?;
    write_end(sink, piece, end)?;
    write_records(sink, piece, payload, after)
}

/// Writes the lines of a file.
fn write_body<K: Sink>(
    sink: &mut K,
    piece: &mut Piece,
    store: &Store,
    end: Option<EndLine>,
) -> Result<(), Failed>
    requires fits { EndFits (held store.now) end }
    requires lies { Lies store.now }
    ensures ok { OnOk result (WritesOn (lines_bytes (held store.now) end) (K.told sink.old) piece.old.items (K.told sink.new) piece.new.items) }
    ensures err { OnErr result (EndsIn (lines_bytes (held store.now) end) (K.told sink.old) piece.old.items (K.told sink.new)) }
    ensures cause { HasCause (K.told sink.old).faults (K.told sink.new).faults (is_err result) }
{
    match end {
        Some(end) => write_around(sink, piece, &store.payload, &store.records, end),
        None => write_records(sink, piece, &store.payload, &store.records),
    }
}

/// Writes the end of the file, with the number of records.
fn write_closing<K: Sink>(sink: &mut K, piece: &mut Piece, count: u32) -> Result<(), Failed>
    ensures ok { OnOk result (WritesOn (closing_bytes count) (K.told sink.old) piece.old.items (K.told sink.new) []) }
    ensures err { OnErr result (EndsIn (closing_bytes count) (K.told sink.old) piece.old.items (K.told sink.new)) }
    ensures cause { HasCause (K.told sink.old).faults (K.told sink.new).faults (is_err result) }
{
    write_bytes(sink, piece, &line_of_count(count))?;
    put_piece(sink, piece)
}

/// Writes a file of these records with this end line.
pub fn write_lines<K: Sink>(sink: &mut K, store: &Store, end: Option<EndLine>) -> Result<(), Failed>
    requires are { AreLines (record { records = held store.now; end = end }) }
    requires lies { Lies store.now }
    ensures gives { PutGives result (file_bytes (record { records = held store.now; end = end })) (K.told sink.old) (K.told sink.new) }
    ensures cause { HasCause (K.told sink.old).faults (K.told sink.new).faults (is_err result) }
{
    let mut piece = Piece::new();
    write_bytes(sink, &mut piece, b"TVJ1")?;
    write_body(sink, &mut piece, store, end)?;
    write_closing(sink, &mut piece, store.records.len() as u32)
}
