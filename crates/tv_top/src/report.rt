//! The line that goes to the error output.

ghost use Rattle.std.specs.Prelude.{◌≡◌, ◌≤◌, ◌<◌, ◌++◌, Some, IfSome, IfNone, codes, decimal, length};
ghost use Rattle.tv_top.specs.Refusals.{fault_text, line, refused_by, refused_line};
ghost use Rattle.tv_top.specs.Texts.{IsSaid, bad_line, end_line, run_line};

use crate::refusal::Refusal;
use crate::run::Run;
use arrayvec::ArrayVec;
use itoa::Buffer;
use tv_base::{Failed, PIECE_BYTES, Why};
use tv_machine_file::FileFault;
use tv_out::{Sink, put_all};

/// Says that the words are no command line.
pub fn say_bad_line<E: Sink>(err: &mut E)
    ensures { IsSaid bad_line (E.told err.old) (E.told err.new) }
{
    say(err, b"bad command line", b"", b"\n");
}

/// Says what a run came to; one that was switched off says nothing.
pub fn say_run<E: Sink>(err: &mut E, run: &Run)
    ensures { IsSaid (run_line run.now) (E.told err.old) (E.told err.new) }
{
    if run.ran.lost || !run.saved {
        say(err, b"cannot write", b"", b"\n");
        return;
    }
    say_end(err, run.steps, run.ran.journal.records(), run.cause());
}

/// Says for which cause a run ended, with its limit of events and the number of its records.
fn say_end<E: Sink>(err: &mut E, steps: u32, records: u32, why: Why)
    ensures { IsSaid (end_line steps records why) (E.told err.old) (E.told err.new) }
{
    match why {
        Why::PowerOff | Why::Stopped => {}
        Why::Failed(code) => say_number(err, b"guest failed with code ", u32::from(code), b"\n"),
        Why::Lost(_) | Why::DebugLost => say(err, b"cannot write", b"", b"\n"),
        Why::Steps => say_number(err, b"step limit ", steps, b"\n"),
        Why::Full => say_number(err, b"journal full after ", records, b" records\n"),
        Why::ListenFailed => say(err, b"cannot listen", b"", b"\n"),
        Why::CrewRefused => say(err, b"cannot start workers", b"", b"\n"),
    }
}

/// Says why a command is refused.
pub fn say_refusal<E: Sink>(err: &mut E, refusal: &Refusal<'_>)
    ensures { IsSaid (refused_line (refused_by refusal.now)) (E.told err.old) (E.told err.new) }
{
    match refusal {
        Refusal::Unreadable(name) => say(err, b"cannot read ", name.as_bytes(), b"\n"),
        Refusal::TooLong => say(err, b"machine file: ", b"too long", b"\n"),
        Refusal::Faulty(fault) => say_fault(err, fault),
        Refusal::Misfit => say(err, b"image does not fit", b"", b"\n"),
        Refusal::NoJournal(at) => say(
            err,
            b"bad journal at byte ",
            Buffer::new().format(*at).as_bytes(),
            b"\n",
        ),
        Refusal::Illegal(record) => say(
            err,
            b"illegal entry ",
            Buffer::new().format(*record).as_bytes(),
            b"\n",
        ),
        Refusal::Unwritable => say(err, b"cannot write", b"", b"\n"),
        Refusal::OutOfMemory => say(err, b"out of memory", b"", b"\n"),
    }
}

/// Says which fault a machine file has.
fn say_fault<E: Sink>(err: &mut E, fault: &FileFault)
    ensures { IsSaid (line (codes "machine file: " ++ fault_text fault.now)) (E.told err.old) (E.told err.new) }
{
    let (text, key) = parts_of(fault);
    say(err, text, key, b"\n");
}

/// What is said of a fault of a machine file: a text, and the path of its key.
fn parts_of(fault: &FileFault) -> (&[u8], &[u8])
    ensures { result.0.now ++ result.1.now ≡ codes "machine file: " ++ fault_text fault.now }
{
    match fault {
        FileFault::NotToml => (b"machine file: not TOML", b""),
        FileFault::Unknown(key) => (b"machine file: unknown key ", key.as_str().as_bytes()),
        FileFault::Missing(key) => (b"machine file: missing key ", key.as_str().as_bytes()),
        FileFault::Kind(key) => (b"machine file: wrong kind at ", key.as_str().as_bytes()),
        FileFault::Range(key) => (b"machine file: out of range at ", key.as_str().as_bytes()),
        FileFault::Twice(key) => (b"machine file: given twice at ", key.as_str().as_bytes()),
        FileFault::Overlap(key) => (b"machine file: overlap at ", key.as_str().as_bytes()),
        FileFault::Memory => (b"machine file: out of memory", b""),
    }
}

/// Says a text with a number in it.
fn say_number<E: Sink>(err: &mut E, text: &[u8], number: u32, end: &[u8])
    ensures { IsSaid (codes "tv: " ++ (text.now ++ (decimal number ++ end.now))) (E.told err.old) (E.told err.new) }
{
    say(err, text, Buffer::new().format(number).as_bytes(), end);
}

/// Puts `tv: ` and the three parts of a text, of which the last has the newline; by one put where the line is no longer
/// than a piece. A fault of the sink changes nothing else.
fn say<E: Sink>(err: &mut E, text: &[u8], more: &[u8], end: &[u8])
    ensures { IsSaid (codes "tv: " ++ (text.now ++ (more.now ++ end.now))) (E.told err.old) (E.told err.new) }
{
    match short_line(text, more, end) {
        Some(line) => {
            let _ = err.put(&line);
        }
        None => {
            let _ = say_in_parts(err, text, more, end);
        }
    }
}

/// The line of three parts, where it is no longer than a piece.
fn short_line(text: &[u8], more: &[u8], end: &[u8]) -> Option<ArrayVec<u8, PIECE_BYTES>>
    ensures line { IfSome result (λ line. line.items ≡ codes "tv: " ++ (text.now ++ (more.now ++ end.now))) }
    ensures short { IfSome result (λ line. length line.items ≤ PIECE_BYTES) }
    ensures long { IfNone result (PIECE_BYTES < length (codes "tv: " ++ (text.now ++ (more.now ++ end.now)))) }
{
    let mut line = ArrayVec::new();
    line.try_extend_from_slice(b"tv: ").ok()?;
    line.try_extend_from_slice(text).ok()?;
    line.try_extend_from_slice(more).ok()?;
    line.try_extend_from_slice(end).ok()?;
    Some(line)
}

/// Puts a line in its parts.
fn say_in_parts<E: Sink>(err: &mut E, text: &[u8], more: &[u8], end: &[u8]) -> Result<(), Failed>
    requires { PIECE_BYTES < length (codes "tv: " ++ (text.now ++ (more.now ++ end.now))) }
    ensures { IsSaid (codes "tv: " ++ (text.now ++ (more.now ++ end.now))) (E.told err.old) (E.told err.new) }
{
    put_all(err, b"tv: ")?;
    put_all(err, text)?;
    put_all(err, more)?;
    put_all(err, end)
}
