//! The bytes of a chain, in pieces.

ghost use Rattle.std.specs.Prelude.{◌≡◌, ◌≤◌, ◌<◌, ◌+◌, ◌++◌, length, drop, take, OnOk, vec_len, vec_capacity};
ghost use Rattle.tv_script.specs.Scripts.{AwaitsAll};
ghost use Rattle.tv_virtio.specs.Spans.{total, piece, pieces};
ghost use Rattle.tv_virtio.specs.Queue.{RanSo, read_pieces, read_spans, write_pieces, write_spans, with_value, read};

use crate::memory::{read, write};
use tv_base::{CHAIN_BYTES, PIECE_BYTES};
use tv_items::Bytes;
use tv_script::Port;
use tv_virtio::{QueueStop, Span};

/// [`PIECE_BYTES`], which is below 2^16.
const PIECE: u32 = PIECE_BYTES as u32;

/// Appends the bytes of a buffer, piece by piece.
fn read_span<P: Port>(span: Span, into: &mut Vec<u8>, port: &mut P) -> Result<(), QueueStop>
    requires room { vec_len into.old + span.len ≤ vec_capacity into.old }
    requires short { span.len ≤ CHAIN_BYTES }
    requires awaits { AwaitsAll (P.awaits port.old) (read_pieces (pieces span) into.old.items) }
    ensures ran { RanSo P.moved P.over P.stopped port.old (read_pieces (pieces span) into.old.items) port.new (with_value into.new.items result) }
    ensures len { OnOk result (vec_len into.new ≡ vec_len into.old + span.len) }
    ensures capacity { vec_capacity into.old ≤ vec_capacity into.new }
    ensures left { P.left port.new ≤ P.left port.old }
{
    let count = (span.len + (PIECE - 1)) / PIECE;
    for n in 0..count {
        let at = n * PIECE;
        let len = (span.len - at).min(PIECE);
        let bytes = read(port, span.addr.wrapping_add(u64::from(at)), len as u16)?;
        append(into, bytes.as_slice());
    }
    Ok(())
}

/// Appends bytes for which there is room.
pub fn append(into: &mut Vec<u8>, bytes: &[u8])
    requires room { vec_len into.old + length bytes.now ≤ vec_capacity into.old }
    ensures items { into.new.items ≡ into.old.items ++ bytes.now }
    ensures len { vec_len into.new ≡ vec_len into.old + length bytes.now }
    ensures capacity { vec_capacity into.old ≤ vec_capacity into.new }
{
    match into.extend_from_slice(bytes) {
        Ok(()) => {}
        Err(_) => unreachable!(),
    }
}

/// Appends the bytes of buffers, one after the other.
pub fn read_spans<P: Port>(
    spans: &[Span],
    into: &mut Vec<u8>,
    port: &mut P,
) -> Result<(), QueueStop>
    requires room { vec_len into.old + total spans.now ≤ vec_capacity into.old }
    requires short { total spans.now ≤ CHAIN_BYTES }
    requires awaits { AwaitsAll (P.awaits port.old) (read_spans spans.now into.old.items) }
    ensures ran { RanSo P.moved P.over P.stopped port.old (read_spans spans.now into.old.items) port.new (with_value into.new.items result) }
    ensures len { OnOk result (vec_len into.new ≡ vec_len into.old + total spans.now) }
    ensures capacity { vec_capacity into.old ≤ vec_capacity into.new }
    ensures left { P.left port.new ≤ P.left port.old }
{
    for span in spans {
        read_span(*span, into, port)?;
    }
    Ok(())
}

/// `len` bytes from the place `at` on.
fn part(bytes: &[u8], at: usize, len: usize) -> &[u8]
    requires { at + len ≤ length bytes.now }
    ensures { result.now ≡ take len (drop at bytes.now) }
{
    &bytes[at..at + len]
}

/// Writes a buffer, piece by piece.
fn write_span<P: Port>(span: Span, bytes: &[u8], port: &mut P) -> Result<(), QueueStop>
    requires len { length bytes.now ≡ span.len }
    requires short { span.len ≤ CHAIN_BYTES }
    requires awaits { AwaitsAll (P.awaits port.old) (write_pieces (pieces span) bytes.now) }
    ensures ran { RanSo P.moved P.over P.stopped port.old (write_pieces (pieces span) bytes.now) port.new result }
    ensures left { P.left port.new ≤ P.left port.old }
{
    let count = (span.len + (PIECE - 1)) / PIECE;
    for n in 0..count {
        let at = n * PIECE;
        let len = (span.len - at).min(PIECE);
        let piece = Bytes::of(part(bytes, at as usize, len as usize));
        write(port, span.addr.wrapping_add(u64::from(at)), piece)?;
    }
    Ok(())
}

/// Writes bytes to buffers, from the first byte of the first one on, as far as they go.
pub fn write_spans<P: Port>(spans: &[Span], bytes: &[u8], port: &mut P) -> Result<(), QueueStop>
    requires short { length bytes.now ≤ CHAIN_BYTES }
    requires awaits { AwaitsAll (P.awaits port.old) (write_spans spans.now bytes.now) }
    ensures ran { RanSo P.moved P.over P.stopped port.old (write_spans spans.now bytes.now) port.new result }
    ensures left { P.left port.new ≤ P.left port.old }
{
    let mut at = 0;
    for span in spans {
        let len = (span.len as usize).min(bytes.len() - at);
        let first = Span {
            addr: span.addr,
            len: len as u32,
        };
        write_span(first, part(bytes, at, len), port)?;
        at += len;
    }
    Ok(())
}
