//! The bytes that spell a message.

ghost use Rattle.std.specs.Prelude.{◌≡◌, ◌≤◌, ◌+◌, ◌*◌, ◌∷◌, ◌++◌, Some, length, flat_map, take, drop};
ghost use Rattle.byteorder.specs.Endian.{little_bytes};
ghost use Rattle.tv_base.specs.Width.{width_bytes};
ghost use Rattle.tv_base.specs.declared.limits.TheConstants.{PIECE_BYTES, TUBE_MESSAGE_BYTES};
ghost use Rattle.tv_items.specs.declared.stats.TheConstants.{STATS};
ghost use Rattle.tv_wire.specs.declared.TheConstants.{HEAD_BYTES};
ghost use Rattle.tv_wire.specs.Reading.{reading};
ghost use Rattle.tv_wire.specs.Spelling.{parts_of, message_bytes, pair_bytes, piece_bytes, IsMessage, SpellsMessage, FitsBody, FitPairs};

use crate::{HEAD_BYTES, Msg};
use byteorder::{ByteOrder, LittleEndian};
use tv_base::Width;
use tv_items::Stats;
use tv_tube::PLACE_BYTES;

/// Writes the bytes of a message to the start of `out`, and answers how many they are; the bytes of `out` behind them stay.
/// They are read as this message, where its parts are those of one.
#[tactic(auto, unfolding(crate::specs::Spelling::message_bytes))]
pub fn encode(msg: &Msg, out: &mut [u8; PLACE_BYTES]) -> usize
    ensures size { result ≡ length (message_bytes msg.now) }
    ensures most { result ≤ TUBE_MESSAGE_BYTES }
    ensures written { take result out.new ≡ message_bytes msg.now }
    ensures others { drop result out.new ≡ drop result out.old }
    ensures spelled { IsMessage msg.now → SpellsMessage (take result out.new) msg.now }
    ensures back { IsMessage msg.now → reading (take result out.new) ≡ Some msg.now }
{
    let size = write_body(msg, &mut out[HEAD_BYTES..]);
    write_head(kind_of(msg), tag_of(msg), size as u16, out);
    HEAD_BYTES + size
}

/// Writes what stands before a body of so many bytes.
fn write_head(kind: u8, tag: u32, body: u16, out: &mut [u8])
    requires room { HEAD_BYTES ≤ length out.old }
    requires few { body + HEAD_BYTES ≤ TUBE_MESSAGE_BYTES }
    ensures { out.new ≡ (little_bytes 2 (5 + body) ++ (kind ∷ little_bytes 4 tag)) ++ drop HEAD_BYTES out.old }
{
    LittleEndian::write_u16(out, 5 + body);
    write_byte_and_number(kind, tag, &mut out[2..]);
}

/// Writes a byte, and a number behind it.
fn write_byte_and_number(byte: u8, number: u32, out: &mut [u8])
    requires { 5 ≤ length out.old }
    ensures { out.new ≡ (byte ∷ little_bytes 4 number) ++ drop 5 out.old }
{
    out[0] = byte;
    LittleEndian::write_u32(&mut out[1..], number);
}

/// The byte of a message's kind.
fn kind_of(msg: &Msg) -> u8
    ensures { result ≡ (parts_of msg.now).kind }
{
    match msg {
        Msg::Load { .. } => 1,
        Msg::Store { .. } => 2,
        Msg::Value { .. } => 3,
        Msg::Target { .. } => 4,
        Msg::Stats { .. } => 5,
        Msg::Resize { .. } => 6,
        Msg::Answer { .. } => 7,
        Msg::Read { .. } => 8,
        Msg::Bytes { .. } => 9,
        Msg::Write { .. } => 10,
        Msg::Release { .. } => 11,
        Msg::Regain { .. } => 12,
        Msg::MemDone { .. } => 13,
        Msg::MemRefused { .. } => 14,
        Msg::Raise { .. } => 15,
        Msg::IrqDone { .. } => 16,
        Msg::IrqRefused { .. } => 17,
    }
}

/// A message's tag.
fn tag_of(msg: &Msg) -> u32
    ensures { result ≡ (parts_of msg.now).tag }
{
    match msg {
        Msg::Load { tag, .. }
        | Msg::Store { tag, .. }
        | Msg::Value { tag, .. }
        | Msg::Target { tag, .. }
        | Msg::Stats { tag }
        | Msg::Resize { tag, .. }
        | Msg::Answer { tag, .. }
        | Msg::Read { tag, .. }
        | Msg::Bytes { tag, .. }
        | Msg::Write { tag, .. }
        | Msg::Release { tag, .. }
        | Msg::Regain { tag, .. }
        | Msg::MemDone { tag }
        | Msg::MemRefused { tag }
        | Msg::Raise { tag }
        | Msg::IrqDone { tag }
        | Msg::IrqRefused { tag } => *tag,
    }
}

/// Writes the bytes of a message's body to the start of `out`, and answers how many they are.
fn write_body(msg: &Msg, out: &mut [u8]) -> usize
    requires { TUBE_MESSAGE_BYTES ≤ length out.old + HEAD_BYTES }
    ensures size { result ≡ length (parts_of msg.now).body }
    ensures most { result + HEAD_BYTES ≤ TUBE_MESSAGE_BYTES }
    ensures written { out.new ≡ (parts_of msg.now).body ++ drop result out.old }
    ensures fits { FitsBody msg.now }
{
    match msg {
        Msg::Load { width, off, .. } => {
            write_access(*width, *off, out);
            3
        }
        Msg::Store {
            width,
            off,
            value,
            ..
        } => {
            write_store(*width, *off, *value, out);
            11
        }
        Msg::Value { value, .. } => {
            LittleEndian::write_u64(out, *value);
            8
        }
        Msg::Target { pages: number, .. }
        | Msg::Resize {
            sectors: number,
            ..
        }
        | Msg::Regain { page: number, .. } => {
            LittleEndian::write_u32(out, *number);
            4
        }
        Msg::Answer {
            status,
            other,
            stats,
            ..
        } => write_answer(*status, *other, stats, out),
        Msg::Read { addr, len, .. } => {
            LittleEndian::write_u64(out, *addr);
            LittleEndian::write_u16(&mut out[8..], *len);
            10
        }
        Msg::Bytes { bytes, .. } => write_piece(bytes.as_slice(), out),
        Msg::Write { addr, bytes, .. } => {
            LittleEndian::write_u64(out, *addr);
            8 + write_piece(bytes.as_slice(), &mut out[8..])
        }
        Msg::Release { page, hold, .. } => {
            LittleEndian::write_u32(out, *page);
            out[4] = u8::from(*hold);
            5
        }
        Msg::Stats { .. }
        | Msg::MemDone { .. }
        | Msg::MemRefused { .. }
        | Msg::Raise { .. }
        | Msg::IrqDone { .. }
        | Msg::IrqRefused { .. } => 0,
    }
}

/// Writes how many bytes an access has, and its offset.
fn write_access(width: Width, off: u16, out: &mut [u8])
    requires { 3 ≤ length out.old }
    ensures { out.new ≡ (width_bytes width ∷ little_bytes 2 off) ++ drop 3 out.old }
{
    out[0] = width.bytes();
    LittleEndian::write_u16(&mut out[1..], off);
}

/// Writes how many bytes an access has, its offset and its value.
fn write_store(width: Width, off: u16, value: u64, out: &mut [u8])
    requires { 11 ≤ length out.old }
    ensures { out.new ≡ (width_bytes width ∷ (little_bytes 2 off ++ little_bytes 8 value)) ++ drop 11 out.old }
{
    out[0] = width.bytes();
    write_numbers(off, value, &mut out[1..]);
}

/// Writes how many bytes there are, and then the bytes; answers how many that makes.
fn write_piece(bytes: &[u8], out: &mut [u8]) -> usize
    requires few { length bytes.now ≤ PIECE_BYTES }
    requires room { PIECE_BYTES + 2 ≤ length out.old }
    ensures size { result ≡ 2 + length bytes.now }
    ensures written { out.new ≡ piece_bytes bytes.now ++ drop result out.old }
{
    let end = 2 + bytes.len();
    LittleEndian::write_u16(out, bytes.len() as u16);
    out[2..end].copy_from_slice(bytes);
    end
}

/// Writes a status, the tag of a request that waits, and the numbers; answers how many bytes they make.
fn write_answer(status: u8, other: u32, stats: &Stats, out: &mut [u8]) -> usize
    requires { 6 + 10 * STATS ≤ length out.old }
    ensures size { result ≡ 6 + 10 * length stats.now }
    ensures few { length stats.now ≤ STATS }
    ensures fits { FitPairs stats.now }
    ensures written { out.new ≡ (status ∷ (little_bytes 4 other ++ (length stats.now ∷ flat_map pair_bytes stats.now))) ++ drop result out.old }
{
    write_byte_and_number(status, other, out);
    5 + write_stats(stats.as_slice(), &mut out[5..])
}

/// Writes how many numbers there are, and each behind its tag, at the start of `out`; answers how many bytes that makes.
pub fn write_stats(pairs: &[(u16, u64)], out: &mut [u8]) -> usize
    requires few { length pairs.now ≤ STATS }
    requires room { 1 + 10 * STATS ≤ length out.old }
    ensures size { result ≡ 1 + 10 * length pairs.now }
    ensures fits { FitPairs pairs.now }
    ensures written { out.new ≡ (length pairs.now ∷ flat_map pair_bytes pairs.now) ++ drop result out.old }
{
    out[0] = pairs.len() as u8;
    1 + write_pairs(pairs, &mut out[1..])
}

/// Writes numbers, each behind its tag; answers how many bytes they make.
fn write_pairs(pairs: &[(u16, u64)], out: &mut [u8]) -> usize
    requires few { length pairs.now ≤ STATS }
    requires room { 10 * STATS ≤ length out.old }
    ensures size { result ≡ 10 * length pairs.now }
    ensures fits { FitPairs pairs.now }
    ensures written { out.new ≡ flat_map pair_bytes pairs.now ++ drop result out.old }
{
    let mut at = 0;
    for pair in pairs {
        let (tag, value) = *pair;
        write_numbers(tag, value, &mut out[at..]);
        at += 10;
    }
    at
}

/// Writes a number of two bytes, and one of eight behind it.
fn write_numbers(first: u16, second: u64, out: &mut [u8])
    requires { 10 ≤ length out.old }
    ensures { out.new ≡ pair_bytes (first, second) ++ drop 10 out.old }
{
    LittleEndian::write_u16(out, first);
    LittleEndian::write_u64(&mut out[2..], second);
}
