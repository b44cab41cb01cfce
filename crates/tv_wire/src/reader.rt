//! The message that bytes spell.

ghost use Rattle.std.specs.Prelude.{◌≡◌, ◌≤◌, ◌<◌, ◌*◌, length, IfSome, IfNone};
ghost use Rattle.tv_items.specs.declared.stats.TheConstants.{STATS};
ghost use Rattle.tv_wire.specs.Reading as spec;
ghost use Rattle.tv_wire.specs.Spelling as rules;
ghost use Rattle.tv_wire.specs.Spelling.{SpellsMessage};
ghost use Rattle.tv_wire.specs.declared.Msg.{Msg};

use crate::{HEAD_BYTES, Msg};
use byteorder::{ByteOrder, LittleEndian};
use tv_base::{DISK_SECTORS, PIECE_BYTES, Width};
use tv_items::{Bytes, STATS, Stats};

/// The message that the bytes spell; `None` exactly where they spell none.
#[tactic(auto, using(crate::proofs::Found::found_is, crate::proofs::Found::none_is))]
pub fn decode(bytes: &[u8]) -> Option<Msg>
    ensures exact { result ≡ spec.reading bytes.now }
    ensures found { IfSome result (λ m. SpellsMessage bytes.now m) }
    ensures none { IfNone result ((m : Msg) → SpellsMessage bytes.now m → ⊥) }
{
    read_message(bytes)
}

/// The message that the bytes spell, by their kind.
fn read_message(bytes: &[u8]) -> Option<Msg>
    ensures { result ≡ spec.reading bytes.now }
{
    if bytes.len() < HEAD_BYTES {
        return None;
    }
    if usize::from(LittleEndian::read_u16(bytes)) + 2 != bytes.len() {
        return None;
    }
    let tag = LittleEndian::read_u32(&bytes[3..]);
    read_body(bytes[2], tag, &bytes[HEAD_BYTES..])
}

/// The message of a kind that a body spells.
#[tactic(auto, unfolding(crate::specs::Reading::body_read))]
fn read_body(kind: u8, tag: u32, body: &[u8]) -> Option<Msg>
    ensures exact { result ≡ spec.body_read kind tag body.now }
{
    match kind {
        1 => read_load(tag, body),
        2 => read_store(tag, body),
        3 => read_value(tag, body),
        4 => read_target(tag, body),
        6 => read_resize(tag, body),
        7 => read_answer(tag, body),
        8 => read_read(tag, body),
        9 => read_bytes(tag, body),
        10 => read_write(tag, body),
        11 => read_release(tag, body),
        12 => read_regain(tag, body),
        _ => read_bare(kind, tag, body),
    }
}

/// A message without a body.
fn read_bare(kind: u8, tag: u32, body: &[u8]) -> Option<Msg>
    ensures exact { result ≡ spec.bare_read kind tag body.now }
{
    if !body.is_empty() {
        return None;
    }
    match kind {
        5 => Some(Msg::Stats { tag }),
        13 => Some(Msg::MemDone { tag }),
        14 => Some(Msg::MemRefused { tag }),
        15 => Some(Msg::Raise { tag }),
        16 => Some(Msg::IrqDone { tag }),
        17 => Some(Msg::IrqRefused { tag }),
        _ => None,
    }
}

/// The width of so many bytes.
fn read_width(bytes: u8) -> Option<Width>
    ensures exact { result ≡ spec.width_read bytes }
{
    match bytes {
        1 => Some(Width::B1),
        2 => Some(Width::B2),
        4 => Some(Width::B4),
        8 => Some(Width::B8),
        _ => None,
    }
}

/// Whether an offset is a multiple of the width, and the access ends within 4096 bytes.
fn is_place(width: Width, off: u16) -> bool
    ensures { result ≡ rules.is_place width off }
{
    match width {
        Width::B1 => off <= 4095,
        Width::B2 => off % 2 == 0 && off <= 4094,
        Width::B4 => off % 4 == 0 && off <= 4092,
        Width::B8 => off % 8 == 0 && off <= 4088,
    }
}

/// Whether the bits above the width are 0.
fn is_value(width: Width, value: u64) -> bool
    ensures { result ≡ rules.is_value width value }
{
    match width {
        Width::B1 => value <= 0xff,
        Width::B2 => value <= 0xffff,
        Width::B4 => value <= 0xffff_ffff,
        Width::B8 => true,
    }
}

fn read_load(tag: u32, body: &[u8]) -> Option<Msg>
    ensures exact { result ≡ spec.load_read tag body.now }
{
    if body.len() != 3 {
        return None;
    }
    let width = read_width(body[0])?;
    let off = LittleEndian::read_u16(&body[1..]);
    if !is_place(width, off) {
        return None;
    }
    Some(Msg::Load { tag, width, off })
}

fn read_store(tag: u32, body: &[u8]) -> Option<Msg>
    ensures exact { result ≡ spec.store_read tag body.now }
{
    if body.len() != 11 {
        return None;
    }
    let width = read_width(body[0])?;
    let off = LittleEndian::read_u16(&body[1..]);
    let value = LittleEndian::read_u64(&body[3..]);
    if !is_place(width, off) || !is_value(width, value) {
        return None;
    }
    Some(Msg::Store {
        tag,
        width,
        off,
        value,
    })
}

fn read_value(tag: u32, body: &[u8]) -> Option<Msg>
    ensures exact { result ≡ spec.value_read tag body.now }
{
    if body.len() != 8 {
        return None;
    }
    Some(Msg::Value {
        tag,
        value: LittleEndian::read_u64(body),
    })
}

fn read_target(tag: u32, body: &[u8]) -> Option<Msg>
    ensures exact { result ≡ spec.target_read tag body.now }
{
    if body.len() != 4 {
        return None;
    }
    Some(Msg::Target {
        tag,
        pages: LittleEndian::read_u32(body),
    })
}

fn read_resize(tag: u32, body: &[u8]) -> Option<Msg>
    ensures exact { result ≡ spec.resize_read tag body.now }
{
    if body.len() != 4 {
        return None;
    }
    let sectors = LittleEndian::read_u32(body);
    if sectors == 0 || sectors > DISK_SECTORS {
        return None;
    }
    Some(Msg::Resize { tag, sectors })
}

fn read_read(tag: u32, body: &[u8]) -> Option<Msg>
    ensures exact { result ≡ spec.read_read tag body.now }
{
    if body.len() != 10 {
        return None;
    }
    let len = LittleEndian::read_u16(&body[8..]);
    if len == 0 || usize::from(len) > PIECE_BYTES {
        return None;
    }
    Some(Msg::Read {
        tag,
        addr: LittleEndian::read_u64(body),
        len,
    })
}

/// A length from 1 to [`PIECE_BYTES`], and then so many bytes.
fn read_piece(body: &[u8]) -> Option<Bytes>
    ensures exact { result ≡ spec.piece_read body.now }
{
    if body.len() < 3 || body.len() > PIECE_BYTES + 2 {
        return None;
    }
    if usize::from(LittleEndian::read_u16(body)) + 2 != body.len() {
        return None;
    }
    Some(Bytes::of(&body[2..]))
}

fn read_bytes(tag: u32, body: &[u8]) -> Option<Msg>
    ensures exact { result ≡ spec.bytes_read tag body.now }
{
    let bytes = read_piece(body)?;
    Some(Msg::Bytes { tag, bytes })
}

fn read_write(tag: u32, body: &[u8]) -> Option<Msg>
    ensures exact { result ≡ spec.write_read tag body.now }
{
    if body.len() < 8 {
        return None;
    }
    let addr = LittleEndian::read_u64(body);
    let bytes = read_piece(&body[8..])?;
    Some(Msg::Write { tag, addr, bytes })
}

fn read_release(tag: u32, body: &[u8]) -> Option<Msg>
    ensures exact { result ≡ spec.release_read tag body.now }
{
    if body.len() != 5 {
        return None;
    }
    let page = LittleEndian::read_u32(body);
    match body[4] {
        0 => Some(Msg::Release {
            tag,
            page,
            hold: false,
        }),
        1 => Some(Msg::Release {
            tag,
            page,
            hold: true,
        }),
        _ => None,
    }
}

fn read_regain(tag: u32, body: &[u8]) -> Option<Msg>
    ensures exact { result ≡ spec.regain_read tag body.now }
{
    if body.len() != 4 {
        return None;
    }
    Some(Msg::Regain {
        tag,
        page: LittleEndian::read_u32(body),
    })
}

fn read_answer(tag: u32, body: &[u8]) -> Option<Msg>
    ensures exact { result ≡ spec.answer_read tag body.now }
{
    if body.len() < 6 {
        return None;
    }
    let status = body[0];
    let other = LittleEndian::read_u32(&body[1..]);
    let count = body[5];
    if !is_answer(status, other, count) || body.len() != 6 + 10 * usize::from(count) {
        return None;
    }
    Some(Msg::Answer {
        tag,
        status,
        other,
        stats: read_pairs(count, &body[6..]),
    })
}

/// Whether an answer has this status beside these.
fn is_answer(status: u8, other: u32, count: u8) -> bool
    ensures { result ≡ rules.is_answer status other count }
{
    match status {
        0 => other == 0 && usize::from(count) <= STATS,
        5 | 7 => other == 0 && count == 0,
        6 => count == 0,
        _ => false,
    }
}

/// So many tags with their numbers, ten bytes each: tag u16, value u64.
pub fn read_pairs(count: u8, body: &[u8]) -> Stats
    requires few { count ≤ STATS }
    requires all { length body.now ≡ 10 * count }
    ensures { result ≡ spec.pairs_read count body.now }
{
    let mut stats = Stats::new();
    let mut at = 0;
    for _ in 0..count {
        let tag = LittleEndian::read_u16(&body[at..]);
        let value = LittleEndian::read_u64(&body[at + 2..]);
        let _added = stats.push(tag, value);
        at += 10;
    }
    stats
}
