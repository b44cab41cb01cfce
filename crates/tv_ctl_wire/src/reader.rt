//! The frame that bytes begin with.

ghost use Rattle.std.specs.Prelude.{◌≡◌, ◌≤◌, ◌<◌, ◌+◌, ◌==◌, ◌++◌, ℕ, IsTrue, false, if◌then◌else◌, List, Option, Some, None, length, drop, slice_index};
ghost use Rattle.byteorder.specs.Endian.{little_number};
ghost use Rattle.tv_ctl_wire.specs.Cuts.{CutSo};
ghost use Rattle.tv_ctl_wire.specs.Frames.{SpellsRequest, SpellsReply};
ghost use Rattle.tv_ctl_wire.specs.Reading as spec;
ghost use Rattle.tv_ctl_wire.specs.declared.Cut.TheVariants as cut;
ghost use Rattle.tv_ctl_wire.specs.declared.TheConstants.{HEAD_BYTES};
ghost use Rattle.tv_wire.specs.Reading.{pairs_read};
ghost use Rattle.tv_request.specs.declared.Request.{Request};
ghost use Rattle.tv_request.specs.declared.ReplyFrame.{ReplyFrame};

use crate::{Cut, HEAD_BYTES, VERSION};
use byteorder::{ByteOrder, LittleEndian};
use tv_items::Stats;
use tv_request::{ReplyFrame, Request};
use tv_wire::read_pairs;

/// The request that the bytes begin with, and how many bytes its frame has; or that they begin with none.
#[tactic(auto, using(crate::proofs::Requests::cut_is))]
pub fn read_request(bytes: &[u8]) -> Cut<Request>
    ensures exact { result ≡ spec.reading spec.requests bytes.now }
    ensures cut { CutSo Request SpellsRequest bytes.now result }
    ensures front { (frame rest : List ℕ) (request : Request) → SpellsRequest frame request → bytes.now ≡ frame ++ rest → result ≡ cut.Whole request (length frame) }
{
    cut_request(bytes)
}

/// The reply that the bytes begin with, and how many bytes its frame has; or that they begin with none.
#[tactic(auto, using(crate::proofs::Replies::cut_is))]
pub fn read_reply(bytes: &[u8]) -> Cut<ReplyFrame>
    ensures exact { result ≡ spec.reading spec.replies bytes.now }
    ensures cut { CutSo ReplyFrame SpellsReply bytes.now result }
    ensures front { (frame rest : List ℕ) (reply : ReplyFrame) → SpellsReply frame reply → bytes.now ≡ frame ++ rest → result ≡ cut.Whole reply (length frame) }
{
    cut_reply(bytes)
}

fn cut_request(bytes: &[u8]) -> Cut<Request>
    ensures { result ≡ spec.reading spec.requests bytes.now }
{
    if !begins_request(bytes) {
        return Cut::Bad;
    }
    if bytes.len() < 2 {
        return Cut::More;
    }
    let end = usize::from(LittleEndian::read_u16(bytes)) + 4;
    if bytes.len() < end {
        return Cut::More;
    }
    Cut::Whole(request_of(&bytes[..end]), end)
}

fn cut_reply(bytes: &[u8]) -> Cut<ReplyFrame>
    ensures { result ≡ spec.reading spec.replies bytes.now }
{
    if !begins_reply(bytes) {
        return Cut::Bad;
    }
    if bytes.len() < 2 {
        return Cut::More;
    }
    let end = usize::from(LittleEndian::read_u16(bytes)) + 4;
    if bytes.len() < end {
        return Cut::More;
    }
    Cut::Whole(reply_of(&bytes[..end]), end)
}

/// Whether what there is of a length's high bytes and of the version is that of a frame.
#[tactic(auto, unfolding(crate::specs::Reading::opens))]
fn opens(bytes: &[u8]) -> bool
    ensures { result ≡ spec.opens bytes.now }
{
    (bytes.len() <= 2 || bytes[2] == 0)
        && (bytes.len() <= 3 || bytes[3] == 0)
        && (bytes.len() <= 4 || bytes[4] == VERSION)
}

/// Whether the bytes are the front of a request, or have one at their front.
#[tactic(auto, unfolding(crate::specs::Reading::sized, crate::specs::Reading::coded, crate::specs::Reading::counted))]
fn begins_request(bytes: &[u8]) -> bool
    ensures { result ≡ spec.begins spec.requests bytes.now }
{
    if bytes.len() < 2 {
        return true;
    }
    let size = LittleEndian::read_u16(bytes);
    (10..=4096).contains(&size) && opens(bytes) && (bytes.len() <= 5 || is_size_of(bytes[5], size))
}

/// Whether a request of this operation has this length behind itself.
fn is_size_of(op: u8, size: u16) -> bool
    ensures { result ≡ spec.is_size_of op size }
{
    match op {
        1 | 2 | 3 => size == 10,
        4 => size == 15,
        5 => size == 11,
        6 => size == 19,
        _ => true,
    }
}

/// The request of a whole frame.
#[tactic(auto, unfolding(crate::specs::Reading::request_of))]
fn request_of(frame: &[u8]) -> Request
    requires long { HEAD_BYTES ≤ length frame.now }
    requires body { IsTrue (spec.is_size_of (slice_index frame.now 5) (little_number 2 frame.now)) }
    requires size { length frame.now ≡ little_number 2 frame.now + 4 }
    ensures { result ≡ spec.request_of frame.now }
{
    let op = frame[5];
    let id = LittleEndian::read_u64(&frame[6..]);
    let (device, value) = match op {
        4 => (frame[14], u64::from(LittleEndian::read_u32(&frame[15..]))),
        5 => (frame[14], 0),
        6 => (frame[14], LittleEndian::read_u64(&frame[15..])),
        _ => (0, 0),
    };
    Request {
        op,
        id,
        device,
        value,
    }
}

/// Whether a reply has this length behind itself for a list of numbers: 11, and ten more for each, at most 32.
fn is_stats_size(size: u16) -> bool
    ensures { result ≡ spec.is_stats_size size }
{
    (11..=331).contains(&size) && size % 10 == 1
}

/// Whether a reply has this length behind itself.
fn is_reply_size(size: u16) -> bool
    ensures { result ≡ spec.is_reply_size size }
{
    size == 10 || size == 18 || is_stats_size(size)
}

/// Whether a reply's length may begin with this byte.
fn is_first_of_reply(byte: u8) -> bool
    ensures { result ≡ spec.begins_reply byte }
{
    is_reply_size(u16::from(byte)) || is_stats_size(256 + u16::from(byte))
}

/// Whether a reply with this status has this length behind itself.
fn is_size_of_status(status: u8, size: u16) -> bool
    ensures { result ≡ spec.is_size_of_status status size }
{
    match status {
        0 => size == 10 || is_stats_size(size),
        6 => size == 18,
        _ => status <= 9 && size == 10,
    }
}

/// Whether this byte may begin the body of a reply with this status and length.
fn is_count(status: u8, size: u16, byte: u8) -> bool
    ensures { result ≡ spec.is_count status size byte }
{
    status != 0 || !is_stats_size(size) || size == 11 + 10 * u16::from(byte)
}

/// Whether the bytes are the front of a reply, or have one at their front.
#[tactic(auto, unfolding(crate::specs::Reading::sized, crate::specs::Reading::coded, crate::specs::Reading::counted))]
fn begins_reply(bytes: &[u8]) -> bool
    ensures { result ≡ spec.begins spec.replies bytes.now }
{
    if bytes.len() < 2 {
        return bytes.is_empty() || is_first_of_reply(bytes[0]);
    }
    let size = LittleEndian::read_u16(bytes);
    is_reply_size(size)
        && opens(bytes)
        && (bytes.len() <= 5 || is_size_of_status(bytes[5], size))
        && (bytes.len() <= 14 || is_count(bytes[5], size, bytes[14]))
}

/// The numbers of a whole frame whose status is 0; none where it has no body.
fn stats_of(frame: &[u8]) -> Option<Stats>
    requires long { HEAD_BYTES ≤ length frame.now }
    requires status { IsTrue (spec.is_size_of_status (slice_index frame.now 5) (little_number 2 frame.now)) }
    requires other { (slice_index frame.now 5 == 6) ≡ false }
    requires count { IsTrue (spec.counted spec.replies frame.now) }
    requires size { length frame.now ≡ little_number 2 frame.now + 4 }
    ensures { result ≡ (if length frame.now == HEAD_BYTES then None else Some (pairs_read (slice_index frame.now 14) (drop 15 frame.now))) }
{
    if frame.len() == HEAD_BYTES {
        return None;
    }
    Some(read_pairs(frame[14], &frame[15..]))
}

/// The reply of a whole frame.
#[tactic(auto, unfolding(crate::specs::Reading::reply_of))]
fn reply_of(frame: &[u8]) -> ReplyFrame
    requires long { HEAD_BYTES ≤ length frame.now }
    requires status { IsTrue (spec.is_size_of_status (slice_index frame.now 5) (little_number 2 frame.now)) }
    requires count { IsTrue (spec.counted spec.replies frame.now) }
    requires size { length frame.now ≡ little_number 2 frame.now + 4 }
    ensures { result ≡ spec.reply_of frame.now }
{
    let status = frame[5];
    let id = LittleEndian::read_u64(&frame[6..]);
    if status == 6 {
        return ReplyFrame {
            status,
            id,
            other: LittleEndian::read_u64(&frame[14..]),
            stats: None,
        };
    }
    ReplyFrame {
        status,
        id,
        other: 0,
        stats: stats_of(frame),
    }
}
