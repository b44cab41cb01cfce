//! The frame of a request or a reply.

ghost use Rattle.std.specs.Prelude.{◌≡◌, ◌≤◌, ◌<◌, ◌+◌, ◌*◌, ◌^◌, ◌∷◌, ◌++◌, length, take, drop};
ghost use Rattle.byteorder.specs.Endian.{little_bytes};
ghost use Rattle.tv_ctl_wire.specs.Frames.{frame_bytes, request_body, reply_body, FitsStats, SpellsRequest, SpellsReply};
ghost use Rattle.tv_ctl_wire.specs.Reading as spec;
ghost use Rattle.tv_ctl_wire.specs.declared.Cut.TheVariants as cut;
ghost use Rattle.tv_ctl_wire.specs.declared.TheConstants.{HEAD_BYTES, FRAME_BYTES, VERSION};
ghost use Rattle.tv_items.specs.declared.stats.TheConstants.{STATS};
ghost use Rattle.tv_request.specs.Requests.{IsRequest, IsReply};

use crate::{FRAME_BYTES, HEAD_BYTES, VERSION};
use byteorder::{ByteOrder, LittleEndian};
use tv_items::Stats;
use tv_request::{ReplyFrame, Request};
use tv_wire::write_stats;

/// Writes the frame of a request to the start of `out`, and answers how many bytes it has; the bytes of `out` behind it stay.
/// An operation that has no meaning gets no body.
pub fn write_request(request: &Request, out: &mut [u8; FRAME_BYTES]) -> usize
    requires { IsRequest request.now }
    ensures size { result ≡ HEAD_BYTES + length (request_body request.now) }
    ensures written { take result out.new ≡ frame_bytes request.now.op request.now.id (request_body request.now) }
    ensures others { drop result out.new ≡ drop result out.old }
    ensures spelled { SpellsRequest (take result out.new) request.now }
    ensures back { spec.reading spec.requests (take result out.new) ≡ cut.Whole request.now result }
{
    let size = write_request_body(request, &mut out[HEAD_BYTES..]);
    write_head(request.op, request.id, size as u32, out);
    HEAD_BYTES + size
}

/// Writes the frame of a reply to the start of `out`, and answers how many bytes it has; the bytes of `out` behind it stay.
pub fn write_reply(reply: &ReplyFrame, out: &mut [u8; FRAME_BYTES]) -> usize
    requires { IsReply reply.now }
    ensures size { result ≡ HEAD_BYTES + length (reply_body reply.now) }
    ensures written { take result out.new ≡ frame_bytes reply.now.status reply.now.id (reply_body reply.now) }
    ensures others { drop result out.new ≡ drop result out.old }
    ensures spelled { SpellsReply (take result out.new) reply.now }
    ensures back { spec.reading spec.replies (take result out.new) ≡ cut.Whole reply.now result }
{
    let size = write_reply_body(reply, &mut out[HEAD_BYTES..]);
    write_head(reply.status, reply.id, size as u32, out);
    HEAD_BYTES + size
}

/// Writes what stands before a body of so many bytes.
fn write_head(code: u8, id: u64, body: u32, out: &mut [u8])
    requires room { HEAD_BYTES ≤ length out.old }
    requires few { body + HEAD_BYTES ≤ FRAME_BYTES }
    ensures { out.new ≡ (little_bytes 4 (10 + body) ++ (VERSION ∷ (code ∷ little_bytes 8 id))) ++ drop HEAD_BYTES out.old }
{
    LittleEndian::write_u32(out, 10 + body);
    out[4] = VERSION;
    write_byte_and_number(code, id, &mut out[5..]);
}

/// Writes a byte, and a number behind it.
fn write_byte_and_number(byte: u8, number: u64, out: &mut [u8])
    requires { 9 ≤ length out.old }
    ensures { out.new ≡ (byte ∷ little_bytes 8 number) ++ drop 9 out.old }
{
    out[0] = byte;
    LittleEndian::write_u64(&mut out[1..], number);
}

/// Writes a byte, and a number of four bytes behind it.
fn write_byte_and_pages(byte: u8, pages: u32, out: &mut [u8])
    requires { 5 ≤ length out.old }
    ensures { out.new ≡ (byte ∷ little_bytes 4 pages) ++ drop 5 out.old }
{
    out[0] = byte;
    LittleEndian::write_u32(&mut out[1..], pages);
}

/// Writes the body of a request to the start of `out`, and answers how many bytes it has.
#[tactic(auto, unfolding(tv_request::specs::Requests::is_request))]
fn write_request_body(request: &Request, out: &mut [u8]) -> usize
    requires legal { IsRequest request.now }
    requires room { 9 ≤ length out.old }
    ensures size { result ≡ length (request_body request.now) }
    ensures most { result ≤ 9 }
    ensures written { out.new ≡ request_body request.now ++ drop result out.old }
{
    match request.op {
        4 => {
            write_byte_and_pages(request.device, request.value as u32, out);
            5
        }
        5 => {
            out[0] = request.device;
            1
        }
        6 => {
            write_byte_and_number(request.device, request.value, out);
            9
        }
        _ => 0,
    }
}

/// Writes the body of a reply to the start of `out`, and answers how many bytes it has.
#[tactic(auto, using(crate::proofs::Replies::waiting_fits))]
fn write_reply_body(reply: &ReplyFrame, out: &mut [u8]) -> usize
    requires legal { IsReply reply.now }
    requires room { 1 + 10 * STATS ≤ length out.old }
    ensures size { result ≡ length (reply_body reply.now) }
    ensures most { result ≤ 1 + 10 * STATS }
    ensures written { out.new ≡ reply_body reply.now ++ drop result out.old }
    ensures fits { FitsStats reply.now.stats }
    ensures other { reply.now.other < 2 ^ 64 }
{
    let other = reply.other;
    if reply.status == 6 {
        LittleEndian::write_u64(out, other);
        return 8;
    }
    match &reply.stats {
        Some(stats) => write_stats(stats.as_slice(), out),
        None => 0,
    }
}
