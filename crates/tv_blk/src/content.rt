//! What comes back of a request: its content, and then its status.

ghost use Rattle.std.specs.Prelude.{◌≡◌, ◌≤◌, ◌<◌, ◌+◌, [], ◌++◌, length, replicate};
ghost use Rattle.tv_base.specs.declared.limits.TheConstants.{CHAIN_BYTES};
ghost use Rattle.tv_blk.specs.Requests.{response_of};
ghost use Rattle.tv_blk.specs.declared.request.Outcome.TheVariants as came;
ghost use Rattle.tv_plan.specs.Block.{response_bytes};
ghost use Rattle.tv_vring.specs.Rings.{with_answered};

use crate::request::Outcome;
use crate::sectors::SECTOR_BYTES;
use tv_vring::Vring;

/// The status of a request that was done (VIRTIO 1.2, section 5.2.6).
const DONE: u8 = 0;
/// The status of a request that was not done, or not whole.
const FAILED: u8 = 1;
/// The status of a request that the device doesn't know.
const UNSUPPORTED: u8 = 2;
/// How many zeros are answered at once.
const ZEROS: u32 = SECTOR_BYTES as u32;

/// Appends so many zeros to what is answered.
fn zeros(ring: &mut Vring, count: u32)
    requires room { length ring.old.answered + count ≤ CHAIN_BYTES }
    ensures { ring.new ≡ with_answered ring.old (ring.old.answered ++ replicate count 0) }
{
    for _ in 0..count / ZEROS {
        ring.answer(&[0; ZEROS as usize]);
    }
    ring.answer(&[0; ZEROS as usize][..(count % ZEROS) as usize]);
}

/// Answers with `len` bytes of content, which are these as far as there is room, and then zeros, and with the status.
#[tactic(auto, using(crate::proofs::Contents::padded))]
fn content(ring: &mut Vring, len: u32, bytes: &[u8], status: u8)
    requires room { len < CHAIN_BYTES }
    ensures { ring.new ≡ with_answered ring.old (response_bytes len (record { status = status; content = bytes.now })) }
{
    let given = bytes.len().min(len as usize);
    ring.answer_none();
    ring.answer(&bytes[..given]);
    zeros(ring, len - given as u32);
    ring.answer(&[status]);
}

/// Answers with `len` bytes of content and the status.
#[tactic(auto, using(crate::proofs::Contents::whole, crate::proofs::Contents::length_bytes))]
pub fn complete(ring: &mut Vring, len: u32, outcome: Outcome)
    requires room { len < CHAIN_BYTES }
    requires read { outcome ≡ came.Read → length ring.old.answered ≡ len }
    ensures ring { ring.new ≡ with_answered ring.old (response_bytes len (response_of ring.old.answered outcome)) }
    ensures len { length ring.new.answered ≡ len + 1 }
{
    match outcome {
        Outcome::Read => ring.answer(&[DONE]),
        Outcome::Done => content(ring, len, &[], DONE),
        Outcome::Named(bytes) => content(ring, len, &bytes, DONE),
        Outcome::Failed => content(ring, len, &[], FAILED),
        Outcome::Unsupported => content(ring, len, &[], UNSUPPORTED),
    }
}
