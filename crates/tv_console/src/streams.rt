//! The streams of a console: bytes come in, and bytes go out in pieces.

ghost use Rattle.std.specs.Prelude.{◌≡◌, ◌≤◌, ◌<◌, ◌-◌, ◌*◌, length, take, drop, min, IfOk};
ghost use Rattle.tv_base.specs.declared.limits.TheConstants.{PIECE_BYTES};
ghost use Rattle.tv_script.specs.Scripts.{AwaitsAll};
ghost use Rattle.tv_virtio.specs.Queue.{RanSo};
ghost use Rattle.tv_plan.specs.Console.{input, put, put_all};

use tv_base::PIECE_BYTES;
use tv_port::{Action, Bytes, Ended, Heard, Port};
use tv_vring::QueueStop;

/// Gets at most `most` bytes of the input, 1 to [`PIECE_BYTES`]. There is none exactly where the input is at its end.
#[tactic(auto, using(tv_script::proofs::Scripts::awaits_now, tv_script::proofs::Scripts::cut_here), unfolding(tv_script::specs::Scripts::Follows))]
pub fn input<P: Port>(port: &mut P, most: u16) -> Result<Bytes, QueueStop>
    requires some { 0 < most }
    requires fits { most ≤ PIECE_BYTES }
    requires awaits { AwaitsAll (P.awaits port.old) (input most) }
    ensures ran { RanSo P.moved P.over P.stopped port.old (input most) port.new result }
    ensures few { IfOk result (λ bytes. length bytes ≤ most) }
    ensures left { P.left port.new ≤ P.left port.old }
{
    match port.ask(&Action::Input { most }) {
        Ok(Heard::Bytes(bytes)) => Ok(bytes),
        Ok(_) => Err(QueueStop::Refused),
        Err(Ended) => Err(QueueStop::Ended),
    }
}

/// Puts 1 to [`PIECE_BYTES`] bytes to the output; `false` where some of them are lost.
#[tactic(auto, using(tv_script::proofs::Scripts::awaits_now, tv_script::proofs::Scripts::cut_here), unfolding(tv_script::specs::Scripts::Follows))]
fn put<P: Port>(port: &mut P, bytes: Bytes) -> Result<bool, QueueStop>
    requires some { 0 < length bytes }
    requires awaits { AwaitsAll (P.awaits port.old) (put bytes) }
    ensures ran { RanSo P.moved P.over P.stopped port.old (put bytes) port.new result }
    ensures left { P.left port.new ≤ P.left port.old }
{
    match port.ask(&Action::Put { bytes }) {
        Ok(Heard::Done) => Ok(true),
        Ok(_) => Ok(false),
        Err(Ended) => Err(QueueStop::Ended),
    }
}

/// The bytes of the piece `n`, counted from 0.
fn piece(bytes: &[u8], n: usize) -> &[u8]
    requires { n * PIECE_BYTES < length bytes.now }
    ensures { result.now ≡ take (min (length bytes.now - n * PIECE_BYTES) PIECE_BYTES) (drop (n * PIECE_BYTES) bytes.now) }
{
    let at = n * PIECE_BYTES;
    let len = (bytes.len() - at).min(PIECE_BYTES);
    &bytes[at..at + len]
}

/// Puts bytes to the output, piece by piece; `false` where some of them are lost. No further piece is put then.
pub fn put_all<P: Port>(bytes: &[u8], port: &mut P) -> Result<bool, QueueStop>
    requires awaits { AwaitsAll (P.awaits port.old) (put_all bytes.now) }
    ensures ran { RanSo P.moved P.over P.stopped port.old (put_all bytes.now) port.new result }
    ensures left { P.left port.new ≤ P.left port.old }
{
    let count = (bytes.len() + (PIECE_BYTES - 1)) / PIECE_BYTES;
    for n in 0..count {
        if !put(port, Bytes::of(piece(bytes, n)))? {
            return Ok(false);
        }
    }
    Ok(true)
}
