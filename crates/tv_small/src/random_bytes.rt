//! Random bytes, which a device asks for in pieces.

ghost use Rattle.std.specs.Prelude.{◌≡◌, ◌≤◌, ◌<◌, [], length, IfOk, OnOk};
ghost use Rattle.tv_script.specs.Scripts.{AwaitsAll};
ghost use Rattle.tv_virtio.specs.Queue.{RanSo, with_value};
ghost use Rattle.tv_plan.specs.Entropy.{random, fill};
ghost use Rattle.tv_small.specs.Filling.{FilledSo};

use tv_base::{CHAIN_BYTES, PIECE_BYTES};
use tv_port::{Action, Bytes, Ended, Heard, Port};
use tv_vring::{QueueStop, Vring};

/// [`PIECE_BYTES`], which is below 2^16.
const PIECE: u32 = PIECE_BYTES as u32;

/// Gets `len` random bytes, 1 to [`PIECE_BYTES`].
#[tactic(auto, using(tv_script::proofs::Scripts::awaits_now, tv_script::proofs::Scripts::cut_here), unfolding(tv_script::specs::Scripts::Follows))]
fn random<P: Port>(port: &mut P, len: u16) -> Result<Bytes, QueueStop>
    requires some { 0 < len }
    requires fits { len ≤ PIECE_BYTES }
    requires awaits { AwaitsAll (P.awaits port.old) (random len) }
    ensures ran { RanSo P.moved P.over P.stopped port.old (random len) port.new result }
    ensures len { IfOk result (λ bytes. length bytes ≡ len) }
    ensures left { P.left port.new ≤ P.left port.old }
{
    match port.ask(&Action::Random { len }) {
        Ok(Heard::Bytes(bytes)) => Ok(bytes),
        Ok(_) => Err(QueueStop::Refused),
        Err(Ended) => Err(QueueStop::Ended),
    }
}

/// Answers the chain that was taken last with `len` random bytes, at most [`CHAIN_BYTES`], which are got piece by piece.
pub fn fill<P: Port>(ring: &mut Vring, len: u32, port: &mut P) -> Result<(), QueueStop>
    requires none { ring.old.answered ≡ [] }
    requires short { len ≤ CHAIN_BYTES }
    requires awaits { AwaitsAll (P.awaits port.old) (fill len) }
    ensures ran { RanSo P.moved P.over P.stopped port.old (fill len) port.new (with_value ring.new.answered result) }
    ensures ring { FilledSo ring.old ring.new }
    ensures len { OnOk result (length ring.new.answered ≡ len) }
    ensures left { P.left port.new ≤ P.left port.old }
{
    let count = (len + (PIECE - 1)) / PIECE;
    for n in 0..count {
        let bytes = random(port, (len - n * PIECE).min(PIECE) as u16)?;
        ring.answer(bytes.as_slice());
    }
    Ok(())
}
