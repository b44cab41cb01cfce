//! Single reads and writes of guest memory.

ghost use Rattle.std.specs.Prelude.{◌≡◌, ◌≤◌, ◌<◌, length, IfOk, OnOk};
ghost use Rattle.tv_script.specs.Scripts.{AwaitsAll};
ghost use Rattle.tv_virtio.specs.Queue.{RanSo, read, number, write};

use byteorder::{ByteOrder, LittleEndian};
use tv_base::PIECE_BYTES;
use tv_items::{Action, Bytes, Heard};
use tv_script::{Ended, Port};
use tv_virtio::QueueStop;

/// Reads `len` bytes, 1 to [`PIECE_BYTES`].
#[tactic(auto, using(tv_script::proofs::Scripts::awaits_now, tv_script::proofs::Scripts::cut_here), unfolding(tv_script::specs::Scripts::Follows))]
pub fn read<P: Port>(port: &mut P, addr: u64, len: u16) -> Result<Bytes, QueueStop>
    requires some { 0 < len }
    requires fits { len ≤ PIECE_BYTES }
    requires awaits { AwaitsAll (P.awaits port.old) (read addr len) }
    ensures ran { RanSo P.moved P.over P.stopped port.old (read addr len) port.new result }
    ensures len { IfOk result (λ bytes. length bytes ≡ len) }
    ensures lower { OnOk result (P.left port.new < P.left port.old) }
    ensures left { P.left port.new ≤ P.left port.old }
{
    match port.ask(&Action::Read { addr, len }) {
        Ok(Heard::Bytes(bytes)) => Ok(bytes),
        Ok(_) => Err(QueueStop::Refused),
        Err(Ended) => Err(QueueStop::Ended),
    }
}

/// Writes bytes, of which there is at least one.
#[tactic(auto, using(tv_script::proofs::Scripts::awaits_now, tv_script::proofs::Scripts::cut_here), unfolding(tv_script::specs::Scripts::Follows))]
pub fn write<P: Port>(port: &mut P, addr: u64, bytes: Bytes) -> Result<(), QueueStop>
    requires some { 0 < length bytes }
    requires awaits { AwaitsAll (P.awaits port.old) (write addr bytes) }
    ensures ran { RanSo P.moved P.over P.stopped port.old (write addr bytes) port.new result }
    ensures lower { OnOk result (P.left port.new < P.left port.old) }
    ensures left { P.left port.new ≤ P.left port.old }
{
    match port.ask(&Action::Write { addr, bytes }) {
        Ok(Heard::Done) => Ok(()),
        Ok(_) => Err(QueueStop::Refused),
        Err(Ended) => Err(QueueStop::Ended),
    }
}

/// Reads a little-endian number of two bytes.
#[tactic(auto, using(tv_script::proofs::Scripts::awaits_first, tv_script::proofs::Scripts::reached_second, crate::proofs::Runs::ran_no_further))]
pub fn read_u16<P: Port>(port: &mut P, addr: u64) -> Result<u16, QueueStop>
    requires awaits { AwaitsAll (P.awaits port.old) (number 2 addr) }
    ensures ran { RanSo P.moved P.over P.stopped port.old (number 2 addr) port.new result }
    ensures lower { OnOk result (P.left port.new < P.left port.old) }
    ensures left { P.left port.new ≤ P.left port.old }
{
    let bytes = read(port, addr, 2)?;
    Ok(LittleEndian::read_u16(bytes.as_slice()))
}
