//! A chain goes back to the driver.

ghost use Rattle.std.specs.Prelude.{◌≡◌, ◌≤◌, ◌++◌, length};
ghost use Rattle.byteorder.specs.Endian.{little_bytes};
ghost use Rattle.tv_script.specs.Scripts.{AwaitsAll};
ghost use Rattle.tv_virtio.specs.Queue.{RanSo, IsServable, give_chain, publish, wants, hand_back};

use crate::buffers::write_spans;
use crate::memory::{read_u16, write};
use tv_base::CHAIN_BYTES;
use tv_items::Bytes;
use tv_script::Port;
use tv_virtio::{QueueRegs, QueueStop, Span};

/// An element of the used ring.
#[derive(Clone, Copy)]
pub struct UsedElement {
    /// The used index at which it stands.
    pub index: u16,
    /// The head of its chain.
    pub id: u16,
    /// How many bytes the device wrote to the chain.
    pub len: u32,
}

/// Writes bytes to a chain, and puts it into the used ring.
#[tactic(auto, using(tv_script::proofs::Scripts::awaits_first, tv_script::proofs::Scripts::reached_second, crate::proofs::Runs::ran_then, crate::proofs::Runs::ran_no_further, crate::proofs::Runs::awaits_second))]
pub fn give_chain<P: Port>(
    queue: &QueueRegs,
    element: UsedElement,
    spans: &[Span],
    bytes: &[u8],
    port: &mut P,
) -> Result<bool, QueueStop>
    requires ring { IsServable queue.now }
    requires len { element.len ≡ length bytes.now }
    requires short { length bytes.now ≤ CHAIN_BYTES }
    requires awaits { AwaitsAll (P.awaits port.old) (give_chain queue.now element.index element.id spans.now bytes.now) }
    ensures ran { RanSo P.moved P.over P.stopped port.old (give_chain queue.now element.index element.id spans.now bytes.now) port.new result }
    ensures left { P.left port.new ≤ P.left port.old }
{
    write_spans(spans, bytes, port)?;
    hand_back(queue, element, port)
}

/// Puts a chain into the used ring, and looks whether the driver wants an interrupt.
#[tactic(auto, using(tv_script::proofs::Scripts::awaits_first, tv_script::proofs::Scripts::reached_second, crate::proofs::Runs::ran_then, crate::proofs::Runs::ran_no_further, crate::proofs::Runs::awaits_second))]
fn hand_back<P: Port>(
    queue: &QueueRegs,
    element: UsedElement,
    port: &mut P,
) -> Result<bool, QueueStop>
    requires ring { IsServable queue.now }
    requires awaits { AwaitsAll (P.awaits port.old) (hand_back queue.now element.index element.id element.len) }
    ensures ran { RanSo P.moved P.over P.stopped port.old (hand_back queue.now element.index element.id element.len) port.new result }
    ensures left { P.left port.new ≤ P.left port.old }
{
    publish(queue, element, port)?;
    wants(queue, port)
}

/// Writes the used element, and then the used index.
#[tactic(auto, using(tv_script::proofs::Scripts::awaits_first, tv_script::proofs::Scripts::reached_second, crate::proofs::Runs::ran_then, crate::proofs::Runs::ran_no_further, crate::proofs::Runs::awaits_second))]
fn publish<P: Port>(queue: &QueueRegs, element: UsedElement, port: &mut P) -> Result<(), QueueStop>
    requires ring { IsServable queue.now }
    requires awaits { AwaitsAll (P.awaits port.old) (publish queue.now element.index element.id element.len) }
    ensures ran { RanSo P.moved P.over P.stopped port.old (publish queue.now element.index element.id element.len) port.new result }
    ensures left { P.left port.new ≤ P.left port.old }
{
    let offset = 4 + 8 * u64::from(element.index % queue.size);
    let place = queue.device.wrapping_add(offset);
    let bytes = element_bytes(element.id, element.len);
    let index = Bytes::of(&element.index.wrapping_add(1).to_le_bytes());
    write(port, place, bytes)?;
    write(port, queue.device.wrapping_add(2), index)
}

/// The eight bytes of a used element.
fn element_bytes(id: u16, len: u32) -> Bytes
    ensures { result ≡ little_bytes 4 id ++ little_bytes 4 len }
{
    let mut bytes = Bytes::of(&u32::from(id).to_le_bytes());
    bytes.append(&len.to_le_bytes());
    bytes
}

/// Whether the driver wants an interrupt.
#[tactic(auto, using(tv_script::proofs::Scripts::awaits_first, tv_script::proofs::Scripts::reached_second, crate::proofs::Runs::ran_no_further))]
fn wants<P: Port>(queue: &QueueRegs, port: &mut P) -> Result<bool, QueueStop>
    requires awaits { AwaitsAll (P.awaits port.old) (wants queue.now) }
    ensures ran { RanSo P.moved P.over P.stopped port.old (wants queue.now) port.new result }
    ensures left { P.left port.new ≤ P.left port.old }
{
    let flags = read_u16(port, queue.driver)?;
    Ok(flags % 2 == 0)
}
