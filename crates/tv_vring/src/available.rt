//! A queue's next chain, with its readable bytes.

ghost use Rattle.std.specs.Prelude.{◌≤◌, ◌<◌, OnOk, vec_capacity};
ghost use Rattle.tv_script.specs.Scripts.{AwaitsAll};
ghost use Rattle.tv_virtio.specs.Queue.{RanSo, IsServable, take_chain, chain_at, readable_of, with_took};

use crate::buffers::read_spans;
use crate::chain::Chain;
use crate::walk::{next_head, walk};
use tv_base::CHAIN_BYTES;
use tv_script::Port;
use tv_virtio::{QueueRegs, QueueStop};

/// Takes the next chain of a queue, and reads its readable bytes.
#[tactic(auto, using(tv_script::proofs::Scripts::awaits_first, tv_script::proofs::Scripts::reached_second, crate::proofs::Runs::ran_then, crate::proofs::Runs::ran_no_further, crate::proofs::Runs::awaits_second))]
pub fn take_chain<P: Port>(
    queue: &QueueRegs,
    last: u16,
    chain: &mut Chain,
    into: &mut Vec<u8>,
    port: &mut P,
) -> Result<u16, QueueStop>
    requires ring { IsServable queue.now }
    requires room { CHAIN_BYTES ≤ vec_capacity into.old }
    requires awaits { AwaitsAll (P.awaits port.old) (take_chain queue.now last) }
    ensures ran { RanSo P.moved P.over P.stopped port.old (take_chain queue.now last) port.new (with_took chain.new into.new.items result) }
    ensures capacity { vec_capacity into.old ≤ vec_capacity into.new }
    ensures lower { OnOk result (P.left port.new < P.left port.old) }
    ensures left { P.left port.new ≤ P.left port.old }
{
    let head = next_head(queue, last, port)?;
    chain_at(queue, head, chain, into, port)
}

/// Walks the chain at a head, and reads its readable bytes.
#[tactic(auto, using(tv_script::proofs::Scripts::awaits_first, tv_script::proofs::Scripts::reached_second, crate::proofs::Runs::ran_then, crate::proofs::Runs::ran_no_further, crate::proofs::Runs::awaits_second))]
fn chain_at<P: Port>(
    queue: &QueueRegs,
    head: u16,
    chain: &mut Chain,
    into: &mut Vec<u8>,
    port: &mut P,
) -> Result<u16, QueueStop>
    requires ring { IsServable queue.now }
    requires room { CHAIN_BYTES ≤ vec_capacity into.old }
    requires awaits { AwaitsAll (P.awaits port.old) (chain_at queue.now head) }
    ensures ran { RanSo P.moved P.over P.stopped port.old (chain_at queue.now head) port.new (with_took chain.new into.new.items result) }
    ensures capacity { vec_capacity into.old ≤ vec_capacity into.new }
    ensures left { P.left port.new ≤ P.left port.old }
{
    chain.clear();
    walk(queue, chain, head, port)?;
    readable_of(head, chain, into, port)
}

/// Reads the readable bytes of a chain.
#[tactic(auto, using(tv_script::proofs::Scripts::awaits_first, tv_script::proofs::Scripts::reached_second, crate::proofs::Runs::ran_then, crate::proofs::Runs::ran_no_further, crate::proofs::Runs::awaits_second))]
fn readable_of<P: Port>(
    head: u16,
    chain: &Chain,
    into: &mut Vec<u8>,
    port: &mut P,
) -> Result<u16, QueueStop>
    requires room { CHAIN_BYTES ≤ vec_capacity into.old }
    requires awaits { AwaitsAll (P.awaits port.old) (readable_of head chain.now) }
    ensures ran { RanSo P.moved P.over P.stopped port.old (readable_of head chain.now) port.new (with_took chain.now into.new.items result) }
    ensures capacity { vec_capacity into.old ≤ vec_capacity into.new }
    ensures left { P.left port.new ≤ P.left port.old }
{
    into.clear();
    read_spans(chain.readable(), into, port)?;
    Ok(head)
}
