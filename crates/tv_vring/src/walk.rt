//! From a queue's index to the descriptors of its next chain.

ghost use Rattle.std.specs.Prelude.{◌≡◌, ◌≤◌, ◌<◌, ◌-◌, ◌+◌, length, IfOk, OnOk, IsSome};
ghost use Rattle.tv_script.specs.Scripts.{AwaitsAll};
ghost use Rattle.tv_virtio.specs.Queue.{RanSo, IsServable, next_index, ring_entry, next_head, walk, visit, no_chain, with_value, with_chain};

use crate::chain::{Chain, descriptor_of, goes_on};
use crate::memory::{read, read_u16};
use tv_base::QUEUE_SIZE;
use tv_script::Port;
use tv_virtio::{QueueFault, QueueRegs, QueueStop};

/// The available index, where it says that there is a next chain.
#[tactic(auto, using(tv_script::proofs::Scripts::awaits_first, tv_script::proofs::Scripts::reached_second, crate::proofs::Runs::ran_no_further))]
fn next_index<P: Port>(queue: &QueueRegs, last: u16, port: &mut P) -> Result<u16, QueueStop>
    requires ring { IsServable queue.now }
    requires awaits { AwaitsAll (P.awaits port.old) (next_index queue.now last) }
    ensures ran { RanSo P.moved P.over P.stopped port.old (next_index queue.now last) port.new result }
    ensures lower { OnOk result (P.left port.new < P.left port.old) }
    ensures left { P.left port.new ≤ P.left port.old }
{
    let index = read_u16(port, queue.driver.wrapping_add(2))?;
    if index == last {
        return Err(QueueStop::Empty);
    }
    if index.wrapping_sub(last) > queue.size {
        return Err(QueueStop::Malformed(QueueFault::Ahead, index));
    }
    Ok(index)
}

/// The head of the next chain, in its entry of the available ring.
#[tactic(auto, using(tv_script::proofs::Scripts::awaits_first, tv_script::proofs::Scripts::reached_second, crate::proofs::Runs::ran_no_further))]
fn ring_entry<P: Port>(queue: &QueueRegs, last: u16, port: &mut P) -> Result<u16, QueueStop>
    requires ring { IsServable queue.now }
    requires awaits { AwaitsAll (P.awaits port.old) (ring_entry queue.now last) }
    ensures ran { RanSo P.moved P.over P.stopped port.old (ring_entry queue.now last) port.new result }
    ensures head { IfOk result (λ head. head < queue.now.size) }
    ensures lower { OnOk result (P.left port.new < P.left port.old) }
    ensures left { P.left port.new ≤ P.left port.old }
{
    let offset = 4 + 2 * u64::from(last % queue.size);
    let head = read_u16(port, queue.driver.wrapping_add(offset))?;
    if head >= queue.size {
        return Err(QueueStop::Malformed(QueueFault::Head, head));
    }
    Ok(head)
}

/// The head of the queue's next chain.
#[tactic(auto, using(tv_script::proofs::Scripts::awaits_first, crate::proofs::Runs::ran_then, crate::proofs::Runs::ran_no_further, crate::proofs::Runs::awaits_second))]
pub fn next_head<P: Port>(queue: &QueueRegs, last: u16, port: &mut P) -> Result<u16, QueueStop>
    requires ring { IsServable queue.now }
    requires awaits { AwaitsAll (P.awaits port.old) (next_head queue.now last) }
    ensures ran { RanSo P.moved P.over P.stopped port.old (next_head queue.now last) port.new result }
    ensures head { IfOk result (λ head. head < queue.now.size) }
    ensures lower { OnOk result (P.left port.new < P.left port.old) }
    ensures left { P.left port.new ≤ P.left port.old }
{
    let _index = next_index(queue, last, port)?;
    ring_entry(queue, last, port)
}

/// The descriptors of the chain at a head.
#[tactic(auto, using(tv_script::proofs::Scripts::awaits_first, crate::proofs::Runs::ran_on, crate::proofs::Runs::ran_no_further, crate::proofs::Runs::awaits_second))]
pub fn walk<P: Port>(
    queue: &QueueRegs,
    chain: &mut Chain,
    head: u16,
    port: &mut P,
) -> Result<(), QueueStop>
    requires ring { IsServable queue.now }
    requires empty { chain.old ≡ no_chain }
    requires awaits { AwaitsAll (P.awaits port.old) (walk queue.now no_chain head (queue.now.size - 1)) }
    ensures ran { RanSo P.moved P.over P.stopped port.old (walk queue.now no_chain head (queue.now.size - 1)) port.new (with_value chain.new result) }
    ensures left { P.left port.new ≤ P.left port.old }
{
    let mut at = head;
    let mut left = queue.size - 1;
    loop {
        match visit(queue, chain, at, left, port)? {
            Some(next) => {
                at = next;
                left -= 1;
            }
            None => return Ok(()),
        }
    }
}

/// Reads one more descriptor of a chain, where `left` may follow it, and gives the number of the one that follows, if any.
#[tactic(auto, using(tv_script::proofs::Scripts::awaits_first, tv_script::proofs::Scripts::reached_second, crate::proofs::Runs::ran_no_further))]
fn visit<P: Port>(
    queue: &QueueRegs,
    chain: &mut Chain,
    at: u16,
    left: u16,
    port: &mut P,
) -> Result<Option<u16>, QueueStop>
    requires room { length chain.old.readable + length chain.old.writable < QUEUE_SIZE }
    requires awaits { AwaitsAll (P.awaits port.old) (visit queue.now chain.old at left) }
    ensures ran { RanSo P.moved P.over P.stopped port.old (visit queue.now chain.old at left) port.new (with_chain chain.new result) }
    ensures last { IfOk result (λ next. IsSome next → 0 < left) }
    ensures one { IfOk result (λ next. length chain.new.readable + length chain.new.writable ≡ length chain.old.readable + length chain.old.writable + 1) }
    ensures left { P.left port.new ≤ P.left port.old }
{
    let bytes = read(port, queue.desc.wrapping_add(16 * u64::from(at)), 16)?;
    let descriptor = descriptor_of(bytes.as_slice());
    if let Some(fault) = chain.fault(queue, left, &descriptor) {
        return Err(QueueStop::Malformed(fault, at));
    }
    chain.add(queue, left, &descriptor);
    Ok(if goes_on(&descriptor) {
        Some(descriptor.next)
    } else {
        None
    })
}
