//! The memory service and the interrupt service: each answers a message of a device's worker by the device's grants. What they
//! allow is done, and all else is refused, which changes nothing. A reply carries the tag of its request.
#![tactic(auto)]

ghost use Rattle.std.specs.Prelude.{◌≡◌, ◌↔◌, IfSome, IsSome, Some, false, length};
ghost use Rattle.tv_grants.specs.Direct.{heard_of, may_do};
ghost use Rattle.tv_grants.specs.Grants.{owns_source, ram_bytes};
ghost use Rattle.tv_services.specs.Served.{interrupt_served, memory_action, memory_reply, memory_served, tag_of};
ghost use Rattle.tv_wire.specs.declared.Msg.TheVariants as msg_of;
ghost use Rattle.tv_wire.specs.Spelling.{IsMessage};

use tv_base::DevNo;
use tv_grants::Grants;
use tv_intc::Intc;
use tv_ram::Ram;
use tv_wire::Msg;

/// Answers a request for memory: to read, to write, to release a page or to regain one.
pub fn serve_mem(ram: &mut Ram, grants: &mut Grants, dev: DevNo, msg: &Msg) -> Msg
    requires memory { ram_bytes grants.old ≡ length ram.old }
    requires message { IsMessage msg.now }
    requires request { IsSome (memory_action msg.now) }
    ensures served { IfSome (memory_action msg.now) (λ action. memory_served dev ram.old grants.old (tag_of msg.now) action ≡ record { reply = result; ram = ram.new; grants = grants.new }) }
    ensures refused { IfSome (memory_action msg.now) (λ action. (result ≡ msg_of.MemRefused (tag_of msg.now)) ↔ (may_do dev grants.old action ≡ false)) }
    ensures tag { tag_of result ≡ tag_of msg.now }
    ensures message { IsMessage result }
    ensures memory { ram_bytes grants.new ≡ length ram.new }
    ensures size { length ram.new ≡ length ram.old }
{
    match msg {
        Msg::Read { tag, addr, len } => match grants.read_bytes(ram, dev, *addr, *len) {
            Some(bytes) => Msg::Bytes { tag: *tag, bytes },
            None => Msg::MemRefused { tag: *tag },
        },
        Msg::Write { tag, addr, bytes } => {
            memory_reply(*tag, grants.write(ram, dev, *addr, bytes.as_slice()))
        }
        Msg::Release { tag, page, hold } => {
            memory_reply(*tag, grants.release(ram, dev, *page, *hold))
        }
        Msg::Regain { tag, page } => memory_reply(*tag, grants.regain(dev, *page)),
        _ => unreachable!(),
    }
}

/// Answers a request for the device's interrupt.
pub fn serve_irq(intc: &mut Intc, grants: &Grants, dev: DevNo, msg: &Msg) -> Msg
    requires request { msg.now ≡ msg_of.Raise (tag_of msg.now) }
    ensures served { (result, intc.new) ≡ interrupt_served dev grants.now intc.old (tag_of msg.now) }
    ensures refused { (result ≡ msg_of.IrqRefused (tag_of msg.now)) ↔ (owns_source grants.now dev ≡ false) }
    ensures tag { tag_of result ≡ tag_of msg.now }
    ensures message { IsMessage result }
{
    match msg {
        Msg::Raise { tag } => {
            if grants.owns_irq(dev) && intc.raise(dev.get() + 1) {
                Msg::IrqDone { tag: *tag }
            } else {
                Msg::IrqRefused { tag: *tag }
            }
        }
        _ => unreachable!(),
    }
}

// The reply to a request that gives no bytes.
fn memory_reply(tag: u32, is_done: bool) -> Msg
    ensures reply { result ≡ memory_reply tag (heard_of is_done) }
    ensures message { IsMessage result }
{
    if is_done {
        Msg::MemDone { tag }
    } else {
        Msg::MemRefused { tag }
    }
}

#[cfg(test)]
mod tests;
