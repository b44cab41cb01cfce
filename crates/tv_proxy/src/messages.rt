//! Items, verdicts and replies, to messages and back.

ghost use Rattle.std.specs.Prelude.{◌≡◌, ◌%◌, ◌^◌};
ghost use Rattle.tv_base.specs.Width.{width_bytes};
ghost use Rattle.tv_proxy.specs.Messages as spec;

use tv_base::{Access, Width};
use tv_items::{Heard, Item, Verdict};
use tv_wire::Msg;

/// The low bytes of a value, as many as the width has.
fn low_bytes(width: Width, value: u64) -> u64
    ensures { result ≡ value % 256 ^ width_bytes width }
{
    match width {
        Width::B1 => value & 0xff,
        Width::B2 => value & 0xffff,
        Width::B4 => value & 0xffff_ffff,
        Width::B8 => value,
    }
}

/// The item that an access makes.
pub fn item_of(access: &Access) -> Item
    ensures { result ≡ spec.item_of access.now }
{
    match *access {
        Access::Load { width, off } => Item::Load { width, off },
        Access::Store { width, off, value } => Item::Store {
            width,
            off,
            value: low_bytes(width, value),
        },
    }
}

/// The message of an item with its tag.
pub fn item_message(tag: u32, item: &Item) -> Msg
    ensures { result ≡ spec.item_message tag item.now }
{
    match *item {
        Item::Load { width, off } => Msg::Load { tag, width, off },
        Item::Store { width, off, value } => Msg::Store {
            tag,
            width,
            off,
            value,
        },
        Item::Target { pages } => Msg::Target { tag, pages },
        Item::Stats => Msg::Stats { tag },
        Item::Resize { sectors } => Msg::Resize { tag, sectors },
    }
}

/// The tag and the item of a message; `None` exactly where it is of no item.
pub fn item_in(msg: &Msg) -> Option<(u32, Item)>
    ensures { result ≡ spec.item_in msg.now }
{
    match *msg {
        Msg::Load { tag, width, off } => Some((tag, Item::Load { width, off })),
        Msg::Store {
            tag,
            width,
            off,
            value,
        } => Some((tag, Item::Store { width, off, value })),
        Msg::Target { tag, pages } => Some((tag, Item::Target { pages })),
        Msg::Stats { tag } => Some((tag, Item::Stats)),
        Msg::Resize { tag, sectors } => Some((tag, Item::Resize { sectors })),
        _ => None,
    }
}

/// The message of a verdict.
pub fn verdict_message(verdict: &Verdict) -> Msg
    ensures { result ≡ spec.verdict_message verdict.now }
{
    Msg::Answer {
        tag: verdict.tag,
        status: verdict.status,
        other: verdict.other,
        stats: verdict.stats.copy(),
    }
}

/// What a service's reply says; `None` exactly where the message is no such reply. The bytes of a reply are moved.
pub fn heard_in(msg: Msg) -> Option<Heard>
    ensures { result ≡ spec.heard_in msg }
{
    match msg {
        Msg::Bytes { bytes, .. } => Some(Heard::Bytes(bytes)),
        Msg::MemDone { .. } | Msg::IrqDone { .. } => Some(Heard::Done),
        Msg::MemRefused { .. } | Msg::IrqRefused { .. } => Some(Heard::Refused),
        _ => None,
    }
}
