//! The in-process monitor as definitions: its state, its steps, which runs are legal, and what a run shows.
//!
//! `specs/` is the crate. This file has the types that the definitions share with code.
#![tactic(auto)]

use tv_base::{Access, DevNo, HartNo, LineNo, Why};
use tv_intc::Finish;
use tv_items::{Heard, Item, Verdict};

/// Whether the machine goes on.
#[derive(Clone, Copy)]
pub enum Mode {
    /// It does.
    Running,
    /// The run ended, for this cause.
    Ending(Why),
}

/// What an event of a hart showed outside what harts reach directly.
#[derive(Clone, Copy)]
pub enum Shown {
    /// Nothing.
    Nothing,
    /// A byte at the debug port.
    Byte(u8),
    /// A store to the finisher that ends the run.
    Finish(Finish),
    /// An access to a register of a device; of a stored value the bytes of its width alone.
    Access(DevNo, Access),
}

/// What takes no access of a hart now: an instruction that needs it stalls.
#[derive(Clone, Copy)]
pub struct Closed {
    /// The debug port takes no byte.
    pub debug: bool,
    /// By slot, whether a device takes no load.
    pub loads: [bool; 8],
    /// By slot, whether a device takes no store.
    pub stores: [bool; 8],
}

/// Who made an item.
#[derive(Clone, Copy)]
pub enum Maker {
    /// A hart, by an access to a register of the device.
    Hart(HartNo),
    /// A line of control sockets, by a command.
    Line(LineNo),
}

/// An item in the list of a device. Its place there is its tag.
#[derive(Clone, Copy)]
pub struct Made {
    /// What the device acts on.
    pub item: Item,
    /// Who made it.
    pub maker: Maker,
}

/// What the maker of an item gets.
#[derive(Drop)]
pub enum Answer {
    /// The value of a load.
    Value(u64),
    /// What was decided of a command.
    Verdict(Verdict),
}

/// The answer to an item, for its maker.
#[derive(Drop)]
pub struct Due {
    /// The tag of the item.
    pub tag: u32,
    /// Who made it.
    pub maker: Maker,
    /// What the maker gets.
    pub answer: Answer,
}

/// How far the next action of a device is.
#[derive(Drop)]
pub enum Phase {
    /// It is not begun.
    Quiet,
    /// It was sent to a service.
    Sent,
    /// A service did it, and the device has not got this reply.
    Served(Heard),
    /// It is intended outside the machine.
    Intended,
}

/// The load that a hart waits for.
#[derive(Clone, Copy)]
pub struct Pending {
    /// The device.
    pub dev: DevNo,
    /// The load's tag there.
    pub tag: u32,
    /// Whether its Reply was made.
    pub replied: bool,
}

/// Why a run on one thread stopped.
#[derive(Clone, Copy)]
pub enum Stop {
    /// An event ended it, for this cause.
    Ended(Why),
    /// An entry found no room in the journal.
    Full,
}
