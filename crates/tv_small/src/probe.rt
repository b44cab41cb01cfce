//! The probe: registers by which a guest makes a device read, write, release and regain its memory, and raise an interrupt.

ghost use Rattle.std.specs.Prelude.{◌≡◌, ◌≤◌, Ok, take, IfSome};
ghost use Rattle.byteorder.specs.Endian.{little_bytes};
ghost use Rattle.tv_items.specs.Fits.{IsAction};
ghost use Rattle.tv_plan.specs.Probe.{HearsFew, AsksFew, probe_load, probe_loaded, probe_store, probe_stored, probe_started, probe_acted, probe_rested, probe_action, probe_heard, new_probe};

use byteorder::{ByteOrder, LittleEndian};
use std::alloc::Global;
use std::marker::Model;
use tv_base::{Memory, PAGE_BYTES, Width};
use tv_port::{
    Acted, Action, Bytes, Device, Ended, Heard, Item, Port, Rounds, Served, Turned, serve_rounds,
};

/// What RESULT tells of an action that was done.
const DONE: u32 = 1;
/// What RESULT tells of an action that was refused.
const REFUSED: u32 = 2;

/// A probe. Each of its registers answers at an offset with a width of its own; another load gives 0, and another store
/// changes no register. A store to GO starts an action, which the next service asks for.
#[derive(Clone, Copy)]
pub struct Probe {
    /// An address of guest memory.
    addr: u64,
    /// A count of bytes.
    len: u32,
    /// The bytes that were read last, or those to write, least first.
    datum: u64,
    /// Of the last action: 0 none yet, else [`DONE`] or [`REFUSED`].
    result: u32,
    /// The stores so far, of any kind, modulo 2^64.
    count: u64,
    /// The action that the last store to GO started, 0 for none.
    going: u32,
}

impl Model for Probe {
    ghost use Rattle.std.specs.Prelude.{◌≡◌};
    ghost use Rattle.tv_plan.specs.Probe.{ProbeState, IsGoing};

    ghost Value = { ProbeState };

    ghost view = { λ p. record { addr = p.addr; len = p.len; datum = p.datum; result = p.result; count = p.count; going = p.going } };

    ghost invariant = { λ p. IsGoing p.addr p.len p.going };

    ghost inverse = { λ s. record { addr = s.addr; len = s.len; datum = s.datum; result = s.result; count = s.count; going = s.going } };
}

impl Probe {
    /// A probe whose registers are 0. It is made like the other devices, some of which take memory; a probe takes none,
    /// and so is never refused.
    pub fn new(_alloc: Global) -> Result<Probe, Memory>
        ensures { result ≡ Ok new_probe }
    {
        Ok(Probe {
            addr: 0,
            len: 0,
            datum: 0,
            result: 0,
            count: 0,
            going: 0,
        })
    }

    /// Makes no action be under way.
    fn rest(&mut self)
        ensures { self.new ≡ probe_rested self.old }
    {
        self.going = 0;
    }

    /// Stores, which counts whatever it does.
    fn store(&mut self, width: Width, off: u16, value: u64)
        requires rests { self.old.going ≡ 0 }
        ensures { self.new ≡ probe_store self.old width off value }
    {
        self.keep(width, off, value);
        self.count = self.count.wrapping_add(1);
    }

    /// Keeps the value of a store in the register that has this offset and width, if any; one to GO starts an action.
    fn keep(&mut self, width: Width, off: u16, value: u64)
        requires rests { self.old.going ≡ 0 }
        ensures { self.new ≡ probe_stored self.old width off value }
    {
        match (width, off) {
            (Width::B8, 0x00) => self.addr = value,
            (Width::B8, 0x10) => self.datum = value,
            (Width::B4, 0x08) => self.len = (value % (1 << 32)) as u32,
            (Width::B4, 0x18) => self.start((value % (1 << 32)) as u32),
            _ => {}
        }
    }

    /// Starts the action `go`, or refuses it at once where it can't be asked for.
    fn start(&mut self, go: u32)
        requires rests { self.old.going ≡ 0 }
        ensures started { self.new ≡ probe_started self.old go }
    {
        match go {
            1 | 2 => {
                if 1 <= self.len && self.len <= 8 {
                    self.going = go;
                } else {
                    self.result = REFUSED;
                }
            }
            3 => self.going = go,
            4 | 5 => {
                if self.addr / u64::from(PAGE_BYTES) < 1 << 32 {
                    self.going = go;
                } else {
                    self.result = REFUSED;
                }
            }
            _ => {}
        }
    }

    /// The action that is under way.
    fn action(&self) -> Option<Action>
        ensures action { result ≡ probe_action self.now }
        ensures fits { IfSome result IsAction }
        ensures few { IfSome result AsksFew }
    {
        let page = (self.addr / u64::from(PAGE_BYTES) % (1 << 32)) as u32;
        match self.going {
            1 => Some(Action::Read {
                addr: self.addr,
                len: (self.len % 0x1_0000) as u16,
            }),
            2 => Some(Action::Write {
                addr: self.addr,
                bytes: low_bytes(self.datum, self.len),
            }),
            3 => Some(Action::Raise),
            4 => Some(Action::Release { page, hold: true }),
            5 => Some(Action::Regain { page }),
            _ => None,
        }
    }

    /// Takes the reply to its action.
    fn hear(&mut self, heard: &Heard)
        requires { HearsFew heard.now }
        ensures { self.new ≡ probe_heard self.old heard.now }
    {
        match heard {
            Heard::Bytes(bytes) => {
                let bytes = bytes.as_slice();
                self.datum = LittleEndian::read_uint(bytes, bytes.len());
                self.result = DONE;
            }
            Heard::Done => self.result = DONE,
            Heard::Refused | Heard::Failed | Heard::Taken(_) => self.result = REFUSED,
        }
        self.going = 0;
    }

    /// Acts on an item, and gives the value of a load; 0 for other items.
    fn item(&mut self, item: &Item) -> u64
        ensures state { self.new ≡ probe_acted self.old item.now }
        ensures value { result ≡ probe_loaded self.old item.now }
    {
        self.rest();
        match *item {
            Item::Load { width, off } => self.load(width, off),
            Item::Store { width, off, value } => {
                self.store(width, off, value);
                0
            }
            Item::Target { .. } | Item::Stats | Item::Resize { .. } => 0,
        }
    }

    /// The value of the register that has this offset and width; 0 where none does.
    fn load(&self, width: Width, off: u16) -> u64
        ensures { result ≡ probe_load self.now width off }
    {
        match (width, off) {
            (Width::B8, 0x00) => self.addr,
            (Width::B8, 0x10) => self.datum,
            (Width::B8, 0x20) => self.count,
            (Width::B4, 0x08) => u64::from(self.len),
            (Width::B4, 0x1c) => u64::from(self.result),
            _ => 0,
        }
    }
}

impl Rounds for Probe {
    ghost use Rattle.tv_plan.specs.Probe.{ProbeState, probe_plan};

    ghost State = { ProbeState };

    ghost state = { λ p. p };

    ghost plan = { probe_plan };

    #[tactic(auto, using(tv_script::proofs::Scripts::awaits_now, tv_script::proofs::Scripts::cut_here, tv_script::proofs::Scripts::reached_here, tv_script::proofs::Scripts::reached_reply, crate::proofs::Few::hears_few))]
    fn begin<P: Port>(&mut self, port: &mut P) -> Turned {
        let Some(action) = self.action() else {
            return Turned::Idle;
        };
        match port.ask(&action) {
            Ok(heard) => {
                self.hear(&heard);
                Turned::Idle
            }
            Err(Ended) => Turned::Ended,
        }
    }

    #[tactic(auto, using(tv_script::proofs::Scripts::reached_here))]
    fn round<P: Port>(&mut self, _port: &mut P) -> Turned {
        Turned::Idle
    }

    ghost use Rattle.tv_plan.specs.Probe.{probe_opens};

    ghost opens = { probe_opens };
}

impl Device for Probe {
    ghost use Rattle.tv_plan.specs.Devices.{DeviceState};

    ghost state = { λ p. DeviceState.Probe p };

    #[tactic(auto, unfolding(tv_plan::specs::Devices::act))]
    fn act(&mut self, _tag: u32, item: &Item) -> Acted {
        Acted {
            value: self.item(item),
            verdict: None,
        }
    }

    fn serve<P: Port>(&mut self, port: &mut P) -> Served {
        serve_rounds(self, port)
    }

    fn copy(&self, _alloc: Global) -> Result<Self, Memory> {
        Ok(*self)
    }
}

/// The `count` low bytes of a number, 1 to 8, least first.
fn low_bytes(number: u64, count: u32) -> Bytes
    requires some { 1 ≤ count }
    requires few { count ≤ 8 }
    ensures { result ≡ take count (little_bytes 8 number) }
{
    let all = number.to_le_bytes();
    Bytes::of(&all[..count as usize])
}
