//! The interrupt controller.
//!
//! It is the RISC-V platform-level interrupt controller (RISC-V PLIC Specification) for 8 sources and a context for each
//! hart, and departs from it in this:
//!
//! - A claim obeys the threshold and the enables of the hart that claims, so it gives a source exactly where the line is up.
//! - A source is an edge: a raise makes it pending, and one that comes while it is pending is lost. One that comes while it
//!   is claimed is held, and makes it pending once the claim is completed; a second one is lost.
//! - Any hart completes any claimed source, whether or not the source is enabled for it.
//! - Priorities and thresholds keep the low 3 bits of what is stored.

ghost use Rattle.std.specs.Prelude.{◌≡◌, ◌<◌, ◌≤◌, ◌^◌, ◌↔◌, ℕ, IsTrue};
ghost use Rattle.tv_base.specs.Width.{width_bytes};
ghost use Rattle.tv_base.specs.declared.Width.TheVariants.{B4};
ghost use Rattle.tv_intc.specs.declared.controller_map.Register.TheVariants.{Claim};
ghost use Rattle.tv_intc.specs.ControllerMap.{IsThere, offset_of};
ghost use Rattle.tv_intc.specs.Controller.{IsBest, any_eligible, choice, claim_by, complete_of, completed, is_eligible, is_pending, lines_of, load_at, load_of, pending_bit, pending_word, priority_of, raise_of, raised, started, store_at, store_of};

use crate::controller_map::{Register, SOURCES, find_register};
use std::marker::Model;
use tv_base::{HARTS, HartNo, Width};

// MEIP, the bit of the external line in `mip`.
const EXTERNAL_LINE: u32 = 11;

/// Where a source stands. The PLIC specification calls what keeps this the source's gateway.
#[derive(Clone, Copy)]
pub enum Gate {
    /// Nothing was raised.
    Idle,
    /// It was raised and not yet claimed.
    Pending,
    /// It is claimed.
    Claimed,
    /// It is claimed, and a raise is held until the claim is completed.
    Held,
}

impl Gate {
    #[inline]
    fn is_pending(self) -> bool
        ensures { result ≡ is_pending self }
    {
        matches!(self, Gate::Pending)
    }

    // The source's bit in the pending register.
    #[inline]
    fn pending_bit(self, source: u8) -> u64
        requires { source ≤ 8 }
        ensures value { result ≡ pending_bit self source }
        ensures bound { result ≤ 2 ^ source }
    {
        if self.is_pending() { 1 << source } else { 0 }
    }

    #[inline]
    fn raised(self) -> Gate
        ensures { result ≡ raised self }
    {
        match self {
            Gate::Idle | Gate::Pending => Gate::Pending,
            Gate::Claimed | Gate::Held => Gate::Held,
        }
    }

    #[inline]
    fn completed(self) -> Gate
        ensures { result ≡ completed self }
    {
        match self {
            Gate::Idle | Gate::Claimed => Gate::Idle,
            Gate::Pending | Gate::Held => Gate::Pending,
        }
    }
}

/// The interrupt controller of a machine.
#[derive(Clone, Copy)]
pub struct Intc {
    harts: u8,
    // By the number of a source, 1 to 8; place 0 is not used.
    priority: [u8; 9],
    gates: [Gate; 9],
    // By the number of a hart.
    enables: [u16; 8],
    thresholds: [u8; 8],
}

impl Model for Intc {
    ghost use Rattle.std.specs.Prelude.{◌≤◌};
    ghost use Rattle.tv_intc.specs.ControllerState.{Controller};

    ghost Value = { Controller };

    ghost view = { λ intc. record {
      harts = intc.harts;
      priority = intc.priority;
      gates = intc.gates;
      enables = intc.enables;
      thresholds = intc.thresholds;
    } };

    ghost invariant = { λ intc. intc.harts ≤ 8 };

    ghost inverse = { λ c. record {
      harts = c.harts;
      priority = c.priority;
      gates = c.gates;
      enables = c.enables;
      thresholds = c.thresholds;
    } };
}

impl Intc {
    /// The controller of a machine with this many harts. Nothing is raised, and all registers are 0.
    pub fn new(harts: u8) -> Intc
        requires some { 1 ≤ harts }
        requires most { harts ≤ HARTS }
        ensures { result ≡ started harts }
    {
        Intc {
            harts,
            priority: [0; 9],
            gates: [Gate::Idle; 9],
            enables: [0; 8],
            thresholds: [0; 8],
        }
    }

    /// Raises a source; false exactly where it isn't 1 to 8, and then nothing changes.
    pub fn raise(&mut self, source: u8) -> bool
        ensures known { IsTrue result ↔ ((1 ≤ source) × (source ≤ SOURCES)) }
        ensures raised { self.new ≡ raise_of self.old source }
        ensures harts { self.new.harts ≡ self.old.harts }
    {
        if source < 1 || source > SOURCES {
            return false;
        }
        let place = source as usize;
        self.gates[place] = self.gates[place].raised();
        true
    }

    /// A load. A load of 4 bytes from a hart's claim register claims the eligible source of greatest priority, of several the
    /// one of lowest number, and gives its number; it gives 0 where none is eligible.
    #[inline]
    pub fn read(&mut self, off: u32, width: Width) -> u64
        ensures value { (result, self.new) ≡ load_at self.old off width }
        ensures claim { (claimer : ℕ) → claimer < self.old.harts → off ≡ offset_of (Claim claimer) → width ≡ B4
            → IsBest (is_eligible self.old claimer) (priority_of self.old) 8 result }
        ensures fits { result < 256 ^ width_bytes width }
        ensures harts { self.new.harts ≡ self.old.harts }
    {
        match width {
            Width::B4 => match find_register(self.harts, off) {
                Some(register) => self.load(register),
                None => 0,
            },
            Width::B1 | Width::B2 | Width::B8 => 0,
        }
    }

    /// A store of the low `width` bytes of `value`.
    #[inline]
    pub fn write(&mut self, off: u32, width: Width, value: u64)
        ensures value { self.new ≡ store_at self.old off width value }
        ensures harts { self.new.harts ≡ self.old.harts }
    {
        match width {
            Width::B4 => match find_register(self.harts, off) {
                Some(register) => self.store(register, (value & 0xffff_ffff) as u32),
                None => {}
            },
            Width::B1 | Width::B2 | Width::B8 => {}
        }
    }

    /// The external line of a hart, as bit 11: up exactly where a source is eligible for the hart, which is where a claim of
    /// the hart gives one.
    #[inline]
    pub fn lines(&self, hart: HartNo) -> u64
        ensures value { result ≡ lines_of self.now hart }
        ensures claim { (result ≡ 0) ↔ (choice self.now hart 8 ≡ 0) }
        ensures fits { result < 2 ^ 12 }
    {
        u64::from(self.has_eligible(hart.get())) << EXTERNAL_LINE
    }

    // A load of 4 bytes from a register.
    fn load(&mut self, register: Register) -> u64
        requires { IsThere self.old.harts register }
        ensures value { (result, self.new) ≡ load_of self.old register }
        ensures claim { (claimer : ℕ) → register ≡ Claim claimer
            → IsBest (is_eligible self.old claimer) (priority_of self.old) 8 result }
        ensures fits { result < 2 ^ 32 }
        ensures harts { self.new.harts ≡ self.old.harts }
    {
        match register {
            Register::Priority(source) => u64::from(self.priority[source as usize]),
            Register::Pending => self.pending(),
            Register::Enables(hart) => u64::from(self.enables[hart as usize]),
            Register::Threshold(hart) => u64::from(self.thresholds[hart as usize]),
            Register::Claim(hart) => self.claim(hart),
        }
    }

    // A store of 4 bytes to a register.
    fn store(&mut self, register: Register, value: u32)
        requires { IsThere self.old.harts register }
        ensures value { self.new ≡ store_of self.old register value }
        ensures harts { self.new.harts ≡ self.old.harts }
    {
        match register {
            Register::Priority(source) => self.priority[source as usize] = (value & 7) as u8,
            Register::Pending => {}
            Register::Enables(hart) => {
                let kept = 2 * (value / 2 % 0x100);
                self.enables[hart as usize] = kept as u16;
            }
            Register::Threshold(hart) => self.thresholds[hart as usize] = (value & 7) as u8,
            Register::Claim(_) => self.complete(value),
        }
    }

    // Whether a source is eligible for a hart.
    #[inline]
    fn is_eligible(&self, hart: u8, source: u8) -> bool
        requires hart { hart < 8 }
        requires source { source ≤ 8 }
        ensures { result ≡ is_eligible self.now hart source }
    {
        let place = source as usize;
        let context = hart as usize;
        self.gates[place].is_pending()
            && (self.enables[context] >> source) & 1 == 1
            && self.thresholds[context] < self.priority[place]
    }

    // Whether any source is eligible for a hart.
    #[inline]
    fn has_eligible(&self, hart: u8) -> bool
        requires { hart < 8 }
        ensures { result ≡ any_eligible self.now hart 8 }
    {
        let mut any = false;
        for place in 0..SOURCES {
            any = any || self.is_eligible(hart, place + 1);
        }
        any
    }

    // The source that a claim of a hart gives, 0 for none.
    #[tactic(auto, using(crate::proofs::Choices::choice_is_best))]
    fn choose(&self, hart: u8) -> u8
        requires { hart < self.now.harts }
        ensures value { result ≡ choice self.now hart 8 }
        ensures best { IsBest (is_eligible self.now hart) (priority_of self.now) 8 result }
        ensures bound { result ≤ 8 }
    {
        let mut best = 0;
        for place in 0..SOURCES {
            let source = place + 1;
            if self.is_eligible(hart, source)
                && (best == 0 || self.priority[best as usize] < self.priority[source as usize])
            {
                best = source;
            }
        }
        best
    }

    // The pending bits.
    fn pending(&self) -> u64
        ensures value { result ≡ pending_word self.now 8 }
        ensures fits { result < 2 ^ 9 }
    {
        let mut word = 0;
        for place in 0..SOURCES {
            let source = place + 1;
            word += self.gates[source as usize].pending_bit(source);
        }
        word
    }

    // A claim of a hart.
    fn claim(&mut self, hart: u8) -> u64
        requires { hart < self.old.harts }
        ensures value { (result, self.new) ≡ claim_by self.old (choice self.old hart 8) }
        ensures best { IsBest (is_eligible self.old hart) (priority_of self.old) 8 result }
        ensures fits { result < 2 ^ 32 }
        ensures harts { self.new.harts ≡ self.old.harts }
    {
        let source = self.choose(hart);
        if source == 0 {
            return 0;
        }
        self.gates[source as usize] = Gate::Claimed;
        u64::from(source)
    }

    // The completion of a source.
    fn complete(&mut self, source: u32)
        ensures value { self.new ≡ complete_of self.old source }
        ensures harts { self.new.harts ≡ self.old.harts }
    {
        if source < 1 || source > u32::from(SOURCES) {
            return;
        }
        let place = source as usize;
        self.gates[place] = self.gates[place].completed();
    }
}
