//! The timer block: the time, and for each hart the time at which its timer line goes up and its software interrupt bit.

ghost use Rattle.std.specs.Prelude.{◌≡◌, ◌<◌, ◌≤◌, ◌^◌};
ghost use Rattle.tv_base.specs.Width.{width_bytes};
ghost use Rattle.tv_intc.specs.TimerMap.{IsThere, part_width, width_of};
ghost use Rattle.tv_intc.specs.Timer.{lines_of, load_at, load_of, part_of, started, store_at, store_of, ticked, with_part};

use crate::timer_map::{Part, Register, find_register};
use std::marker::Model;
use tv_base::{HARTS, HartNo, Width};

// MSIP, the bit of the software line in `mip`.
const SOFTWARE_LINE: u32 = 3;

// MTIP, the bit of the timer line in `mip`.
const TIMER_LINE: u32 = 7;

/// The timer block of a machine.
#[derive(Clone, Copy)]
pub struct Timer {
    harts: u8,
    // By the number of a hart.
    software: [bool; 8],
    compare: [u64; 8],
    time: u64,
}

impl Model for Timer {
    ghost use Rattle.std.specs.Prelude.{◌≤◌};
    ghost use Rattle.tv_intc.specs.TimerState.{Clock};

    ghost Value = { Clock };

    ghost view = { λ timer. record {
      harts = timer.harts;
      software = timer.software;
      compare = timer.compare;
      time = timer.time;
    } };

    ghost invariant = { λ timer. timer.harts ≤ 8 };

    ghost inverse = { λ t. record {
      harts = t.harts;
      software = t.software;
      compare = t.compare;
      time = t.time;
    } };
}

impl Timer {
    /// The timer block of a machine with this many harts. The time is 0, and no line is up.
    pub fn new(harts: u8) -> Timer
        requires some { 1 ≤ harts }
        requires most { harts ≤ HARTS }
        ensures { result ≡ started harts }
    {
        Timer {
            harts,
            software: [false; 8],
            compare: [u64::MAX; 8],
            time: 0,
        }
    }

    /// A load, which changes nothing here.
    #[inline]
    pub fn read(&mut self, off: u32, width: Width) -> u64
        ensures value { result ≡ load_at self.old off width }
        ensures unchanged { self.new ≡ self.old }
        ensures fits { result < 256 ^ width_bytes width }
    {
        match find_register(self.harts, off, width) {
            Some(register) => self.load(register),
            None => 0,
        }
    }

    /// A store of the low `width` bytes of `value`.
    #[inline]
    pub fn write(&mut self, off: u32, width: Width, value: u64)
        ensures value { self.new ≡ store_at self.old off width value }
        ensures harts { self.new.harts ≡ self.old.harts }
    {
        match find_register(self.harts, off, width) {
            Some(register) => self.store(register, value),
            None => {}
        }
    }

    /// Adds `n` to the time, which wraps at 2^64.
    #[inline]
    pub fn tick(&mut self, n: u32)
        ensures { self.new ≡ ticked self.old n }
    {
        self.time = self.time.wrapping_add(u64::from(n));
    }

    /// The software line of a hart as bit 3, and its timer line as bit 7: up exactly where the time is at least the hart's
    /// compare value.
    #[inline]
    pub fn lines(&self, hart: HartNo) -> u64
        ensures value { result ≡ lines_of self.now hart }
        ensures fits { result < 2 ^ 8 }
    {
        let place = hart.get() as usize;
        let software = u64::from(self.software[place]) << SOFTWARE_LINE;
        let timer = u64::from(self.compare[place] <= self.time) << TIMER_LINE;
        software + timer
    }

    // A load from a register.
    #[inline]
    fn load(&self, register: Register) -> u64
        requires { IsThere self.now.harts register }
        ensures value { result ≡ load_of self.now register }
        ensures fits { result < 256 ^ width_bytes (width_of register) }
    {
        match register {
            Register::Software(hart) => u64::from(self.software[hart as usize]),
            Register::Compare(hart, part) => part.of(self.compare[hart as usize]),
            Register::Time(part) => part.of(self.time),
        }
    }

    // A store to a register.
    #[inline]
    fn store(&mut self, register: Register, value: u64)
        requires { IsThere self.old.harts register }
        ensures value { self.new ≡ store_of self.old register value }
        ensures harts { self.new.harts ≡ self.old.harts }
    {
        match register {
            Register::Software(hart) => self.software[hart as usize] = value & 1 == 1,
            Register::Compare(hart, part) => {
                let place = hart as usize;
                self.compare[place] = part.put(self.compare[place], value);
            }
            Register::Time(part) => self.time = part.put(self.time, value),
        }
    }
}

impl Part {
    // This part of a number.
    #[inline]
    fn of(self, number: u64) -> u64
        ensures value { result ≡ part_of self number }
        ensures fits { result < 256 ^ width_bytes (part_width self) }
    {
        match self {
            Part::Whole => number,
            Part::Low => number & 0xffff_ffff,
            Part::High => number >> 32,
        }
    }

    // The number with this part stored.
    #[inline]
    fn put(self, number: u64, value: u64) -> u64
        ensures { result ≡ with_part self number value }
    {
        match self {
            Part::Whole => value,
            Part::Low => ((number >> 32) << 32) + (value & 0xffff_ffff),
            Part::High => ((value & 0xffff_ffff) << 32) + (number & 0xffff_ffff),
        }
    }
}
