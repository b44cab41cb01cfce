//! The control and status registers of a hart that has machine mode alone: reads and writes, traps and
//! their return, pending interrupts and counters.
//!
//! The rules are those of the RISC-V Privileged Architecture, chapter "Machine-Level ISA", for a hart
//! without vectored traps, further counters and custom registers. `specs/Registers.antt` has the table
//! of registers, and `specs/Traps.antt` the rest.
#![tactic(auto)]

ghost use Rattle.std.specs.Prelude.{◌≡◌, ◌<◌, ◌%◌, None, if◌then◌else◌, is_some, unwrap_or};
ghost use Rattle.tv_trap.specs.Registers.{aligned, csr_read, csr_write, is_set, value_of, with_value};
ghost use Rattle.tv_trap.specs.Traps.{counted, counted_by, first_csrs, first_interrupt, pending_interrupt, trap_entry, trap_return};

mod registers;

use registers::Register;
use std::marker::Model;
use tv_base::HartNo;

/// RV64 with the extensions I, M and A.
const MISA: u64 = 0x8000_0000_0000_1101;

/// MPP of mstatus: machine mode.
const MPP: u64 = 0x1800;

/// The places of MIE and MPIE in mstatus.
const MIE: u32 = 3;

const MPIE: u32 = 7;

/// The bits of the three interrupts in mie and mip, which are their causes too.
const SOFTWARE: u32 = 3;

const TIMER: u32 = 7;

const EXTERNAL: u32 = 11;

/// The three bits together.
const INTERRUPTS: u64 = 0x888;

/// The bit of a cause that says that it is an interrupt.
const IS_INTERRUPT: u64 = 1 << 63;

/// The control and status registers of one hart.
#[derive(Clone, Copy)]
pub struct Csrs {
    hart: HartNo,
    mstatus_mie: bool,
    mstatus_mpie: bool,
    mie: u64,
    mtvec: u64,
    mscratch: u64,
    mepc: u64,
    mcause: u64,
    mtval: u64,
    mcycle: u64,
    minstret: u64,
}

impl Model for Csrs {
    ghost use Rattle.std.specs.Prelude.{◌≡◌, ◌%◌};
    ghost use Rattle.tv_trap.specs.CsrState.{CsrState};

    ghost Value = { CsrState };

    ghost view = { λ csrs. record {
      hart = csrs.hart;
      mstatus_mie = csrs.mstatus_mie;
      mstatus_mpie = csrs.mstatus_mpie;
      mie = csrs.mie;
      mtvec = csrs.mtvec;
      mscratch = csrs.mscratch;
      mepc = csrs.mepc;
      mcause = csrs.mcause;
      mtval = csrs.mtval;
      mcycle = csrs.mcycle;
      minstret = csrs.minstret;
    } };

    ghost invariant = { λ csrs. (csrs.mtvec % 4 ≡ 0) × (csrs.mepc % 4 ≡ 0) };

    ghost inverse = { λ s. record {
      hart = s.hart;
      mstatus_mie = s.mstatus_mie;
      mstatus_mpie = s.mstatus_mpie;
      mie = s.mie;
      mtvec = s.mtvec;
      mscratch = s.mscratch;
      mepc = s.mepc;
      mcause = s.mcause;
      mtval = s.mtval;
      mcycle = s.mcycle;
      minstret = s.minstret;
    } };
}

impl Csrs {
    /// The registers of a hart that starts.
    pub fn new(hart: HartNo) -> Csrs
        ensures { result ≡ first_csrs hart }
    {
        Csrs {
            hart,
            mstatus_mie: false,
            mstatus_mpie: false,
            mie: 0,
            mtvec: 0,
            mscratch: 0,
            mepc: 0,
            mcause: 0,
            mtval: 0,
            mcycle: 0,
            minstret: 0,
        }
    }

    /// The hart's number.
    #[inline(always)]
    pub fn hart(&self) -> HartNo
        ensures { result ≡ self.now.hart }
    {
        self.hart
    }

    /// The value of the register with this number, while these interrupt lines are up; `None` where
    /// there is no such register.
    pub fn read(&self, csr: u16, lines: u64) -> Option<u64>
        ensures { result ≡ csr_read self.now csr lines }
    {
        match Register::numbered(csr) {
            Some(register) => Some(self.value(register, lines)),
            None => None,
        }
    }

    /// The value of a register.
    fn value(&self, register: Register, lines: u64) -> u64
        ensures { result ≡ value_of register self.now lines }
    {
        match register {
            Register::Mstatus => {
                let mpie = if self.mstatus_mpie { 1 << MPIE } else { 0 };
                let mie = if self.mstatus_mie { 1 << MIE } else { 0 };
                MPP + mpie + mie
            }
            Register::Misa => MISA,
            Register::Mie => self.mie,
            Register::Mtvec => self.mtvec,
            Register::Mscratch => self.mscratch,
            Register::Mepc => self.mepc,
            Register::Mcause => self.mcause,
            Register::Mtval => self.mtval,
            Register::Mip => lines & INTERRUPTS,
            Register::Mcycle => self.mcycle,
            Register::Minstret => self.minstret,
            Register::Mvendorid | Register::Marchid | Register::Mimpid => 0,
            Register::Mhartid => u64::from(self.hart.get()),
        }
    }

    /// Writes the register with this number, which keeps what its row says. False where there is no
    /// such register or it is read-only, and nothing changes then.
    pub fn write(&mut self, csr: u16, value: u64) -> bool
        ensures accepted { result ≡ is_some (csr_write self.old csr value) }
        ensures registers { self.new ≡ unwrap_or (csr_write self.old csr value) self.old }
    {
        match Register::numbered(csr) {
            Some(register) => self.set(register, value),
            None => false,
        }
    }

    /// Writes a register; false where it is read-only.
    fn set(&mut self, register: Register, value: u64) -> bool
        ensures accepted { result ≡ is_some (with_value register self.old value) }
        ensures registers { self.new ≡ unwrap_or (with_value register self.old value) self.old }
    {
        match register {
            Register::Mstatus => {
                self.mstatus_mie = is_bit_set(value, MIE);
                self.mstatus_mpie = is_bit_set(value, MPIE);
            }
            Register::Misa | Register::Mip => {}
            Register::Mie => self.mie = value & INTERRUPTS,
            Register::Mtvec => self.mtvec = align(value),
            Register::Mscratch => self.mscratch = value,
            Register::Mepc => self.mepc = align(value),
            Register::Mcause => self.mcause = value,
            Register::Mtval => self.mtval = value,
            Register::Mcycle => self.mcycle = value,
            Register::Minstret => self.minstret = value,
            Register::Mvendorid | Register::Marchid | Register::Mimpid | Register::Mhartid => {
                return false;
            }
        }
        true
    }

    /// Enters a trap with this cause and value at this pc, and gives the pc at which the hart goes on.
    #[inline]
    pub fn enter(&mut self, cause: u64, tval: u64, pc: u64) -> u64
        requires { pc % 4 ≡ 0 }
        ensures pc { result ≡ self.old.mtvec }
        ensures aligned { result % 4 ≡ 0 }
        ensures registers { self.new ≡ trap_entry self.old cause tval pc }
    {
        self.mepc = pc;
        self.mcause = cause;
        self.mtval = tval;
        self.mstatus_mpie = self.mstatus_mie;
        self.mstatus_mie = false;
        self.mtvec
    }

    /// Returns from a trap, and gives the pc at which the hart goes on.
    #[inline]
    pub fn mret(&mut self) -> u64
        ensures pc { result ≡ self.old.mepc }
        ensures aligned { result % 4 ≡ 0 }
        ensures registers { self.new ≡ trap_return self.old }
    {
        self.mstatus_mie = self.mstatus_mpie;
        self.mstatus_mpie = true;
        self.mepc
    }

    /// The cause of the interrupt that the hart is to take, while these lines are up; `None` where MIE
    /// is 0 or no enabled line is up.
    #[inline(always)]
    pub fn pending(&self, lines: u64) -> Option<u64>
        ensures { result ≡ pending_interrupt self.now lines }
    {
        let up = self.mie & lines;
        if up == 0 {
            return None;
        }
        self.first_of(up)
    }

    /// The cause of the first of these interrupts; `None` where MIE is 0 or none of them is one.
    #[cold]
    fn first_of(&self, up: u64) -> Option<u64>
        ensures { result ≡ if self.now.mstatus_mie then first_interrupt up else None }
    {
        if !self.mstatus_mie {
            None
        } else if is_bit_set(up, EXTERNAL) {
            Some(IS_INTERRUPT + u64::from(EXTERNAL))
        } else if is_bit_set(up, SOFTWARE) {
            Some(IS_INTERRUPT + u64::from(SOFTWARE))
        } else if is_bit_set(up, TIMER) {
            Some(IS_INTERRUPT + u64::from(TIMER))
        } else {
            None
        }
    }

    /// Counts an event, which retired an instruction or was a trap, and may have written the register
    /// with the number in `written`. A counter that was written stays.
    #[inline(always)]
    pub fn count(&mut self, retired: bool, written: Option<u16>)
        ensures { self.new ≡ counted self.old retired written }
    {
        if written != Some(Register::MCYCLE) {
            self.mcycle = self.mcycle.wrapping_add(1);
        }
        if retired && written != Some(Register::MINSTRET) {
            self.minstret = self.minstret.wrapping_add(1);
        }
    }

    /// Counts so many events, each of which retired an instruction and wrote no counter.
    #[inline(always)]
    #[tactic(auto, using(crate::proofs::Counts::all_counted))]
    pub fn count_retired(&mut self, events: u32)
        ensures { self.new ≡ counted_by self.old events }
    {
        self.mcycle = self.mcycle.wrapping_add(u64::from(events));
        self.minstret = self.minstret.wrapping_add(u64::from(events));
    }
}

/// Whether a bit of a value is 1.
#[inline(always)]
fn is_bit_set(value: u64, bit: u32) -> bool
    requires { bit < 64 }
    ensures { result ≡ is_set value bit }
{
    (value >> bit) & 1 == 1
}

/// An address with its low two bits cleared.
#[inline(always)]
fn align(addr: u64) -> u64
    ensures address { result ≡ aligned addr }
    ensures aligned { result % 4 ≡ 0 }
{
    addr - addr % 4
}

#[cfg(test)]
mod tests;
