//! A hart, and one event of it: it takes a pending interrupt, or carries out the instruction at its pc.
#![tactic(auto)]

mod cause;
mod effect;
mod loads;
mod operation;
mod place;

ghost use Rattle.std.specs.Prelude.{◌≡◌, ◌==◌, ◌<◌, ◌%◌, if◌then◌else◌, is_some, IsSome, MatchOption, None, true};
ghost use Rattle.tv_base.specs.Width.{width_bytes};
ghost use Rattle.tv_exec.specs.Atomic.{IsAmoWidth};
ghost use Rattle.tv_hart.specs.Effect.{FitsEffect};
ghost use Rattle.tv_trap.specs.Registers.{csr_write};
ghost use Rattle.tv_hart.specs.Hart.{
  first_hart,
  next_pc,
  put,
  with_csrs,
  retired,
  trapped,
  waiting_for,
  csr_written,
  returned,
  if_aligned,
  after_load,
  after_store,
  after_number,
  after_conditional,
  carried,
  stepped,
  finished,
  OnNoEvent,
  WaitsAfter,
};
ghost use Rattle.std.specs.Bool.{OnTrue, OnFalse};
ghost use Rattle.tv_hart.specs.Plain.{moved, IsPlainEvent, IsNumberLoaded, IsNumberStored, RestsOf};
ghost use Rattle.tv_trap.specs.Traps.{counted_by, pending_interrupt};

use effect::{Effect, csr_value_of, effect_of_operation};
use loads::extended_number;
pub use loads::{Extension, Waiting};
use operation::operation_of_instr;
pub use place::{Loaded, Place, Stored};
use std::marker::Model;
use tv_base::{HartNo, RAM_BASE, Width};
use tv_exec::AmoOp;
use tv_trap::Csrs;

/// What one event did.
#[derive(Clone, Copy, PartialEq, Eq, Debug)]
pub enum Did {
    /// The instruction was carried out.
    Retired,
    /// A trap was entered, with this cause. An interrupt's has bit 63 set.
    Trapped(u64),
    /// A load was issued whose value comes later. The pc moved on, and the hart waits.
    Held,
    /// The place had no room for the load or store. Nothing changed.
    Full,
}

/// A hart: its registers, the address of its next instruction, its control and status registers, which have its number, and
/// the load that it waits for, if any.
#[derive(Drop)]
pub struct Hart {
    registers: [u64; 32],
    pc: u64,
    csrs: Csrs,
    waiting: Option<Waiting>,
}

impl Model for Hart {
    ghost use Rattle.std.specs.Prelude.{◌≡◌, ◌%◌, slice_index};
    ghost use Rattle.tv_hart.specs.HartState.{HartState, HasRegister};

    ghost Value = { HartState };

    ghost view = { λ hart. record { registers = hart.registers; pc = hart.pc; csrs = hart.csrs; waits = hart.waiting } };

    ghost invariant = { λ hart. (slice_index hart.registers 0 ≡ 0) × (hart.pc % 4 ≡ 0) × HasRegister hart.waiting };
}

impl Hart {
    /// A hart at the start of memory, with its number in x10 and zeros in the other registers.
    pub fn new(hart: HartNo) -> Hart
        ensures { result ≡ first_hart hart }
    {
        let mut registers = [0; 32];
        registers[10] = u64::from(hart.get());
        Hart {
            registers,
            pc: RAM_BASE,
            csrs: Csrs::new(hart),
            waiting: None,
        }
    }

    /// The same hart again.
    pub fn copy(&self) -> Hart
        ensures { result ≡ self.now }
    {
        Hart {
            registers: self.registers,
            pc: self.pc,
            csrs: self.csrs,
            waiting: self.waiting,
        }
    }

    /// Whether the hart waits for the value of a load.
    pub fn waits(&self) -> bool
        ensures { result ≡ is_some self.now.waits }
    {
        self.waiting.is_some()
    }

    /// One event, while these interrupt lines are up: an interrupt is taken, or the instruction at the pc is carried out
    /// over the place.
    #[inline(always)]
    pub fn step<P: Place>(&mut self, place: &mut P, lines: u64) -> Did
        requires { self.old.waits ≡ None }
        ensures event { (result, self.new, place.new) ≡ stepped P.meaning self.old place.old lines }
        ensures unchanged { OnNoEvent result ((self.new ≡ self.old) × (place.new ≡ place.old)) }
        ensures waits { WaitsAfter result self.new.waits }
    {
        if let Some(cause) = self.csrs.pending(lines) {
            return self.trap(cause, 0);
        }
        let pc = self.pc;
        let Some(word) = place.fetch(pc) else {
            return self.trap(cause::INSTRUCTION_ACCESS_FAULT, pc);
        };
        let Some(instr) = tv_isa::decode(word) else {
            return self.trap(cause::ILLEGAL_INSTRUCTION, u64::from(word));
        };
        let effect = effect_of_operation(operation_of_instr(instr), &self.registers, pc);
        self.carry_out(place, lines, word, effect)
    }

    /// Carries out the instruction at the pc where that puts a value, jumps, or loads or stores in memory, and traps not. `false`, and nothing
    /// changed, where it does anything else. The event isn't counted, and no interrupt is taken.
    #[inline(always)]
    pub fn plain<P: Place>(&mut self, place: &mut P) -> bool
        ensures event { OnTrue result (IsPlainEvent P.meaning self.old place.old self.new place.new) }
        ensures rest { RestsOf self.old self.new }
        ensures calm { P.calm place.old place.new }
        ensures unchanged { OnFalse result ((self.new ≡ self.old) × (place.new ≡ place.old)) }
    {
        let pc = self.pc;
        let Some(word) = place.fetch(pc) else {
            return false;
        };
        let Some(instr) = tv_isa::decode(word) else {
            return false;
        };
        match effect_of_operation(operation_of_instr(instr), &self.registers, pc) {
            Effect::Put(rd, value) => self.go_on(rd, value),
            Effect::Jump(rd, target) => self.go_to(rd, target),
            Effect::Goto(target) => self.go_to(0, target),
            Effect::Load(width, extension, rd, addr) => self.load_number(
                place, width, extension, rd, addr,
            ),
            Effect::Store(width, addr, value) => self.store_number(place, width, addr, value),
            Effect::Pass => self.go_on(0, 0),
            Effect::Reserve(..)
            | Effect::Conditional(..)
            | Effect::Amo(..)
            | Effect::Csr(..)
            | Effect::Trap(_)
            | Effect::Return => false,
        }
    }

    /// Counts so many events, each of which retired its instruction.
    #[inline(always)]
    pub fn count(&mut self, events: u32)
        ensures { self.new ≡ with_csrs self.old (counted_by self.old.csrs events) }
    {
        self.csrs.count_retired(events);
    }

    /// Whether an interrupt is to be taken, while these lines are up.
    #[inline(always)]
    pub fn is_interrupted(&self, lines: u64) -> bool
        ensures { result ≡ is_some (pending_interrupt self.now.csrs lines) }
    {
        self.csrs.pending(lines).is_some()
    }

    /// The value of the load that the hart waits for, of which the low bytes of the load's width count.
    /// The hart waits no more.
    pub fn finish_load(&mut self, value: u64)
        requires { IsSome self.old.waits }
        ensures { self.new ≡ finished self.old value }
    {
        if let Some(waiting) = self.waiting {
            self.waiting = None;
            self.set_register(
                waiting.rd,
                extended_number(waiting.extension, waiting.width, value),
            );
        }
    }

    /// Carries out the effect of a word over the place.
    #[inline(always)]
    fn carry_out<P: Place>(&mut self, place: &mut P, lines: u64, word: u32, effect: Effect) -> Did
        requires none_waits { self.old.waits ≡ None }
        requires fits { FitsEffect effect }
        ensures event { (result, self.new, place.new) ≡ carried P.meaning self.old place.old lines word effect }
        ensures unchanged { OnNoEvent result ((self.new ≡ self.old) × (place.new ≡ place.old)) }
        ensures waits { WaitsAfter result self.new.waits }
    {
        match effect {
            Effect::Put(rd, value) => self.retire(rd, value),
            Effect::Jump(rd, target) => self.jump(rd, target),
            Effect::Goto(target) => self.jump(0, target),
            // In each access the width is a constant, so that what is inlined there asks for it no more.
            Effect::Load(width, extension, rd, addr) => match (width, extension) {
                (Width::B1, Extension::Sign) => self.load(
                    place,
                    Width::B1,
                    Extension::Sign,
                    rd,
                    addr,
                ),
                (Width::B2, Extension::Sign) => self.load(
                    place,
                    Width::B2,
                    Extension::Sign,
                    rd,
                    addr,
                ),
                (Width::B4, Extension::Sign) => self.load(
                    place,
                    Width::B4,
                    Extension::Sign,
                    rd,
                    addr,
                ),
                (Width::B1, Extension::Zero) => self.load(
                    place,
                    Width::B1,
                    Extension::Zero,
                    rd,
                    addr,
                ),
                (Width::B2, Extension::Zero) => self.load(
                    place,
                    Width::B2,
                    Extension::Zero,
                    rd,
                    addr,
                ),
                (Width::B4, Extension::Zero) => self.load(
                    place,
                    Width::B4,
                    Extension::Zero,
                    rd,
                    addr,
                ),
                (Width::B8, _) => self.load(place, Width::B8, extension, rd, addr),
            },
            Effect::Store(width, addr, value) => match width {
                Width::B1 => self.store(place, Width::B1, addr, value),
                Width::B2 => self.store(place, Width::B2, addr, value),
                Width::B4 => self.store(place, Width::B4, addr, value),
                Width::B8 => self.store(place, Width::B8, addr, value),
            },
            Effect::Reserve(width, rd, addr) => self.reserve(place, width, rd, addr),
            Effect::Conditional(width, rd, addr, value) => self.conditional(
                place, width, rd, addr, value,
            ),
            Effect::Amo(op, width, rd, addr, value) => self.amo(place, op, width, rd, addr, value),
            Effect::Csr(op, rd, csr, operand, writes) => {
                match self.csrs.read(csr, lines) {
                    Some(old) if writes => {
                        let value = csr_value_of(op, old, operand);
                        self.write_csr(word, rd, csr, old, value)
                    }
                    Some(old) => self.retire(rd, old),
                    None => self.trap(cause::ILLEGAL_INSTRUCTION, u64::from(word)),
                }
            }
            Effect::Trap(cause) => self.trap(cause, 0),
            Effect::Return => self.return_from_trap(),
            Effect::Pass => self.retire(0, 0),
        }
    }

    /// Jumps to a target, with the address after the jump in a register. A target that isn't a multiple of 4 traps.
    #[inline(always)]
    fn jump(&mut self, rd: u8, target: u64) -> Did
        requires { rd < 32 }
        ensures did { result ≡ (if target % 4 == 0 then Did.Retired else Did.Trapped 0) }
        ensures hart { self.new ≡ (if target % 4 == 0 then retired self.old target rd (next_pc self.old)
            else trapped self.old 0 target) }
    {
        if target % 4 != 0 {
            return self.trap(cause::INSTRUCTION_ADDRESS_MISALIGNED, target);
        }
        let next = self.next();
        self.retire_at(target, rd, next)
    }

    /// Loads into a register, now or later.
    #[inline(always)]
    fn load<P: Place>(
        &mut self,
        place: &mut P,
        width: Width,
        extension: Extension,
        rd: u8,
        addr: u64,
    ) -> Did
        requires exists { rd < 32 }
        requires none_waits { self.old.waits ≡ None }
        ensures event { (result, self.new, place.new) ≡ if_aligned self.old place.old 4 width addr
            (after_load self.old width extension rd addr (P.meaning.load place.old self.old.csrs.hart width addr)) }
        ensures unchanged { OnNoEvent result ((self.new ≡ self.old) × (place.new ≡ place.old)) }
        ensures waits { WaitsAfter result self.new.waits }
    {
        if !is_aligned(width, addr) {
            return self.trap(cause::LOAD_ADDRESS_MISALIGNED, addr);
        }
        match place.load(self.csrs.hart(), width, addr) {
            Loaded::Value(value) => self.retire(rd, extended_number(extension, width, value)),
            Loaded::Held => self.wait(Waiting {
                rd,
                width,
                extension,
            }),
            Loaded::Full => Did::Full,
            Loaded::Nothing => self.trap(cause::LOAD_ACCESS_FAULT, addr),
        }
    }

    /// Stores a value.
    #[inline(always)]
    fn store<P: Place>(&mut self, place: &mut P, width: Width, addr: u64, value: u64) -> Did
        requires none_waits { self.old.waits ≡ None }
        ensures event { (result, self.new, place.new) ≡ if_aligned self.old place.old 6 width addr
            (after_store self.old addr (P.meaning.store place.old self.old.csrs.hart width addr value)) }
        ensures unchanged { OnNoEvent result ((self.new ≡ self.old) × (place.new ≡ place.old)) }
        ensures waits { WaitsAfter result self.new.waits }
    {
        if !is_aligned(width, addr) {
            return self.trap(cause::STORE_ADDRESS_MISALIGNED, addr);
        }
        match place.store(self.csrs.hart(), width, addr, value) {
            Stored::Done => self.retire(0, 0),
            Stored::Full => Did::Full,
            Stored::Nothing => self.trap(cause::STORE_ACCESS_FAULT, addr),
        }
    }

    /// LR: loads into a register, and reserves.
    fn reserve<P: Place>(&mut self, place: &mut P, width: Width, rd: u8, addr: u64) -> Did
        requires exists { rd < 32 }
        requires width { IsAmoWidth width }
        requires none_waits { self.old.waits ≡ None }
        ensures event { (result, self.new, place.new) ≡ if_aligned self.old place.old 4 width addr
            (after_number self.old 5 width rd addr (P.meaning.reserve place.old self.old.csrs.hart width addr)) }
        ensures unchanged { OnNoEvent result ((self.new ≡ self.old) × (place.new ≡ place.old)) }
        ensures waits { WaitsAfter result self.new.waits }
    {
        if !is_aligned(width, addr) {
            return self.trap(cause::LOAD_ADDRESS_MISALIGNED, addr);
        }
        match place.reserve(self.csrs.hart(), width, addr) {
            Some(value) => self.retire(rd, extended_number(Extension::Sign, width, value)),
            None => self.trap(cause::LOAD_ACCESS_FAULT, addr),
        }
    }

    /// SC: stores a value where the address is reserved, and tells in a register.
    fn conditional<P: Place>(
        &mut self,
        place: &mut P,
        width: Width,
        rd: u8,
        addr: u64,
        value: u64,
    ) -> Did
        requires exists { rd < 32 }
        requires width { IsAmoWidth width }
        requires none_waits { self.old.waits ≡ None }
        ensures event { (result, self.new, place.new) ≡ if_aligned self.old place.old 6 width addr
            (after_conditional self.old rd addr (P.meaning.conditional place.old self.old.csrs.hart width addr value)) }
        ensures unchanged { OnNoEvent result ((self.new ≡ self.old) × (place.new ≡ place.old)) }
        ensures waits { WaitsAfter result self.new.waits }
    {
        if !is_aligned(width, addr) {
            return self.trap(cause::STORE_ADDRESS_MISALIGNED, addr);
        }
        match place.conditional(self.csrs.hart(), width, addr, value) {
            Some(done) => self.retire(rd, u64::from(!done)),
            None => self.trap(cause::STORE_ACCESS_FAULT, addr),
        }
    }

    /// AMO: puts the value of an operation into memory, and the old number into a register.
    fn amo<P: Place>(
        &mut self,
        place: &mut P,
        op: AmoOp,
        width: Width,
        rd: u8,
        addr: u64,
        value: u64,
    ) -> Did
        requires exists { rd < 32 }
        requires width { IsAmoWidth width }
        requires none_waits { self.old.waits ≡ None }
        ensures event { (result, self.new, place.new) ≡ if_aligned self.old place.old 6 width addr
            (after_number self.old 7 width rd addr (P.meaning.amo place.old self.old.csrs.hart width addr op value)) }
        ensures unchanged { OnNoEvent result ((self.new ≡ self.old) × (place.new ≡ place.old)) }
        ensures waits { WaitsAfter result self.new.waits }
    {
        if !is_aligned(width, addr) {
            return self.trap(cause::STORE_ADDRESS_MISALIGNED, addr);
        }
        match place.amo(self.csrs.hart(), width, addr, op, value) {
            Some(old) => self.retire(rd, extended_number(Extension::Sign, width, old)),
            None => self.trap(cause::STORE_ACCESS_FAULT, addr),
        }
    }

    /// Writes a control and status register, and puts its old value into a register. A write that is refused traps.
    fn write_csr(&mut self, word: u32, rd: u8, csr: u16, old: u64, value: u64) -> Did
        requires { rd < 32 }
        ensures { MatchOption (csr_write self.old.csrs csr value)
            ((result ≡ Did.Trapped 2) × (self.new ≡ trapped self.old 2 word))
            (λ csrs. (result ≡ Did.Retired) × (self.new ≡ csr_written self.old rd csr old csrs)) }
    {
        if !self.csrs.write(csr, value) {
            return self.trap(cause::ILLEGAL_INSTRUCTION, u64::from(word));
        }
        self.set_register(rd, old);
        self.pc = self.next();
        self.csrs.count(true, Some(csr));
        Did::Retired
    }

    /// MRET: goes on where the last trap was entered.
    fn return_from_trap(&mut self) -> Did
        ensures did { result ≡ Did.Retired }
        ensures hart { self.new ≡ returned self.old }
    {
        self.pc = self.csrs.mret();
        self.csrs.count(true, None);
        Did::Retired
    }

    /// Enters a trap with this cause, which tells a value.
    fn trap(&mut self, cause: u64, tval: u64) -> Did
        ensures did { result ≡ Did.Trapped cause }
        ensures hart { self.new ≡ trapped self.old cause tval }
    {
        let pc = self.pc;
        self.pc = self.csrs.enter(cause, tval, pc);
        self.csrs.count(false, None);
        Did::Trapped(cause)
    }

    /// Puts a value into a register, goes on to the next instruction and counts the event.
    #[inline(always)]
    fn retire(&mut self, rd: u8, value: u64) -> Did
        requires { rd < 32 }
        ensures did { result ≡ Did.Retired }
        ensures hart { self.new ≡ retired self.old (next_pc self.old) rd value }
    {
        let next = self.next();
        self.retire_at(next, rd, value)
    }

    /// Puts a value into a register, goes on at a pc and counts the event.
    #[inline(always)]
    fn retire_at(&mut self, pc: u64, rd: u8, value: u64) -> Did
        requires exists { rd < 32 }
        requires aligned { pc % 4 ≡ 0 }
        ensures did { result ≡ Did.Retired }
        ensures hart { self.new ≡ retired self.old pc rd value }
    {
        self.set_register(rd, value);
        self.pc = pc;
        self.csrs.count(true, None);
        Did::Retired
    }

    /// Goes on to the next instruction, waits for the value of a load and counts the event.
    fn wait(&mut self, waiting: Waiting) -> Did
        requires { waiting.rd < 32 }
        ensures did { result ≡ Did.Held }
        ensures hart { self.new ≡ waiting_for self.old waiting.width waiting.extension waiting.rd }
    {
        self.waiting = Some(waiting);
        self.pc = self.next();
        self.csrs.count(true, None);
        Did::Held
    }

    /// Puts a value into a register and goes on to the next instruction, uncounted.
    #[inline(always)]
    fn go_on(&mut self, rd: u8, value: u64) -> bool
        requires { rd < 32 }
        ensures done { result ≡ true }
        ensures hart { self.new ≡ moved self.old (next_pc self.old) rd value }
    {
        let next = self.next();
        self.set_register(rd, value);
        self.pc = next;
        true
    }

    /// Jumps to a target, with the address after the jump in a register, uncounted. `false`, and nothing changed, where the target isn't a multiple
    /// of 4.
    #[inline(always)]
    fn go_to(&mut self, rd: u8, target: u64) -> bool
        requires { rd < 32 }
        ensures done { result ≡ (target % 4 == 0) }
        ensures hart { OnTrue result (self.new ≡ moved self.old target rd (next_pc self.old)) }
        ensures unchanged { OnFalse result (self.new ≡ self.old) }
    {
        if target % 4 != 0 {
            return false;
        }
        let next = self.next();
        self.set_register(rd, next);
        self.pc = target;
        true
    }

    /// Loads a number of memory into a register, uncounted. `false`, and nothing changed, where it isn't aligned or doesn't lie in memory.
    #[inline(always)]
    fn load_number<P: Place>(
        &mut self,
        place: &P,
        width: Width,
        extension: Extension,
        rd: u8,
        addr: u64,
    ) -> bool
        requires { rd < 32 }
        ensures loaded { OnTrue result (IsNumberLoaded P.meaning self.old place.now width extension rd addr self.new) }
        ensures unchanged { OnFalse result (self.new ≡ self.old) }
    {
        match (width, extension) {
            (Width::B1, Extension::Sign) => self.load_as(
                place,
                Width::B1,
                Extension::Sign,
                rd,
                addr,
            ),
            (Width::B1, Extension::Zero) => self.load_as(
                place,
                Width::B1,
                Extension::Zero,
                rd,
                addr,
            ),
            (Width::B2, Extension::Sign) => self.load_as(
                place,
                Width::B2,
                Extension::Sign,
                rd,
                addr,
            ),
            (Width::B2, Extension::Zero) => self.load_as(
                place,
                Width::B2,
                Extension::Zero,
                rd,
                addr,
            ),
            (Width::B4, Extension::Sign) => self.load_as(
                place,
                Width::B4,
                Extension::Sign,
                rd,
                addr,
            ),
            (Width::B4, Extension::Zero) => self.load_as(
                place,
                Width::B4,
                Extension::Zero,
                rd,
                addr,
            ),
            (Width::B8, _) => self.load_as(place, Width::B8, extension, rd, addr),
        }
    }

    /// What `load_number` does, compiled for a width and an extension of its own.
    #[inline(always)]
    fn load_as<P: Place>(
        &mut self,
        place: &P,
        width: Width,
        extension: Extension,
        rd: u8,
        addr: u64,
    ) -> bool
        requires { rd < 32 }
        ensures loaded { OnTrue result (IsNumberLoaded P.meaning self.old place.now width extension rd addr self.new) }
        ensures unchanged { OnFalse result (self.new ≡ self.old) }
    {
        if !is_aligned(width, addr) {
            return false;
        }
        match place.number(width, addr) {
            Some(value) => self.go_on(rd, extended_number(extension, width, value)),
            None => false,
        }
    }

    /// Stores a number to memory, uncounted. `false`, and nothing changed, where it isn't aligned or doesn't lie in memory.
    #[inline(always)]
    fn store_number<P: Place>(&mut self, place: &mut P, width: Width, addr: u64, value: u64) -> bool
        ensures stored { OnTrue result (IsNumberStored P.meaning self.old place.old width addr value self.new place.new) }
        ensures calm { P.calm place.old place.new }
        ensures unchanged { OnFalse result ((self.new ≡ self.old) × (place.new ≡ place.old)) }
    {
        match width {
            Width::B1 => self.store_as(place, Width::B1, addr, value),
            Width::B2 => self.store_as(place, Width::B2, addr, value),
            Width::B4 => self.store_as(place, Width::B4, addr, value),
            Width::B8 => self.store_as(place, Width::B8, addr, value),
        }
    }

    /// What `store_number` does, compiled for a width of its own.
    #[inline(always)]
    fn store_as<P: Place>(&mut self, place: &mut P, width: Width, addr: u64, value: u64) -> bool
        ensures stored { OnTrue result (IsNumberStored P.meaning self.old place.old width addr value self.new place.new) }
        ensures calm { P.calm place.old place.new }
        ensures unchanged { OnFalse result ((self.new ≡ self.old) × (place.new ≡ place.old)) }
    {
        if !is_aligned(width, addr) {
            return false;
        }
        place.put_number(self.csrs.hart(), width, addr, value) && self.go_on(0, 0)
    }

    /// The address after the instruction at the pc.
    #[inline(always)]
    fn next(&self) -> u64
        ensures pc { result ≡ next_pc self.now }
        ensures aligned { result % 4 ≡ 0 }
    {
        self.pc.wrapping_add(4)
    }

    /// Puts a value into a register, unless that is x0.
    #[inline(always)]
    fn set_register(&mut self, rd: u8, value: u64)
        requires { rd < 32 }
        ensures { self.new ≡ put self.old rd value }
    {
        if rd != 0 {
            self.registers[usize::from(rd)] = value;
        }
    }
}

/// Whether an address is a multiple of the width of an access.
#[inline(always)]
fn is_aligned(width: Width, addr: u64) -> bool
    ensures { result ≡ (addr % width_bytes width == 0) }
{
    addr % u64::from(width.bytes()) == 0
}

#[cfg(test)]
mod tests;
