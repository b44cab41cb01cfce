//! What an operation does to its hart and asks of the place.

ghost use Rattle.std.specs.Prelude.{◌≡◌, ◌<◌, ◌^◌, slice_index};
ghost use Rattle.tv_hart.specs.Effect.{
  effect_of,
  sum_64,
  FitsOperation,
  FitsEffect,
  register,
  immediate,
  branch_offset,
  upper_immediate,
  jump_offset,
  writes,
  csr_value,
};

use crate::cause;
use crate::loads::Extension;
use crate::operation::{CsrOp, Operation};
use tv_base::Width;
use tv_exec::{AmoOp, alu, alu_w, branch, mul_div, mul_div_w, word_extended};

/// What an operation does. Its hart's pc goes on to the next instruction where nothing else is said.
#[derive(Clone, Copy)]
pub enum Effect {
    /// A register gets a value.
    Put(u8, u64),
    /// The next pc goes into a register, and the hart to a target.
    Jump(u8, u64),
    /// The hart goes to a target.
    Goto(u64),
    /// A register gets what lies at an address.
    Load(Width, Extension, u8, u64),
    /// A value is stored at an address: the address, the value.
    Store(Width, u64, u64),
    /// A register gets what lies at an address, which is then reserved.
    Reserve(Width, u8, u64),
    /// A value is stored at an address where that is reserved, and a register gets whether: the register, the address, the
    /// value.
    Conditional(Width, u8, u64, u64),
    /// A register gets what lies at an address, and the value of the operation is put there: the register, the address, the
    /// operand.
    Amo(AmoOp, Width, u8, u64, u64),
    /// A register gets a control and status register, which an operand may change: the register, the number, the operand,
    /// and whether it is written.
    Csr(CsrOp, u8, u16, u64, bool),
    /// A trap with this cause and no further value.
    Trap(u64),
    /// The return from a trap.
    Return,
    /// Nothing.
    Pass,
}

/// The value of a register. Register 0 holds 0.
#[inline(always)]
fn value_of(registers: &[u64; 32], i: u8) -> u64
    requires exists { i < 32 }
    requires zero { slice_index registers.now 0 ≡ 0 }
    ensures { result ≡ register registers.now i }
{
    registers[usize::from(i)]
}

/// An immediate of the formats I and S, sign-extended: its sign goes to the top of a word, and the way back copies it.
#[inline(always)]
fn short_immediate(imm: u32) -> u64
    requires { imm < 2 ^ 12 }
    ensures { result ≡ immediate imm }
{
    (i64::from((imm << 20).cast_signed()) >> 20).cast_unsigned()
}

/// An immediate of the format U, in its place and sign-extended.
#[inline(always)]
fn long_immediate(imm: u32) -> u64
    requires { imm < 2 ^ 20 }
    ensures { result ≡ upper_immediate imm }
{
    word_extended(imm << 12)
}

/// The offset of a branch, sign-extended.
#[inline(always)]
fn branch_distance(offset: u32) -> u64
    requires { offset < 2 ^ 13 }
    ensures { result ≡ branch_offset offset }
{
    (i64::from((offset << 19).cast_signed()) >> 19).cast_unsigned()
}

/// The offset of a jump, sign-extended.
#[inline(always)]
fn jump_distance(offset: u32) -> u64
    requires { offset < 2 ^ 21 }
    ensures { result ≡ jump_offset offset }
{
    (i64::from((offset << 11).cast_signed()) >> 11).cast_unsigned()
}

/// The address that a register and an immediate give.
#[inline(always)]
fn address(registers: &[u64; 32], rs1: u8, imm: u32) -> u64
    requires exists { rs1 < 32 }
    requires fits { imm < 2 ^ 12 }
    requires zero { slice_index registers.now 0 ≡ 0 }
    ensures { result ≡ sum_64 (register registers.now rs1) (immediate imm) }
{
    value_of(registers, rs1).wrapping_add(short_immediate(imm))
}

/// Whether an instruction writes its control and status register, by its field rs1 or the immediate in its place.
#[inline(always)]
fn is_written(op: CsrOp, field: u8) -> bool
    ensures { result ≡ writes op field }
{
    match op {
        CsrOp::Write => true,
        CsrOp::Set | CsrOp::Clear => field != 0,
    }
}

/// What a control and status register gets, by its old value and the operand.
pub fn csr_value_of(op: CsrOp, old: u64, operand: u64) -> u64
    ensures { result ≡ csr_value op old operand }
{
    match op {
        CsrOp::Write => operand,
        CsrOp::Set => old | operand,
        CsrOp::Clear => old & !operand,
    }
}

/// The effect of an operation, over the registers and the pc.
#[inline(always)]
pub fn effect_of_operation(operation: Operation, registers: &[u64; 32], pc: u64) -> Effect
    requires fits { FitsOperation operation }
    requires zero { slice_index registers.now 0 ≡ 0 }
    ensures effect { result ≡ effect_of operation registers.now pc }
    ensures fits { FitsEffect result }
{
    match operation {
        Operation::Upper(rd, imm) => Effect::Put(rd, long_immediate(imm)),
        Operation::UpperFromPc(rd, imm) => Effect::Put(rd, pc.wrapping_add(long_immediate(imm))),
        Operation::Link(rd, offset) => Effect::Jump(rd, pc.wrapping_add(jump_distance(offset))),
        Operation::LinkRegister(rd, rs1, imm) => {
            let sum = address(registers, rs1, imm);
            Effect::Jump(rd, sum - sum % 2)
        }
        Operation::Branch(op, rs1, rs2, offset) => {
            if branch(op, value_of(registers, rs1), value_of(registers, rs2)) {
                Effect::Goto(pc.wrapping_add(branch_distance(offset)))
            } else {
                Effect::Pass
            }
        }
        Operation::Load(width, extension, rd, rs1, imm) => {
            Effect::Load(width, extension, rd, address(registers, rs1, imm))
        }
        Operation::Store(width, rs1, rs2, imm) => {
            Effect::Store(
                width,
                address(registers, rs1, imm),
                value_of(registers, rs2),
            )
        }
        Operation::Immediate(op, rd, rs1, imm) => {
            Effect::Put(rd, alu(op, value_of(registers, rs1), short_immediate(imm)))
        }
        Operation::Shift(op, rd, rs1, shamt) => {
            Effect::Put(rd, alu(op, value_of(registers, rs1), u64::from(shamt)))
        }
        Operation::WordImmediate(op, rd, rs1, imm) => {
            Effect::Put(
                rd,
                alu_w(op, value_of(registers, rs1), short_immediate(imm)),
            )
        }
        Operation::WordShift(op, rd, rs1, shamt) => {
            Effect::Put(rd, alu_w(op, value_of(registers, rs1), u64::from(shamt)))
        }
        Operation::Registers(op, rd, rs1, rs2) => {
            Effect::Put(
                rd,
                alu(op, value_of(registers, rs1), value_of(registers, rs2)),
            )
        }
        Operation::WordRegisters(op, rd, rs1, rs2) => {
            Effect::Put(
                rd,
                alu_w(op, value_of(registers, rs1), value_of(registers, rs2)),
            )
        }
        Operation::Product(op, rd, rs1, rs2) => {
            Effect::Put(
                rd,
                mul_div(op, value_of(registers, rs1), value_of(registers, rs2)),
            )
        }
        Operation::WordProduct(op, rd, rs1, rs2) => {
            Effect::Put(
                rd,
                mul_div_w(op, value_of(registers, rs1), value_of(registers, rs2)),
            )
        }
        Operation::Reserve(width, rd, rs1) => Effect::Reserve(width, rd, value_of(registers, rs1)),
        Operation::Conditional(width, rd, rs1, rs2) => {
            Effect::Conditional(
                width,
                rd,
                value_of(registers, rs1),
                value_of(registers, rs2),
            )
        }
        Operation::Amo(op, width, rd, rs1, rs2) => {
            Effect::Amo(
                op,
                width,
                rd,
                value_of(registers, rs1),
                value_of(registers, rs2),
            )
        }
        Operation::Csr(op, rd, rs1, csr) => {
            Effect::Csr(op, rd, csr, value_of(registers, rs1), is_written(op, rs1))
        }
        Operation::CsrImmediate(op, rd, uimm, csr) => {
            Effect::Csr(op, rd, csr, u64::from(uimm), is_written(op, uimm))
        }
        Operation::Call => Effect::Trap(cause::ENVIRONMENT_CALL),
        Operation::Break => Effect::Trap(cause::BREAKPOINT),
        Operation::Return => Effect::Return,
        Operation::Nothing => Effect::Pass,
    }
}
