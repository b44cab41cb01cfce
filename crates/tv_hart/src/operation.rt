//! What an instruction does: the rows of the listing, grouped by operation.

ghost use Rattle.std.specs.Prelude.{◌≡◌};
ghost use Rattle.tv_isa.specs.Table.{InRange};
ghost use Rattle.tv_hart.specs.Operation.{operation_of};
ghost use Rattle.tv_hart.specs.Effect.{FitsOperation};

use crate::loads::Extension;
use tv_base::Width;
use tv_exec::{Alu, AmoOp, Branch, MulDiv};
use tv_isa::Instr;

/// An operation, over what its instruction has. Registers `rd`, `rs1` and `rs2` are numbers below 32; immediates, offsets
/// and shift amounts are the raw numbers of the instruction's format.
#[derive(Clone, Copy)]
pub enum Operation {
    /// `rd`, immediate: `rd` gets the upper immediate.
    Upper(u8, u32),
    /// `rd`, immediate: `rd` gets the upper immediate plus the pc.
    UpperFromPc(u8, u32),
    /// `rd`, offset: a jump, with the next pc in `rd`.
    Link(u8, u32),
    /// `rd`, `rs1`, immediate: a jump to `rs1` plus the immediate, with the next pc in `rd`.
    LinkRegister(u8, u8, u32),
    /// Condition, `rs1`, `rs2`, offset: a jump where the condition holds.
    Branch(Branch, u8, u8, u32),
    /// `rd`, `rs1`, immediate: `rd` gets what lies at `rs1` plus the immediate.
    Load(Width, Extension, u8, u8, u32),
    /// `rs1`, `rs2`, immediate: `rs2` is stored at `rs1` plus the immediate.
    Store(Width, u8, u8, u32),
    /// `rd`, `rs1`, immediate.
    Immediate(Alu, u8, u8, u32),
    /// `rd`, `rs1`, shift amount.
    Shift(Alu, u8, u8, u32),
    /// `rd`, `rs1`, immediate, on the low word.
    WordImmediate(Alu, u8, u8, u32),
    /// `rd`, `rs1`, shift amount, on the low word.
    WordShift(Alu, u8, u8, u32),
    /// `rd`, `rs1`, `rs2`.
    Registers(Alu, u8, u8, u8),
    /// `rd`, `rs1`, `rs2`, on the low words.
    WordRegisters(Alu, u8, u8, u8),
    /// `rd`, `rs1`, `rs2`.
    Product(MulDiv, u8, u8, u8),
    /// `rd`, `rs1`, `rs2`, on the low words.
    WordProduct(MulDiv, u8, u8, u8),
    /// `rd`, `rs1`: `rd` gets what lies at `rs1`, which is then reserved.
    Reserve(Width, u8, u8),
    /// `rd`, `rs1`, `rs2`: `rs2` is stored at `rs1` where that is reserved; `rd` gets 0 if it is stored, else 1.
    Conditional(Width, u8, u8, u8),
    /// `rd`, `rs1`, `rs2`: `rd` gets what lies at `rs1`, and the value of the operation is put there.
    Amo(AmoOp, Width, u8, u8, u8),
    /// `rd`, `rs1`, number: `rd` gets a control and status register, which `rs1` changes.
    Csr(CsrOp, u8, u8, u16),
    /// `rd`, immediate, number: the same with an immediate.
    CsrImmediate(CsrOp, u8, u8, u16),
    /// A call of the environment.
    Call,
    /// A breakpoint.
    Break,
    /// The return from a trap.
    Return,
    /// Nothing: a hart's accesses are made in order, and it never sleeps.
    Nothing,
}

/// What becomes of a control and status register.
#[derive(Clone, Copy)]
pub enum CsrOp {
    /// It gets the operand.
    Write,
    /// It gets the operand's bits beside its own.
    Set,
    /// It loses the operand's bits.
    Clear,
}

/// The operation of an instruction.
#[inline(always)]
pub fn operation_of_instr(instr: Instr) -> Operation
    requires { InRange instr }
    ensures operation { result ≡ operation_of instr }
    ensures fits { FitsOperation result }
{
    match instr {
        Instr::Lui { rd, imm } => Operation::Upper(rd, imm),
        Instr::Auipc { rd, imm } => Operation::UpperFromPc(rd, imm),
        Instr::Jal { rd, offset } => Operation::Link(rd, offset),
        Instr::Jalr { rd, rs1, imm } => Operation::LinkRegister(rd, rs1, imm),
        Instr::Beq { rs1, rs2, offset } => Operation::Branch(Branch::Eq, rs1, rs2, offset),
        Instr::Bne { rs1, rs2, offset } => Operation::Branch(Branch::Ne, rs1, rs2, offset),
        Instr::Blt { rs1, rs2, offset } => Operation::Branch(Branch::Lt, rs1, rs2, offset),
        Instr::Bge { rs1, rs2, offset } => Operation::Branch(Branch::Ge, rs1, rs2, offset),
        Instr::Bltu { rs1, rs2, offset } => Operation::Branch(Branch::Ltu, rs1, rs2, offset),
        Instr::Bgeu { rs1, rs2, offset } => Operation::Branch(Branch::Geu, rs1, rs2, offset),
        Instr::Lb { rd, rs1, imm } => Operation::Load(Width::B1, Extension::Sign, rd, rs1, imm),
        Instr::Lh { rd, rs1, imm } => Operation::Load(Width::B2, Extension::Sign, rd, rs1, imm),
        Instr::Lw { rd, rs1, imm } => Operation::Load(Width::B4, Extension::Sign, rd, rs1, imm),
        Instr::Ld { rd, rs1, imm } => Operation::Load(Width::B8, Extension::Zero, rd, rs1, imm),
        Instr::Lbu { rd, rs1, imm } => Operation::Load(Width::B1, Extension::Zero, rd, rs1, imm),
        Instr::Lhu { rd, rs1, imm } => Operation::Load(Width::B2, Extension::Zero, rd, rs1, imm),
        Instr::Lwu { rd, rs1, imm } => Operation::Load(Width::B4, Extension::Zero, rd, rs1, imm),
        Instr::Sb { rs1, rs2, imm } => Operation::Store(Width::B1, rs1, rs2, imm),
        Instr::Sh { rs1, rs2, imm } => Operation::Store(Width::B2, rs1, rs2, imm),
        Instr::Sw { rs1, rs2, imm } => Operation::Store(Width::B4, rs1, rs2, imm),
        Instr::Sd { rs1, rs2, imm } => Operation::Store(Width::B8, rs1, rs2, imm),
        Instr::Addi { rd, rs1, imm } => Operation::Immediate(Alu::Add, rd, rs1, imm),
        Instr::Slti { rd, rs1, imm } => Operation::Immediate(Alu::Slt, rd, rs1, imm),
        Instr::Sltiu { rd, rs1, imm } => Operation::Immediate(Alu::Sltu, rd, rs1, imm),
        Instr::Xori { rd, rs1, imm } => Operation::Immediate(Alu::Xor, rd, rs1, imm),
        Instr::Ori { rd, rs1, imm } => Operation::Immediate(Alu::Or, rd, rs1, imm),
        Instr::Andi { rd, rs1, imm } => Operation::Immediate(Alu::And, rd, rs1, imm),
        Instr::Slli { rd, rs1, shamt } => Operation::Shift(Alu::Sll, rd, rs1, shamt),
        Instr::Srli { rd, rs1, shamt } => Operation::Shift(Alu::Srl, rd, rs1, shamt),
        Instr::Srai { rd, rs1, shamt } => Operation::Shift(Alu::Sra, rd, rs1, shamt),
        Instr::Addiw { rd, rs1, imm } => Operation::WordImmediate(Alu::Add, rd, rs1, imm),
        Instr::Slliw { rd, rs1, shamt } => Operation::WordShift(Alu::Sll, rd, rs1, shamt),
        Instr::Srliw { rd, rs1, shamt } => Operation::WordShift(Alu::Srl, rd, rs1, shamt),
        Instr::Sraiw { rd, rs1, shamt } => Operation::WordShift(Alu::Sra, rd, rs1, shamt),
        Instr::Add { rd, rs1, rs2 } => Operation::Registers(Alu::Add, rd, rs1, rs2),
        Instr::Sub { rd, rs1, rs2 } => Operation::Registers(Alu::Sub, rd, rs1, rs2),
        Instr::Sll { rd, rs1, rs2 } => Operation::Registers(Alu::Sll, rd, rs1, rs2),
        Instr::Slt { rd, rs1, rs2 } => Operation::Registers(Alu::Slt, rd, rs1, rs2),
        Instr::Sltu { rd, rs1, rs2 } => Operation::Registers(Alu::Sltu, rd, rs1, rs2),
        Instr::Xor { rd, rs1, rs2 } => Operation::Registers(Alu::Xor, rd, rs1, rs2),
        Instr::Srl { rd, rs1, rs2 } => Operation::Registers(Alu::Srl, rd, rs1, rs2),
        Instr::Sra { rd, rs1, rs2 } => Operation::Registers(Alu::Sra, rd, rs1, rs2),
        Instr::Or { rd, rs1, rs2 } => Operation::Registers(Alu::Or, rd, rs1, rs2),
        Instr::And { rd, rs1, rs2 } => Operation::Registers(Alu::And, rd, rs1, rs2),
        Instr::Addw { rd, rs1, rs2 } => Operation::WordRegisters(Alu::Add, rd, rs1, rs2),
        Instr::Subw { rd, rs1, rs2 } => Operation::WordRegisters(Alu::Sub, rd, rs1, rs2),
        Instr::Sllw { rd, rs1, rs2 } => Operation::WordRegisters(Alu::Sll, rd, rs1, rs2),
        Instr::Srlw { rd, rs1, rs2 } => Operation::WordRegisters(Alu::Srl, rd, rs1, rs2),
        Instr::Sraw { rd, rs1, rs2 } => Operation::WordRegisters(Alu::Sra, rd, rs1, rs2),
        Instr::Fence { word: _ } | Instr::FenceI { word: _ } => Operation::Nothing,
        Instr::Mul { rd, rs1, rs2 } => Operation::Product(MulDiv::Mul, rd, rs1, rs2),
        Instr::Mulh { rd, rs1, rs2 } => Operation::Product(MulDiv::Mulh, rd, rs1, rs2),
        Instr::Mulhsu { rd, rs1, rs2 } => Operation::Product(MulDiv::Mulhsu, rd, rs1, rs2),
        Instr::Mulhu { rd, rs1, rs2 } => Operation::Product(MulDiv::Mulhu, rd, rs1, rs2),
        Instr::Div { rd, rs1, rs2 } => Operation::Product(MulDiv::Div, rd, rs1, rs2),
        Instr::Divu { rd, rs1, rs2 } => Operation::Product(MulDiv::Divu, rd, rs1, rs2),
        Instr::Rem { rd, rs1, rs2 } => Operation::Product(MulDiv::Rem, rd, rs1, rs2),
        Instr::Remu { rd, rs1, rs2 } => Operation::Product(MulDiv::Remu, rd, rs1, rs2),
        Instr::Mulw { rd, rs1, rs2 } => Operation::WordProduct(MulDiv::Mul, rd, rs1, rs2),
        Instr::Divw { rd, rs1, rs2 } => Operation::WordProduct(MulDiv::Div, rd, rs1, rs2),
        Instr::Divuw { rd, rs1, rs2 } => Operation::WordProduct(MulDiv::Divu, rd, rs1, rs2),
        Instr::Remw { rd, rs1, rs2 } => Operation::WordProduct(MulDiv::Rem, rd, rs1, rs2),
        Instr::Remuw { rd, rs1, rs2 } => Operation::WordProduct(MulDiv::Remu, rd, rs1, rs2),
        Instr::LrW { rd, rs1, .. } => Operation::Reserve(Width::B4, rd, rs1),
        Instr::ScW { rd, rs1, rs2, .. } => Operation::Conditional(Width::B4, rd, rs1, rs2),
        Instr::AmoSwapW { rd, rs1, rs2, .. } => Operation::Amo(
            AmoOp::Swap,
            Width::B4,
            rd,
            rs1,
            rs2,
        ),
        Instr::AmoAddW { rd, rs1, rs2, .. } => Operation::Amo(AmoOp::Add, Width::B4, rd, rs1, rs2),
        Instr::AmoXorW { rd, rs1, rs2, .. } => Operation::Amo(AmoOp::Xor, Width::B4, rd, rs1, rs2),
        Instr::AmoAndW { rd, rs1, rs2, .. } => Operation::Amo(AmoOp::And, Width::B4, rd, rs1, rs2),
        Instr::AmoOrW { rd, rs1, rs2, .. } => Operation::Amo(AmoOp::Or, Width::B4, rd, rs1, rs2),
        Instr::AmoMinW { rd, rs1, rs2, .. } => Operation::Amo(AmoOp::Min, Width::B4, rd, rs1, rs2),
        Instr::AmoMaxW { rd, rs1, rs2, .. } => Operation::Amo(AmoOp::Max, Width::B4, rd, rs1, rs2),
        Instr::AmoMinuW { rd, rs1, rs2, .. } => Operation::Amo(
            AmoOp::Minu,
            Width::B4,
            rd,
            rs1,
            rs2,
        ),
        Instr::AmoMaxuW { rd, rs1, rs2, .. } => Operation::Amo(
            AmoOp::Maxu,
            Width::B4,
            rd,
            rs1,
            rs2,
        ),
        Instr::LrD { rd, rs1, .. } => Operation::Reserve(Width::B8, rd, rs1),
        Instr::ScD { rd, rs1, rs2, .. } => Operation::Conditional(Width::B8, rd, rs1, rs2),
        Instr::AmoSwapD { rd, rs1, rs2, .. } => Operation::Amo(
            AmoOp::Swap,
            Width::B8,
            rd,
            rs1,
            rs2,
        ),
        Instr::AmoAddD { rd, rs1, rs2, .. } => Operation::Amo(AmoOp::Add, Width::B8, rd, rs1, rs2),
        Instr::AmoXorD { rd, rs1, rs2, .. } => Operation::Amo(AmoOp::Xor, Width::B8, rd, rs1, rs2),
        Instr::AmoAndD { rd, rs1, rs2, .. } => Operation::Amo(AmoOp::And, Width::B8, rd, rs1, rs2),
        Instr::AmoOrD { rd, rs1, rs2, .. } => Operation::Amo(AmoOp::Or, Width::B8, rd, rs1, rs2),
        Instr::AmoMinD { rd, rs1, rs2, .. } => Operation::Amo(AmoOp::Min, Width::B8, rd, rs1, rs2),
        Instr::AmoMaxD { rd, rs1, rs2, .. } => Operation::Amo(AmoOp::Max, Width::B8, rd, rs1, rs2),
        Instr::AmoMinuD { rd, rs1, rs2, .. } => Operation::Amo(
            AmoOp::Minu,
            Width::B8,
            rd,
            rs1,
            rs2,
        ),
        Instr::AmoMaxuD { rd, rs1, rs2, .. } => Operation::Amo(
            AmoOp::Maxu,
            Width::B8,
            rd,
            rs1,
            rs2,
        ),
        Instr::Csrrw { rd, rs1, csr } => Operation::Csr(CsrOp::Write, rd, rs1, csr),
        Instr::Csrrs { rd, rs1, csr } => Operation::Csr(CsrOp::Set, rd, rs1, csr),
        Instr::Csrrc { rd, rs1, csr } => Operation::Csr(CsrOp::Clear, rd, rs1, csr),
        Instr::Csrrwi { rd, uimm, csr } => Operation::CsrImmediate(CsrOp::Write, rd, uimm, csr),
        Instr::Csrrsi { rd, uimm, csr } => Operation::CsrImmediate(CsrOp::Set, rd, uimm, csr),
        Instr::Csrrci { rd, uimm, csr } => Operation::CsrImmediate(CsrOp::Clear, rd, uimm, csr),
        Instr::Ecall => Operation::Call,
        Instr::Ebreak => Operation::Break,
        Instr::Mret => Operation::Return,
        Instr::Wfi => Operation::Nothing,
    }
}
