//! The instructions of RV64IMA with Zicsr and Zifencei: their words, and the meaning of each word as an instruction.
//!
//! `decode` reads a word and `encode` writes one. The rows are those of the RISC-V Unprivileged
//! ISA Manual, chapter "RV32/64G Instruction Set Listings", tables "RV32I" and "RV64I Base
//! Instruction Set", "RV32/RV64 Zifencei", "RV32/RV64 Zicsr", "RV32M", "RV64M", "RV32A" and "RV64A
//! Standard Extension", and MRET and WFI of the Privileged Architecture, chapter "RISC-V Privileged
//! Instruction Set Listings". `specs/Table.antt` has them, a line for each.
#![tactic(auto)]

mod fields;
mod formats;
mod reader;
mod writer;

pub use reader::decode;
pub use writer::encode;

/// An instruction, a variant for each row of the listing.
///
/// Registers are numbers below 32. `imm` and `offset` are the raw two's-complement numbers of
/// their format, not yet sign-extended: 12 bits in I and S, 13 in B, 20 in U (the bits 31:12 of
/// the word) and 21 in J. The offsets of B and J are even. `shamt` is a shift amount, below 64, or
/// below 32 in the W forms. `ordering` has aq in bit 1 and rl in bit 0, so it is below 4. `csr` is the
/// number of a control and status register, below 4096, and `uimm` an immediate of 5 bits that is not
/// signed. `word` is the whole word.
#[derive(Clone, Copy)]
pub enum Instr {
    /// LUI: `imm` in bits 31:12 of `rd`.
    Lui {
        rd: u8,
        imm: u32,
    },
    /// AUIPC: the pc plus `imm` at bits 31:12.
    Auipc {
        rd: u8,
        imm: u32,
    },
    /// JAL: jump by `offset`, with the return address in `rd`.
    Jal {
        rd: u8,
        offset: u32,
    },
    /// JALR: jump to `rs1` plus `imm`, with the return address in `rd`.
    Jalr {
        rd: u8,
        rs1: u8,
        imm: u32,
    },
    /// BEQ: branch where `rs1` and `rs2` are equal.
    Beq {
        rs1: u8,
        rs2: u8,
        offset: u32,
    },
    /// BNE: branch where `rs1` and `rs2` differ.
    Bne {
        rs1: u8,
        rs2: u8,
        offset: u32,
    },
    /// BLT: branch where `rs1` is below `rs2`, signed.
    Blt {
        rs1: u8,
        rs2: u8,
        offset: u32,
    },
    /// BGE: branch where `rs1` is at least `rs2`, signed.
    Bge {
        rs1: u8,
        rs2: u8,
        offset: u32,
    },
    /// BLTU: branch where `rs1` is below `rs2`, unsigned.
    Bltu {
        rs1: u8,
        rs2: u8,
        offset: u32,
    },
    /// BGEU: branch where `rs1` is at least `rs2`, unsigned.
    Bgeu {
        rs1: u8,
        rs2: u8,
        offset: u32,
    },
    /// LB: load a byte, sign-extended.
    Lb {
        rd: u8,
        rs1: u8,
        imm: u32,
    },
    /// LH: load 2 bytes, sign-extended.
    Lh {
        rd: u8,
        rs1: u8,
        imm: u32,
    },
    /// LW: load 4 bytes, sign-extended.
    Lw {
        rd: u8,
        rs1: u8,
        imm: u32,
    },
    /// LD: load 8 bytes.
    Ld {
        rd: u8,
        rs1: u8,
        imm: u32,
    },
    /// LBU: load a byte, zero-extended.
    Lbu {
        rd: u8,
        rs1: u8,
        imm: u32,
    },
    /// LHU: load 2 bytes, zero-extended.
    Lhu {
        rd: u8,
        rs1: u8,
        imm: u32,
    },
    /// LWU: load 4 bytes, zero-extended.
    Lwu {
        rd: u8,
        rs1: u8,
        imm: u32,
    },
    /// SB: store the low byte of `rs2`.
    Sb {
        rs1: u8,
        rs2: u8,
        imm: u32,
    },
    /// SH: store the low 2 bytes of `rs2`.
    Sh {
        rs1: u8,
        rs2: u8,
        imm: u32,
    },
    /// SW: store the low 4 bytes of `rs2`.
    Sw {
        rs1: u8,
        rs2: u8,
        imm: u32,
    },
    /// SD: store the 8 bytes of `rs2`.
    Sd {
        rs1: u8,
        rs2: u8,
        imm: u32,
    },
    /// ADDI: `rs1` plus `imm`.
    Addi {
        rd: u8,
        rs1: u8,
        imm: u32,
    },
    /// SLTI: 1 where `rs1` is below `imm`, signed, else 0.
    Slti {
        rd: u8,
        rs1: u8,
        imm: u32,
    },
    /// SLTIU: 1 where `rs1` is below the sign-extended `imm`, unsigned, else 0.
    Sltiu {
        rd: u8,
        rs1: u8,
        imm: u32,
    },
    /// XORI: exclusive or of `rs1` and `imm`.
    Xori {
        rd: u8,
        rs1: u8,
        imm: u32,
    },
    /// ORI: or of `rs1` and `imm`.
    Ori {
        rd: u8,
        rs1: u8,
        imm: u32,
    },
    /// ANDI: and of `rs1` and `imm`.
    Andi {
        rd: u8,
        rs1: u8,
        imm: u32,
    },
    /// SLLI: `rs1` shifted left.
    Slli {
        rd: u8,
        rs1: u8,
        shamt: u32,
    },
    /// SRLI: `rs1` shifted right, filled with zeros.
    Srli {
        rd: u8,
        rs1: u8,
        shamt: u32,
    },
    /// SRAI: `rs1` shifted right, filled with the sign.
    Srai {
        rd: u8,
        rs1: u8,
        shamt: u32,
    },
    /// ADDIW: the low 32 bits of `rs1` plus `imm`, sign-extended.
    Addiw {
        rd: u8,
        rs1: u8,
        imm: u32,
    },
    /// SLLIW: the low 32 bits of `rs1` shifted left, sign-extended.
    Slliw {
        rd: u8,
        rs1: u8,
        shamt: u32,
    },
    /// SRLIW: the low 32 bits of `rs1` shifted right with zeros, sign-extended.
    Srliw {
        rd: u8,
        rs1: u8,
        shamt: u32,
    },
    /// SRAIW: the low 32 bits of `rs1` shifted right with their sign, sign-extended.
    Sraiw {
        rd: u8,
        rs1: u8,
        shamt: u32,
    },
    /// ADD: `rs1` plus `rs2`.
    Add {
        rd: u8,
        rs1: u8,
        rs2: u8,
    },
    /// SUB: `rs1` minus `rs2`.
    Sub {
        rd: u8,
        rs1: u8,
        rs2: u8,
    },
    /// SLL: `rs1` shifted left by the low 6 bits of `rs2`.
    Sll {
        rd: u8,
        rs1: u8,
        rs2: u8,
    },
    /// SLT: 1 where `rs1` is below `rs2`, signed, else 0.
    Slt {
        rd: u8,
        rs1: u8,
        rs2: u8,
    },
    /// SLTU: 1 where `rs1` is below `rs2`, unsigned, else 0.
    Sltu {
        rd: u8,
        rs1: u8,
        rs2: u8,
    },
    /// XOR: exclusive or of `rs1` and `rs2`.
    Xor {
        rd: u8,
        rs1: u8,
        rs2: u8,
    },
    /// SRL: `rs1` shifted right with zeros, by the low 6 bits of `rs2`.
    Srl {
        rd: u8,
        rs1: u8,
        rs2: u8,
    },
    /// SRA: `rs1` shifted right with its sign, by the low 6 bits of `rs2`.
    Sra {
        rd: u8,
        rs1: u8,
        rs2: u8,
    },
    /// OR: or of `rs1` and `rs2`.
    Or {
        rd: u8,
        rs1: u8,
        rs2: u8,
    },
    /// AND: and of `rs1` and `rs2`.
    And {
        rd: u8,
        rs1: u8,
        rs2: u8,
    },
    /// ADDW: the low 32 bits of `rs1` plus `rs2`, sign-extended.
    Addw {
        rd: u8,
        rs1: u8,
        rs2: u8,
    },
    /// SUBW: the low 32 bits of `rs1` minus `rs2`, sign-extended.
    Subw {
        rd: u8,
        rs1: u8,
        rs2: u8,
    },
    /// SLLW: the low 32 bits of `rs1` shifted left by the low 5 bits of `rs2`, sign-extended.
    Sllw {
        rd: u8,
        rs1: u8,
        rs2: u8,
    },
    /// SRLW: the low 32 bits of `rs1` shifted right with zeros, by the low 5 bits of `rs2`, sign-extended.
    Srlw {
        rd: u8,
        rs1: u8,
        rs2: u8,
    },
    /// SRAW: the low 32 bits of `rs1` shifted right with their sign, by the low 5 bits of `rs2`, sign-extended.
    Sraw {
        rd: u8,
        rs1: u8,
        rs2: u8,
    },
    /// FENCE, as its whole word.
    Fence {
        word: u32,
    },
    /// FENCE.I, as its whole word.
    FenceI {
        word: u32,
    },
    /// MUL: the low half of the product of `rs1` and `rs2`.
    Mul {
        rd: u8,
        rs1: u8,
        rs2: u8,
    },
    /// MULH: the high half of the product, both signed.
    Mulh {
        rd: u8,
        rs1: u8,
        rs2: u8,
    },
    /// MULHSU: the high half of the product, `rs1` signed and `rs2` unsigned.
    Mulhsu {
        rd: u8,
        rs1: u8,
        rs2: u8,
    },
    /// MULHU: the high half of the product, both unsigned.
    Mulhu {
        rd: u8,
        rs1: u8,
        rs2: u8,
    },
    /// DIV: `rs1` divided by `rs2`, signed.
    Div {
        rd: u8,
        rs1: u8,
        rs2: u8,
    },
    /// DIVU: `rs1` divided by `rs2`, unsigned.
    Divu {
        rd: u8,
        rs1: u8,
        rs2: u8,
    },
    /// REM: the remainder of `rs1` divided by `rs2`, signed.
    Rem {
        rd: u8,
        rs1: u8,
        rs2: u8,
    },
    /// REMU: the remainder of `rs1` divided by `rs2`, unsigned.
    Remu {
        rd: u8,
        rs1: u8,
        rs2: u8,
    },
    /// MULW: the low 32 bits of the product of `rs1` and `rs2`, sign-extended.
    Mulw {
        rd: u8,
        rs1: u8,
        rs2: u8,
    },
    /// DIVW: the low 32 bits of `rs1` divided by those of `rs2`, signed, sign-extended.
    Divw {
        rd: u8,
        rs1: u8,
        rs2: u8,
    },
    /// DIVUW: the low 32 bits of `rs1` divided by those of `rs2`, unsigned, sign-extended.
    Divuw {
        rd: u8,
        rs1: u8,
        rs2: u8,
    },
    /// REMW: the remainder of that division, signed, sign-extended.
    Remw {
        rd: u8,
        rs1: u8,
        rs2: u8,
    },
    /// REMUW: the remainder of that division, unsigned, sign-extended.
    Remuw {
        rd: u8,
        rs1: u8,
        rs2: u8,
    },
    /// LR.W: load 4 bytes at `rs1` and reserve it.
    LrW {
        rd: u8,
        rs1: u8,
        ordering: u8,
    },
    /// LR.D: load 8 bytes at `rs1` and reserve it.
    LrD {
        rd: u8,
        rs1: u8,
        ordering: u8,
    },
    /// SC.W: store 4 bytes of `rs2` at `rs1` where it is still reserved; `rd` gets 0 if it is stored.
    ScW {
        rd: u8,
        rs1: u8,
        rs2: u8,
        ordering: u8,
    },
    /// SC.D: store 8 bytes of `rs2` at `rs1` where it is still reserved; `rd` gets 0 if it is stored.
    ScD {
        rd: u8,
        rs1: u8,
        rs2: u8,
        ordering: u8,
    },
    /// AMOSWAP.W: load 4 bytes at `rs1` and put `rs2` there.
    AmoSwapW {
        rd: u8,
        rs1: u8,
        rs2: u8,
        ordering: u8,
    },
    /// AMOSWAP.D: load 8 bytes at `rs1` and put `rs2` there.
    AmoSwapD {
        rd: u8,
        rs1: u8,
        rs2: u8,
        ordering: u8,
    },
    /// AMOADD.W: load 4 bytes at `rs1` and put its sum with `rs2` there.
    AmoAddW {
        rd: u8,
        rs1: u8,
        rs2: u8,
        ordering: u8,
    },
    /// AMOADD.D: load 8 bytes at `rs1` and put its sum with `rs2` there.
    AmoAddD {
        rd: u8,
        rs1: u8,
        rs2: u8,
        ordering: u8,
    },
    /// AMOXOR.W: load 4 bytes at `rs1` and put its exclusive or with `rs2` there.
    AmoXorW {
        rd: u8,
        rs1: u8,
        rs2: u8,
        ordering: u8,
    },
    /// AMOXOR.D: load 8 bytes at `rs1` and put its exclusive or with `rs2` there.
    AmoXorD {
        rd: u8,
        rs1: u8,
        rs2: u8,
        ordering: u8,
    },
    /// AMOAND.W: load 4 bytes at `rs1` and put its and with `rs2` there.
    AmoAndW {
        rd: u8,
        rs1: u8,
        rs2: u8,
        ordering: u8,
    },
    /// AMOAND.D: load 8 bytes at `rs1` and put its and with `rs2` there.
    AmoAndD {
        rd: u8,
        rs1: u8,
        rs2: u8,
        ordering: u8,
    },
    /// AMOOR.W: load 4 bytes at `rs1` and put its or with `rs2` there.
    AmoOrW {
        rd: u8,
        rs1: u8,
        rs2: u8,
        ordering: u8,
    },
    /// AMOOR.D: load 8 bytes at `rs1` and put its or with `rs2` there.
    AmoOrD {
        rd: u8,
        rs1: u8,
        rs2: u8,
        ordering: u8,
    },
    /// AMOMIN.W: load 4 bytes at `rs1` and put the lesser of it and `rs2` there, signed.
    AmoMinW {
        rd: u8,
        rs1: u8,
        rs2: u8,
        ordering: u8,
    },
    /// AMOMIN.D: load 8 bytes at `rs1` and put the lesser of it and `rs2` there, signed.
    AmoMinD {
        rd: u8,
        rs1: u8,
        rs2: u8,
        ordering: u8,
    },
    /// AMOMAX.W: load 4 bytes at `rs1` and put the greater of it and `rs2` there, signed.
    AmoMaxW {
        rd: u8,
        rs1: u8,
        rs2: u8,
        ordering: u8,
    },
    /// AMOMAX.D: load 8 bytes at `rs1` and put the greater of it and `rs2` there, signed.
    AmoMaxD {
        rd: u8,
        rs1: u8,
        rs2: u8,
        ordering: u8,
    },
    /// AMOMINU.W: load 4 bytes at `rs1` and put the lesser of it and `rs2` there, unsigned.
    AmoMinuW {
        rd: u8,
        rs1: u8,
        rs2: u8,
        ordering: u8,
    },
    /// AMOMINU.D: load 8 bytes at `rs1` and put the lesser of it and `rs2` there, unsigned.
    AmoMinuD {
        rd: u8,
        rs1: u8,
        rs2: u8,
        ordering: u8,
    },
    /// AMOMAXU.W: load 4 bytes at `rs1` and put the greater of it and `rs2` there, unsigned.
    AmoMaxuW {
        rd: u8,
        rs1: u8,
        rs2: u8,
        ordering: u8,
    },
    /// AMOMAXU.D: load 8 bytes at `rs1` and put the greater of it and `rs2` there, unsigned.
    AmoMaxuD {
        rd: u8,
        rs1: u8,
        rs2: u8,
        ordering: u8,
    },
    /// CSRRW: read a CSR and write `rs1` to it.
    Csrrw {
        rd: u8,
        rs1: u8,
        csr: u16,
    },
    /// CSRRS: read a CSR and set the bits of `rs1` in it.
    Csrrs {
        rd: u8,
        rs1: u8,
        csr: u16,
    },
    /// CSRRC: read a CSR and clear the bits of `rs1` in it.
    Csrrc {
        rd: u8,
        rs1: u8,
        csr: u16,
    },
    /// CSRRWI: read a CSR and write `uimm` to it.
    Csrrwi {
        rd: u8,
        uimm: u8,
        csr: u16,
    },
    /// CSRRSI: read a CSR and set the bits of `uimm` in it.
    Csrrsi {
        rd: u8,
        uimm: u8,
        csr: u16,
    },
    /// CSRRCI: read a CSR and clear the bits of `uimm` in it.
    Csrrci {
        rd: u8,
        uimm: u8,
        csr: u16,
    },
    /// ECALL: call the environment.
    Ecall,
    /// EBREAK: stop for a debugger.
    Ebreak,
    /// MRET: return from a trap in machine mode.
    Mret,
    /// WFI: wait for an interrupt.
    Wfi,
}

/// The operations of a register with a register or an immediate.
#[derive(Clone, Copy)]
pub enum Alu {
    /// The sum.
    Add,
    /// The difference.
    Sub,
    /// Shifted left.
    Sll,
    /// 1 where the first is below the second, signed, else 0.
    Slt,
    /// 1 where the first is below the second, unsigned, else 0.
    Sltu,
    /// Exclusive or.
    Xor,
    /// Shifted right, filled with zeros.
    Srl,
    /// Shifted right, filled with the sign.
    Sra,
    /// Or.
    Or,
    /// And.
    And,
}

/// The conditions of the branches.
#[derive(Clone, Copy)]
pub enum Branch {
    /// Equal.
    Eq,
    /// Not equal.
    Ne,
    /// Below, signed.
    Lt,
    /// At least, signed.
    Ge,
    /// Below, unsigned.
    Ltu,
    /// At least, unsigned.
    Geu,
}

/// The operations of the "M" extension: products and quotients of two registers.
#[derive(Clone, Copy)]
pub enum MulDiv {
    /// The low half of the product.
    Mul,
    /// The high half of the product, both signed.
    Mulh,
    /// The high half of the product, the first signed and the second unsigned.
    Mulhsu,
    /// The high half of the product, both unsigned.
    Mulhu,
    /// The quotient, signed.
    Div,
    /// The quotient, unsigned.
    Divu,
    /// The remainder, signed.
    Rem,
    /// The remainder, unsigned.
    Remu,
}

/// The operations of the "A" extension's read-modify-write instructions.
#[derive(Clone, Copy)]
pub enum AmoOp {
    /// The operand takes the place of the old value.
    Swap,
    /// The sum.
    Add,
    /// Exclusive or.
    Xor,
    /// And.
    And,
    /// Or.
    Or,
    /// The lesser, signed.
    Min,
    /// The greater, signed.
    Max,
    /// The lesser, unsigned.
    Minu,
    /// The greater, unsigned.
    Maxu,
}
