// The instruction of a word.

ghost use Rattle.std.specs.Prelude.{◌≡◌, ◌≢◌, ◌<◌, IfSome, IfNone, Some};
ghost use Rattle.tv_isa.specs.declared.Instr.{Instr};
ghost use Rattle.tv_isa.specs.Fields.{split, join, Fits};
ghost use Rattle.tv_isa.specs.Formats.{u_imm, j_offset};
ghost use Rattle.tv_isa.specs.Table.{reading, word_of, InRange, row_at, jalr_at, branch_at, load_at, store_at, op_imm_at, op_imm_32_at, op_at, op_32_at, misc_mem_at, amo_at, amo_word_at, amo_double_at, system_at};

use crate::Instr;
use crate::fields::{Fields, split_word};
use crate::formats::{
    b_immediate, csr_of, i_immediate, j_immediate, ordering_of, s_immediate, shift_of, u_immediate,
};

/// The instruction of a word, or `None` where the word is in no row of the listing.
#[inline(always)]
#[tactic(auto, using(crate::proofs::Laws::reading_again), unfolding(crate::specs::Table::reading))]
pub fn decode(word: u32) -> Option<Instr>
    ensures exact { result ≡ reading word }
    ensures found { IfSome result (λ i. InRange i × (word_of i ≡ word)) }
    ensures none { IfNone result ((i : Instr) → InRange i → word_of i ≢ word) }
{
    row_of(word)
}

// The instruction of a word by opcode: each arm cuts the fields that its format has.
#[inline(always)]
#[tactic(auto, unfolding(crate::specs::Table::row_at))]
fn row_of(word: u32) -> Option<Instr>
    ensures exact { result ≡ row_at word (split word) }
    ensures found { IfSome result (λ i. InRange i × (word_of i ≡ join (split word))) }
{
    match (word & 0x7f) as u8 {
        0x37 => lui_of(split_word(word)),
        0x17 => auipc_of(split_word(word)),
        0x6f => jal_of(split_word(word)),
        0x67 => jalr_of(split_word(word)),
        0x63 => branch_of(split_word(word)),
        0x03 => load_of(split_word(word)),
        0x23 => store_of(split_word(word)),
        0x13 => op_imm_of(split_word(word)),
        0x1b => op_imm_32_of(split_word(word)),
        0x33 => op_of(split_word(word)),
        0x3b => op_32_of(split_word(word)),
        0x0f => misc_mem_of(word, split_word(word)),
        0x2f => amo_of(split_word(word)),
        0x73 => system_of(word, split_word(word)),
        _ => None,
    }
}

// LUI.
#[inline(always)]
#[tactic(auto, unfolding(crate::specs::Table::word_of, crate::specs::Fields::join))]
fn lui_of(f: Fields) -> Option<Instr>
    requires fits { Fits f }
    requires opcode { f.opcode ≡ 0x37 }
    ensures exact { result ≡ Some (Instr.Lui f.rd (u_imm f)) }
    ensures found { IfSome result (λ i. InRange i × (word_of i ≡ join f)) }
{
    Some(Instr::Lui {
        rd: f.rd,
        imm: u_immediate(f),
    })
}

// AUIPC.
#[inline(always)]
#[tactic(auto, unfolding(crate::specs::Table::word_of, crate::specs::Fields::join))]
fn auipc_of(f: Fields) -> Option<Instr>
    requires fits { Fits f }
    requires opcode { f.opcode ≡ 0x17 }
    ensures exact { result ≡ Some (Instr.Auipc f.rd (u_imm f)) }
    ensures found { IfSome result (λ i. InRange i × (word_of i ≡ join f)) }
{
    Some(Instr::Auipc {
        rd: f.rd,
        imm: u_immediate(f),
    })
}

// JAL.
#[inline(always)]
#[tactic(auto, unfolding(crate::specs::Table::word_of, crate::specs::Fields::join))]
fn jal_of(f: Fields) -> Option<Instr>
    requires fits { Fits f }
    requires opcode { f.opcode ≡ 0x6f }
    ensures exact { result ≡ Some (Instr.Jal f.rd (j_offset f)) }
    ensures found { IfSome result (λ i. InRange i × (word_of i ≡ join f)) }
{
    Some(Instr::Jal {
        rd: f.rd,
        offset: j_immediate(f),
    })
}

// JALR.
#[inline(always)]
#[tactic(auto, unfolding(crate::specs::Table::word_of, crate::specs::Fields::join))]
fn jalr_of(f: Fields) -> Option<Instr>
    requires fits { Fits f }
    requires opcode { f.opcode ≡ 0x67 }
    ensures exact { result ≡ jalr_at f }
    ensures found { IfSome result (λ i. InRange i × (word_of i ≡ join f)) }
{
    let Fields { rd, rs1, .. } = f;
    let imm = i_immediate(f);
    match f.funct3 {
        0 => Some(Instr::Jalr { rd, rs1, imm }),
        _ => None,
    }
}

// BRANCH.
#[inline(always)]
#[tactic(auto, unfolding(crate::specs::Table::word_of, crate::specs::Fields::join))]
fn branch_of(f: Fields) -> Option<Instr>
    requires fits { Fits f }
    requires opcode { f.opcode ≡ 0x63 }
    ensures exact { result ≡ branch_at f }
    ensures found { IfSome result (λ i. InRange i × (word_of i ≡ join f)) }
{
    let Fields { rs1, rs2, .. } = f;
    let offset = b_immediate(f);
    match f.funct3 {
        0 => Some(Instr::Beq { rs1, rs2, offset }),
        1 => Some(Instr::Bne { rs1, rs2, offset }),
        4 => Some(Instr::Blt { rs1, rs2, offset }),
        5 => Some(Instr::Bge { rs1, rs2, offset }),
        6 => Some(Instr::Bltu { rs1, rs2, offset }),
        7 => Some(Instr::Bgeu { rs1, rs2, offset }),
        _ => None,
    }
}

// LOAD.
#[inline(always)]
#[tactic(auto, unfolding(crate::specs::Table::word_of, crate::specs::Fields::join))]
fn load_of(f: Fields) -> Option<Instr>
    requires fits { Fits f }
    requires opcode { f.opcode ≡ 0x03 }
    ensures exact { result ≡ load_at f }
    ensures found { IfSome result (λ i. InRange i × (word_of i ≡ join f)) }
{
    let Fields { rd, rs1, .. } = f;
    let imm = i_immediate(f);
    match f.funct3 {
        0 => Some(Instr::Lb { rd, rs1, imm }),
        1 => Some(Instr::Lh { rd, rs1, imm }),
        2 => Some(Instr::Lw { rd, rs1, imm }),
        3 => Some(Instr::Ld { rd, rs1, imm }),
        4 => Some(Instr::Lbu { rd, rs1, imm }),
        5 => Some(Instr::Lhu { rd, rs1, imm }),
        6 => Some(Instr::Lwu { rd, rs1, imm }),
        _ => None,
    }
}

// STORE.
#[inline(always)]
#[tactic(auto, unfolding(crate::specs::Table::word_of, crate::specs::Fields::join))]
fn store_of(f: Fields) -> Option<Instr>
    requires fits { Fits f }
    requires opcode { f.opcode ≡ 0x23 }
    ensures exact { result ≡ store_at f }
    ensures found { IfSome result (λ i. InRange i × (word_of i ≡ join f)) }
{
    let Fields { rs1, rs2, .. } = f;
    let imm = s_immediate(f);
    match f.funct3 {
        0 => Some(Instr::Sb { rs1, rs2, imm }),
        1 => Some(Instr::Sh { rs1, rs2, imm }),
        2 => Some(Instr::Sw { rs1, rs2, imm }),
        3 => Some(Instr::Sd { rs1, rs2, imm }),
        _ => None,
    }
}

// OP-IMM.
#[inline(always)]
#[tactic(auto, unfolding(crate::specs::Table::word_of, crate::specs::Fields::join))]
fn op_imm_of(f: Fields) -> Option<Instr>
    requires fits { Fits f }
    requires opcode { f.opcode ≡ 0x13 }
    ensures exact { result ≡ op_imm_at f }
    ensures found { IfSome result (λ i. InRange i × (word_of i ≡ join f)) }
{
    let Fields { rd, rs1, .. } = f;
    let imm = i_immediate(f);
    let shamt = shift_of(f);
    match f.funct3 {
        0 => Some(Instr::Addi { rd, rs1, imm }),
        2 => Some(Instr::Slti { rd, rs1, imm }),
        3 => Some(Instr::Sltiu { rd, rs1, imm }),
        4 => Some(Instr::Xori { rd, rs1, imm }),
        6 => Some(Instr::Ori { rd, rs1, imm }),
        7 => Some(Instr::Andi { rd, rs1, imm }),
        1 if f.funct7 / 2 == 0 => Some(Instr::Slli { rd, rs1, shamt }),
        5 if f.funct7 / 2 == 0 => Some(Instr::Srli { rd, rs1, shamt }),
        5 if f.funct7 / 2 == 0x10 => Some(Instr::Srai { rd, rs1, shamt }),
        _ => None,
    }
}

// OP-IMM-32.
#[inline(always)]
#[tactic(auto, unfolding(crate::specs::Table::word_of, crate::specs::Fields::join))]
fn op_imm_32_of(f: Fields) -> Option<Instr>
    requires fits { Fits f }
    requires opcode { f.opcode ≡ 0x1b }
    ensures exact { result ≡ op_imm_32_at f }
    ensures found { IfSome result (λ i. InRange i × (word_of i ≡ join f)) }
{
    let Fields { rd, rs1, .. } = f;
    let imm = i_immediate(f);
    let shamt = u32::from(f.rs2);
    match f.funct3 {
        0 => Some(Instr::Addiw { rd, rs1, imm }),
        1 if f.funct7 == 0 => Some(Instr::Slliw { rd, rs1, shamt }),
        5 if f.funct7 == 0 => Some(Instr::Srliw { rd, rs1, shamt }),
        5 if f.funct7 == 0x20 => Some(Instr::Sraiw { rd, rs1, shamt }),
        _ => None,
    }
}

// OP.
#[inline(always)]
#[tactic(auto, unfolding(crate::specs::Table::word_of, crate::specs::Fields::join))]
fn op_of(f: Fields) -> Option<Instr>
    requires fits { Fits f }
    requires opcode { f.opcode ≡ 0x33 }
    ensures exact { result ≡ op_at f }
    ensures found { IfSome result (λ i. InRange i × (word_of i ≡ join f)) }
{
    let Fields { rd, rs1, rs2, .. } = f;
    match (f.funct7, f.funct3) {
        (0, 0) => Some(Instr::Add { rd, rs1, rs2 }),
        (0x20, 0) => Some(Instr::Sub { rd, rs1, rs2 }),
        (0, 1) => Some(Instr::Sll { rd, rs1, rs2 }),
        (0, 2) => Some(Instr::Slt { rd, rs1, rs2 }),
        (0, 3) => Some(Instr::Sltu { rd, rs1, rs2 }),
        (0, 4) => Some(Instr::Xor { rd, rs1, rs2 }),
        (0, 5) => Some(Instr::Srl { rd, rs1, rs2 }),
        (0x20, 5) => Some(Instr::Sra { rd, rs1, rs2 }),
        (0, 6) => Some(Instr::Or { rd, rs1, rs2 }),
        (0, 7) => Some(Instr::And { rd, rs1, rs2 }),
        (1, 0) => Some(Instr::Mul { rd, rs1, rs2 }),
        (1, 1) => Some(Instr::Mulh { rd, rs1, rs2 }),
        (1, 2) => Some(Instr::Mulhsu { rd, rs1, rs2 }),
        (1, 3) => Some(Instr::Mulhu { rd, rs1, rs2 }),
        (1, 4) => Some(Instr::Div { rd, rs1, rs2 }),
        (1, 5) => Some(Instr::Divu { rd, rs1, rs2 }),
        (1, 6) => Some(Instr::Rem { rd, rs1, rs2 }),
        (1, 7) => Some(Instr::Remu { rd, rs1, rs2 }),
        _ => None,
    }
}

// OP-32.
#[inline(always)]
#[tactic(auto, unfolding(crate::specs::Table::word_of, crate::specs::Fields::join))]
fn op_32_of(f: Fields) -> Option<Instr>
    requires fits { Fits f }
    requires opcode { f.opcode ≡ 0x3b }
    ensures exact { result ≡ op_32_at f }
    ensures found { IfSome result (λ i. InRange i × (word_of i ≡ join f)) }
{
    let Fields { rd, rs1, rs2, .. } = f;
    match (f.funct7, f.funct3) {
        (0, 0) => Some(Instr::Addw { rd, rs1, rs2 }),
        (0x20, 0) => Some(Instr::Subw { rd, rs1, rs2 }),
        (0, 1) => Some(Instr::Sllw { rd, rs1, rs2 }),
        (0, 5) => Some(Instr::Srlw { rd, rs1, rs2 }),
        (0x20, 5) => Some(Instr::Sraw { rd, rs1, rs2 }),
        (1, 0) => Some(Instr::Mulw { rd, rs1, rs2 }),
        (1, 4) => Some(Instr::Divw { rd, rs1, rs2 }),
        (1, 5) => Some(Instr::Divuw { rd, rs1, rs2 }),
        (1, 6) => Some(Instr::Remw { rd, rs1, rs2 }),
        (1, 7) => Some(Instr::Remuw { rd, rs1, rs2 }),
        _ => None,
    }
}

// MISC-MEM: the fences keep the word.
#[inline(always)]
#[tactic(auto, unfolding(crate::specs::Table::word_of))]
fn misc_mem_of(word: u32, f: Fields) -> Option<Instr>
    requires fields { f ≡ split word }
    requires opcode { f.opcode ≡ 0x0f }
    ensures exact { result ≡ misc_mem_at word f }
    ensures found { IfSome result (λ i. InRange i × (word_of i ≡ join f)) }
{
    match f.funct3 {
        0 => Some(Instr::Fence { word }),
        1 => Some(Instr::FenceI { word }),
        _ => None,
    }
}

// AMO, by width.
#[inline(always)]
#[tactic(auto, unfolding(crate::specs::Table::word_of, crate::specs::Fields::join))]
fn amo_of(f: Fields) -> Option<Instr>
    requires fits { Fits f }
    requires opcode { f.opcode ≡ 0x2f }
    ensures exact { result ≡ amo_at f }
    ensures found { IfSome result (λ i. InRange i × (word_of i ≡ join f)) }
{
    match f.funct3 {
        2 => amo_word_of(f),
        3 => amo_double_of(f),
        _ => None,
    }
}

// AMO with a word.
#[inline(always)]
#[tactic(auto, unfolding(crate::specs::Table::word_of, crate::specs::Fields::join))]
fn amo_word_of(f: Fields) -> Option<Instr>
    requires fits { Fits f }
    requires opcode { f.opcode ≡ 0x2f }
    requires width { f.funct3 ≡ 2 }
    ensures exact { result ≡ amo_word_at f }
    ensures found { IfSome result (λ i. InRange i × (word_of i ≡ join f)) }
{
    let Fields { rd, rs1, rs2, .. } = f;
    let ordering = ordering_of(f);
    match f.funct7 / 4 {
        0x02 if rs2 == 0 => Some(Instr::LrW { rd, rs1, ordering }),
        0x03 => Some(Instr::ScW {
            rd,
            rs1,
            rs2,
            ordering,
        }),
        0x01 => Some(Instr::AmoSwapW {
            rd,
            rs1,
            rs2,
            ordering,
        }),
        0x00 => Some(Instr::AmoAddW {
            rd,
            rs1,
            rs2,
            ordering,
        }),
        0x04 => Some(Instr::AmoXorW {
            rd,
            rs1,
            rs2,
            ordering,
        }),
        0x0c => Some(Instr::AmoAndW {
            rd,
            rs1,
            rs2,
            ordering,
        }),
        0x08 => Some(Instr::AmoOrW {
            rd,
            rs1,
            rs2,
            ordering,
        }),
        0x10 => Some(Instr::AmoMinW {
            rd,
            rs1,
            rs2,
            ordering,
        }),
        0x14 => Some(Instr::AmoMaxW {
            rd,
            rs1,
            rs2,
            ordering,
        }),
        0x18 => Some(Instr::AmoMinuW {
            rd,
            rs1,
            rs2,
            ordering,
        }),
        0x1c => Some(Instr::AmoMaxuW {
            rd,
            rs1,
            rs2,
            ordering,
        }),
        _ => None,
    }
}

// AMO with a double word.
#[inline(always)]
#[tactic(auto, unfolding(crate::specs::Table::word_of, crate::specs::Fields::join))]
fn amo_double_of(f: Fields) -> Option<Instr>
    requires fits { Fits f }
    requires opcode { f.opcode ≡ 0x2f }
    requires width { f.funct3 ≡ 3 }
    ensures exact { result ≡ amo_double_at f }
    ensures found { IfSome result (λ i. InRange i × (word_of i ≡ join f)) }
{
    let Fields { rd, rs1, rs2, .. } = f;
    let ordering = ordering_of(f);
    match f.funct7 / 4 {
        0x02 if rs2 == 0 => Some(Instr::LrD { rd, rs1, ordering }),
        0x03 => Some(Instr::ScD {
            rd,
            rs1,
            rs2,
            ordering,
        }),
        0x01 => Some(Instr::AmoSwapD {
            rd,
            rs1,
            rs2,
            ordering,
        }),
        0x00 => Some(Instr::AmoAddD {
            rd,
            rs1,
            rs2,
            ordering,
        }),
        0x04 => Some(Instr::AmoXorD {
            rd,
            rs1,
            rs2,
            ordering,
        }),
        0x0c => Some(Instr::AmoAndD {
            rd,
            rs1,
            rs2,
            ordering,
        }),
        0x08 => Some(Instr::AmoOrD {
            rd,
            rs1,
            rs2,
            ordering,
        }),
        0x10 => Some(Instr::AmoMinD {
            rd,
            rs1,
            rs2,
            ordering,
        }),
        0x14 => Some(Instr::AmoMaxD {
            rd,
            rs1,
            rs2,
            ordering,
        }),
        0x18 => Some(Instr::AmoMinuD {
            rd,
            rs1,
            rs2,
            ordering,
        }),
        0x1c => Some(Instr::AmoMaxuD {
            rd,
            rs1,
            rs2,
            ordering,
        }),
        _ => None,
    }
}

// SYSTEM: the CSR instructions, and four whole words.
#[inline(always)]
#[tactic(auto, unfolding(crate::specs::Table::word_of, crate::specs::Fields::join))]
fn system_of(word: u32, f: Fields) -> Option<Instr>
    requires fits { Fits f }
    requires fields { f ≡ split word }
    requires opcode { f.opcode ≡ 0x73 }
    ensures exact { result ≡ system_at word f }
    ensures found { IfSome result (λ i. InRange i × (word_of i ≡ join f)) }
{
    let Fields { rd, rs1, .. } = f;
    let csr = csr_of(f);
    match (f.funct3, word) {
        (1, _) => Some(Instr::Csrrw { rd, rs1, csr }),
        (2, _) => Some(Instr::Csrrs { rd, rs1, csr }),
        (3, _) => Some(Instr::Csrrc { rd, rs1, csr }),
        (5, _) => Some(Instr::Csrrwi { rd, uimm: rs1, csr }),
        (6, _) => Some(Instr::Csrrsi { rd, uimm: rs1, csr }),
        (7, _) => Some(Instr::Csrrci { rd, uimm: rs1, csr }),
        (_, 0x0000_0073) => Some(Instr::Ecall),
        (_, 0x0010_0073) => Some(Instr::Ebreak),
        (_, 0x3020_0073) => Some(Instr::Mret),
        (_, 0x1050_0073) => Some(Instr::Wfi),
        _ => None,
    }
}
