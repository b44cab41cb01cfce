// The word of an instruction.

ghost use Rattle.std.specs.Prelude.{◌≡◌, Some};
ghost use Rattle.tv_isa.specs.Table.{reading, word_of, fields_of, InRange};

use crate::Instr;
use crate::fields::{Fields, join_fields, split_word};
use crate::formats::{
    amo_fields, b_fields, i_fields, j_fields, r_fields, s_fields, shift_fields, shift_w_fields,
    u_fields,
};

/// The word of an instruction whose parts are within range.
#[tactic(auto, using(crate::proofs::Laws::reading_again, crate::proofs::Laws::fits_of), unfolding(crate::specs::Table::word_of))]
pub fn encode(instr: &Instr) -> u32
    requires { InRange instr.now }
    ensures word { result ≡ word_of instr.now }
    ensures back { reading result ≡ Some instr.now }
{
    join_fields(row_fields(*instr))
}

// The fields of a row.
fn row_fields(instr: Instr) -> Fields
    requires { InRange instr }
    ensures { result ≡ fields_of instr }
{
    match instr {
        Instr::Lui { rd, imm } => u_fields(0x37, rd, imm),
        Instr::Auipc { rd, imm } => u_fields(0x17, rd, imm),
        Instr::Jal { rd, offset } => j_fields(0x6f, rd, offset),
        Instr::Jalr { rd, rs1, imm } => i_fields(0x67, 0, rd, rs1, imm),
        Instr::Beq { rs1, rs2, offset } => b_fields(0x63, 0, rs1, rs2, offset),
        Instr::Bne { rs1, rs2, offset } => b_fields(0x63, 1, rs1, rs2, offset),
        Instr::Blt { rs1, rs2, offset } => b_fields(0x63, 4, rs1, rs2, offset),
        Instr::Bge { rs1, rs2, offset } => b_fields(0x63, 5, rs1, rs2, offset),
        Instr::Bltu { rs1, rs2, offset } => b_fields(0x63, 6, rs1, rs2, offset),
        Instr::Bgeu { rs1, rs2, offset } => b_fields(0x63, 7, rs1, rs2, offset),
        Instr::Lb { rd, rs1, imm } => i_fields(0x03, 0, rd, rs1, imm),
        Instr::Lh { rd, rs1, imm } => i_fields(0x03, 1, rd, rs1, imm),
        Instr::Lw { rd, rs1, imm } => i_fields(0x03, 2, rd, rs1, imm),
        Instr::Ld { rd, rs1, imm } => i_fields(0x03, 3, rd, rs1, imm),
        Instr::Lbu { rd, rs1, imm } => i_fields(0x03, 4, rd, rs1, imm),
        Instr::Lhu { rd, rs1, imm } => i_fields(0x03, 5, rd, rs1, imm),
        Instr::Lwu { rd, rs1, imm } => i_fields(0x03, 6, rd, rs1, imm),
        Instr::Sb { rs1, rs2, imm } => s_fields(0x23, 0, rs1, rs2, imm),
        Instr::Sh { rs1, rs2, imm } => s_fields(0x23, 1, rs1, rs2, imm),
        Instr::Sw { rs1, rs2, imm } => s_fields(0x23, 2, rs1, rs2, imm),
        Instr::Sd { rs1, rs2, imm } => s_fields(0x23, 3, rs1, rs2, imm),
        Instr::Addi { rd, rs1, imm } => i_fields(0x13, 0, rd, rs1, imm),
        Instr::Slti { rd, rs1, imm } => i_fields(0x13, 2, rd, rs1, imm),
        Instr::Sltiu { rd, rs1, imm } => i_fields(0x13, 3, rd, rs1, imm),
        Instr::Xori { rd, rs1, imm } => i_fields(0x13, 4, rd, rs1, imm),
        Instr::Ori { rd, rs1, imm } => i_fields(0x13, 6, rd, rs1, imm),
        Instr::Andi { rd, rs1, imm } => i_fields(0x13, 7, rd, rs1, imm),
        Instr::Slli { rd, rs1, shamt } => shift_fields(0x13, 1, 0, rd, rs1, shamt),
        Instr::Srli { rd, rs1, shamt } => shift_fields(0x13, 5, 0, rd, rs1, shamt),
        Instr::Srai { rd, rs1, shamt } => shift_fields(0x13, 5, 0x10, rd, rs1, shamt),
        Instr::Addiw { rd, rs1, imm } => i_fields(0x1b, 0, rd, rs1, imm),
        Instr::Slliw { rd, rs1, shamt } => shift_w_fields(0x1b, 1, 0, rd, rs1, shamt),
        Instr::Srliw { rd, rs1, shamt } => shift_w_fields(0x1b, 5, 0, rd, rs1, shamt),
        Instr::Sraiw { rd, rs1, shamt } => shift_w_fields(0x1b, 5, 0x20, rd, rs1, shamt),
        Instr::Add { rd, rs1, rs2 } => r_fields(0x33, 0, 0, rd, rs1, rs2),
        Instr::Sub { rd, rs1, rs2 } => r_fields(0x33, 0, 0x20, rd, rs1, rs2),
        Instr::Sll { rd, rs1, rs2 } => r_fields(0x33, 1, 0, rd, rs1, rs2),
        Instr::Slt { rd, rs1, rs2 } => r_fields(0x33, 2, 0, rd, rs1, rs2),
        Instr::Sltu { rd, rs1, rs2 } => r_fields(0x33, 3, 0, rd, rs1, rs2),
        Instr::Xor { rd, rs1, rs2 } => r_fields(0x33, 4, 0, rd, rs1, rs2),
        Instr::Srl { rd, rs1, rs2 } => r_fields(0x33, 5, 0, rd, rs1, rs2),
        Instr::Sra { rd, rs1, rs2 } => r_fields(0x33, 5, 0x20, rd, rs1, rs2),
        Instr::Or { rd, rs1, rs2 } => r_fields(0x33, 6, 0, rd, rs1, rs2),
        Instr::And { rd, rs1, rs2 } => r_fields(0x33, 7, 0, rd, rs1, rs2),
        Instr::Addw { rd, rs1, rs2 } => r_fields(0x3b, 0, 0, rd, rs1, rs2),
        Instr::Subw { rd, rs1, rs2 } => r_fields(0x3b, 0, 0x20, rd, rs1, rs2),
        Instr::Sllw { rd, rs1, rs2 } => r_fields(0x3b, 1, 0, rd, rs1, rs2),
        Instr::Srlw { rd, rs1, rs2 } => r_fields(0x3b, 5, 0, rd, rs1, rs2),
        Instr::Sraw { rd, rs1, rs2 } => r_fields(0x3b, 5, 0x20, rd, rs1, rs2),
        Instr::Fence { word } => split_word(word),
        Instr::FenceI { word } => split_word(word),
        Instr::Mul { rd, rs1, rs2 } => r_fields(0x33, 0, 1, rd, rs1, rs2),
        Instr::Mulh { rd, rs1, rs2 } => r_fields(0x33, 1, 1, rd, rs1, rs2),
        Instr::Mulhsu { rd, rs1, rs2 } => r_fields(0x33, 2, 1, rd, rs1, rs2),
        Instr::Mulhu { rd, rs1, rs2 } => r_fields(0x33, 3, 1, rd, rs1, rs2),
        Instr::Div { rd, rs1, rs2 } => r_fields(0x33, 4, 1, rd, rs1, rs2),
        Instr::Divu { rd, rs1, rs2 } => r_fields(0x33, 5, 1, rd, rs1, rs2),
        Instr::Rem { rd, rs1, rs2 } => r_fields(0x33, 6, 1, rd, rs1, rs2),
        Instr::Remu { rd, rs1, rs2 } => r_fields(0x33, 7, 1, rd, rs1, rs2),
        Instr::Mulw { rd, rs1, rs2 } => r_fields(0x3b, 0, 1, rd, rs1, rs2),
        Instr::Divw { rd, rs1, rs2 } => r_fields(0x3b, 4, 1, rd, rs1, rs2),
        Instr::Divuw { rd, rs1, rs2 } => r_fields(0x3b, 5, 1, rd, rs1, rs2),
        Instr::Remw { rd, rs1, rs2 } => r_fields(0x3b, 6, 1, rd, rs1, rs2),
        Instr::Remuw { rd, rs1, rs2 } => r_fields(0x3b, 7, 1, rd, rs1, rs2),
        Instr::LrW { rd, rs1, ordering } => amo_fields(2, 0x02, rd, rs1, 0, ordering),
        Instr::ScW {
            rd,
            rs1,
            rs2,
            ordering,
        } => amo_fields(2, 0x03, rd, rs1, rs2, ordering),
        Instr::AmoSwapW {
            rd,
            rs1,
            rs2,
            ordering,
        } => amo_fields(2, 0x01, rd, rs1, rs2, ordering),
        Instr::AmoAddW {
            rd,
            rs1,
            rs2,
            ordering,
        } => amo_fields(2, 0x00, rd, rs1, rs2, ordering),
        Instr::AmoXorW {
            rd,
            rs1,
            rs2,
            ordering,
        } => amo_fields(2, 0x04, rd, rs1, rs2, ordering),
        Instr::AmoAndW {
            rd,
            rs1,
            rs2,
            ordering,
        } => amo_fields(2, 0x0c, rd, rs1, rs2, ordering),
        Instr::AmoOrW {
            rd,
            rs1,
            rs2,
            ordering,
        } => amo_fields(2, 0x08, rd, rs1, rs2, ordering),
        Instr::AmoMinW {
            rd,
            rs1,
            rs2,
            ordering,
        } => amo_fields(2, 0x10, rd, rs1, rs2, ordering),
        Instr::AmoMaxW {
            rd,
            rs1,
            rs2,
            ordering,
        } => amo_fields(2, 0x14, rd, rs1, rs2, ordering),
        Instr::AmoMinuW {
            rd,
            rs1,
            rs2,
            ordering,
        } => amo_fields(2, 0x18, rd, rs1, rs2, ordering),
        Instr::AmoMaxuW {
            rd,
            rs1,
            rs2,
            ordering,
        } => amo_fields(2, 0x1c, rd, rs1, rs2, ordering),
        Instr::LrD { rd, rs1, ordering } => amo_fields(3, 0x02, rd, rs1, 0, ordering),
        Instr::ScD {
            rd,
            rs1,
            rs2,
            ordering,
        } => amo_fields(3, 0x03, rd, rs1, rs2, ordering),
        Instr::AmoSwapD {
            rd,
            rs1,
            rs2,
            ordering,
        } => amo_fields(3, 0x01, rd, rs1, rs2, ordering),
        Instr::AmoAddD {
            rd,
            rs1,
            rs2,
            ordering,
        } => amo_fields(3, 0x00, rd, rs1, rs2, ordering),
        Instr::AmoXorD {
            rd,
            rs1,
            rs2,
            ordering,
        } => amo_fields(3, 0x04, rd, rs1, rs2, ordering),
        Instr::AmoAndD {
            rd,
            rs1,
            rs2,
            ordering,
        } => amo_fields(3, 0x0c, rd, rs1, rs2, ordering),
        Instr::AmoOrD {
            rd,
            rs1,
            rs2,
            ordering,
        } => amo_fields(3, 0x08, rd, rs1, rs2, ordering),
        Instr::AmoMinD {
            rd,
            rs1,
            rs2,
            ordering,
        } => amo_fields(3, 0x10, rd, rs1, rs2, ordering),
        Instr::AmoMaxD {
            rd,
            rs1,
            rs2,
            ordering,
        } => amo_fields(3, 0x14, rd, rs1, rs2, ordering),
        Instr::AmoMinuD {
            rd,
            rs1,
            rs2,
            ordering,
        } => amo_fields(3, 0x18, rd, rs1, rs2, ordering),
        Instr::AmoMaxuD {
            rd,
            rs1,
            rs2,
            ordering,
        } => amo_fields(3, 0x1c, rd, rs1, rs2, ordering),
        Instr::Csrrw { rd, rs1, csr } => i_fields(0x73, 1, rd, rs1, u32::from(csr)),
        Instr::Csrrs { rd, rs1, csr } => i_fields(0x73, 2, rd, rs1, u32::from(csr)),
        Instr::Csrrc { rd, rs1, csr } => i_fields(0x73, 3, rd, rs1, u32::from(csr)),
        Instr::Csrrwi { rd, uimm, csr } => i_fields(0x73, 5, rd, uimm, u32::from(csr)),
        Instr::Csrrsi { rd, uimm, csr } => i_fields(0x73, 6, rd, uimm, u32::from(csr)),
        Instr::Csrrci { rd, uimm, csr } => i_fields(0x73, 7, rd, uimm, u32::from(csr)),
        Instr::Ecall => split_word(0x0000_0073),
        Instr::Ebreak => split_word(0x0010_0073),
        Instr::Mret => split_word(0x3020_0073),
        Instr::Wfi => split_word(0x1050_0073),
    }
}
