// The formats: parts of an instruction into fields, and immediates out of fields.

ghost use Rattle.std.specs.Prelude.{◌≡◌, ◌<◌, ◌^◌, ◌%◌};
ghost use Rattle.tv_isa.specs.Fields.{Fits};
ghost use Rattle.tv_isa.specs.Formats.{r_form, amo_form, i_form, shift_form, shift_w_form, s_form, b_form, u_form, j_form};
ghost use Rattle.tv_isa.specs.Table.{FitsAmo, FitsI, FitsShift, FitsShiftW, FitsS, FitsB, FitsU, FitsJ};
ghost use Rattle.tv_isa.specs.Formats.{ordering, i_imm, shift_amount, s_imm, b_offset, u_imm, j_offset};

use crate::fields::Fields;

/// The fields of the R format.
pub fn r_fields(opcode: u8, funct3: u8, funct7: u8, rd: u8, rs1: u8, rs2: u8) -> Fields
    ensures { result ≡ r_form opcode funct3 funct7 rd rs1 rs2 }
{
    Fields {
        opcode,
        rd,
        funct3,
        rs1,
        rs2,
        funct7,
    }
}

/// The fields of an atomic memory operation.
pub fn amo_fields(funct3: u8, funct5: u8, rd: u8, rs1: u8, rs2: u8, ordering: u8) -> Fields
    requires funct5 { funct5 < 2 ^ 5 }
    requires fits { FitsAmo rd rs1 rs2 ordering }
    ensures { result ≡ amo_form 0x2f funct3 funct5 rd rs1 rs2 ordering }
{
    Fields {
        opcode: 0x2f,
        rd,
        funct3,
        rs1,
        rs2,
        funct7: funct5 * 4 + ordering,
    }
}

/// The fields of the I format.
pub fn i_fields(opcode: u8, funct3: u8, rd: u8, rs1: u8, imm: u32) -> Fields
    requires { FitsI rd rs1 imm }
    ensures { result ≡ i_form opcode funct3 rd rs1 imm }
{
    Fields {
        opcode,
        rd,
        funct3,
        rs1,
        rs2: (imm % 32) as u8,
        funct7: (imm / 32) as u8,
    }
}

/// The fields of a shift by 6 bits.
pub fn shift_fields(opcode: u8, funct3: u8, funct6: u8, rd: u8, rs1: u8, shamt: u32) -> Fields
    requires funct6 { funct6 < 2 ^ 6 }
    requires fits { FitsShift rd rs1 shamt }
    ensures { result ≡ shift_form opcode funct3 funct6 rd rs1 shamt }
{
    Fields {
        opcode,
        rd,
        funct3,
        rs1,
        rs2: (shamt % 32) as u8,
        funct7: funct6 * 2 + (shamt / 32) as u8,
    }
}

/// The fields of a shift by 5 bits.
pub fn shift_w_fields(opcode: u8, funct3: u8, funct7: u8, rd: u8, rs1: u8, shamt: u32) -> Fields
    requires { FitsShiftW rd rs1 shamt }
    ensures { result ≡ shift_w_form opcode funct3 funct7 rd rs1 shamt }
{
    Fields {
        opcode,
        rd,
        funct3,
        rs1,
        rs2: shamt as u8,
        funct7,
    }
}

/// The fields of the S format.
pub fn s_fields(opcode: u8, funct3: u8, rs1: u8, rs2: u8, imm: u32) -> Fields
    requires { FitsS rs1 rs2 imm }
    ensures { result ≡ s_form opcode funct3 rs1 rs2 imm }
{
    Fields {
        opcode,
        rd: (imm % 32) as u8,
        funct3,
        rs1,
        rs2,
        funct7: (imm / 32) as u8,
    }
}

/// The fields of the B format.
pub fn b_fields(opcode: u8, funct3: u8, rs1: u8, rs2: u8, offset: u32) -> Fields
    requires { FitsB rs1 rs2 offset }
    ensures { result ≡ b_form opcode funct3 rs1 rs2 offset }
{
    Fields {
        opcode,
        rd: (offset / 2 % 16 * 2 + offset / 0x800 % 2) as u8,
        funct3,
        rs1,
        rs2,
        funct7: (offset / 0x1000 * 64 + offset / 32 % 64) as u8,
    }
}

/// The fields of the U format.
pub fn u_fields(opcode: u8, rd: u8, imm: u32) -> Fields
    requires { FitsU rd imm }
    ensures { result ≡ u_form opcode rd imm }
{
    Fields {
        opcode,
        rd,
        funct3: (imm % 8) as u8,
        rs1: (imm / 8 % 32) as u8,
        rs2: (imm / 256 % 32) as u8,
        funct7: (imm / 0x2000) as u8,
    }
}

/// The fields of the J format.
pub fn j_fields(opcode: u8, rd: u8, offset: u32) -> Fields
    requires { FitsJ rd offset }
    ensures { result ≡ j_form opcode rd offset }
{
    Fields {
        opcode,
        rd,
        funct3: (offset / 0x1000 % 8) as u8,
        rs1: (offset / 0x8000 % 32) as u8,
        rs2: (offset / 2 % 16 * 2 + offset / 0x800 % 2) as u8,
        funct7: (offset / 0x10_0000 * 64 + offset / 32 % 64) as u8,
    }
}

/// The immediate of the I format.
#[inline(always)]
pub fn i_immediate(f: Fields) -> u32
    requires { Fits f }
    ensures { result ≡ i_imm f }
{
    u32::from(f.funct7) * 32 + u32::from(f.rs2)
}

/// The bits aq and rl of an atomic memory operation.
#[inline(always)]
pub fn ordering_of(f: Fields) -> u8
    ensures { result ≡ ordering f }
{
    f.funct7 % 4
}

/// The number of a control and status register, in the place of an I immediate.
#[inline(always)]
pub fn csr_of(f: Fields) -> u16
    requires { Fits f }
    ensures { result ≡ i_imm f }
{
    u16::from(f.funct7) * 32 + u16::from(f.rs2)
}

/// The shift amount of 6 bits.
#[inline(always)]
pub fn shift_of(f: Fields) -> u32
    requires { Fits f }
    ensures { result ≡ shift_amount f }
{
    u32::from(f.funct7 % 2) * 32 + u32::from(f.rs2)
}

/// The immediate of the S format.
#[inline(always)]
pub fn s_immediate(f: Fields) -> u32
    requires { Fits f }
    ensures { result ≡ s_imm f }
{
    u32::from(f.funct7) * 32 + u32::from(f.rd)
}

/// The offset of the B format.
#[inline(always)]
pub fn b_immediate(f: Fields) -> u32
    requires { Fits f }
    ensures { result ≡ b_offset f }
{
    u32::from(f.funct7 / 64) * 0x1000
        + u32::from(f.rd % 2) * 0x800
        + u32::from(f.funct7 % 64) * 32
        + u32::from(f.rd / 2) * 2
}

/// The immediate of the U format.
#[inline(always)]
pub fn u_immediate(f: Fields) -> u32
    requires { Fits f }
    ensures { result ≡ u_imm f }
{
    u32::from(f.funct7) * 0x2000
        + u32::from(f.rs2) * 256
        + u32::from(f.rs1) * 8
        + u32::from(f.funct3)
}

/// The offset of the J format.
#[inline(always)]
pub fn j_immediate(f: Fields) -> u32
    requires { Fits f }
    ensures { result ≡ j_offset f }
{
    u32::from(f.funct7 / 64) * 0x10_0000
        + u32::from(f.rs1) * 0x8000
        + u32::from(f.funct3) * 0x1000
        + u32::from(f.rs2 % 2) * 0x800
        + u32::from(f.funct7 % 64) * 32
        + u32::from(f.rs2 / 2) * 2
}
