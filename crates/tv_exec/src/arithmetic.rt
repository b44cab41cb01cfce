//! The values of the base instructions' operations (RISC-V Unprivileged ISA, chapters "RV32I" and "RV64I").

ghost use Rattle.std.specs.Prelude.{◌≡◌, ◌^◌};
ghost use Rattle.tv_exec.specs.Arithmetic.{alu_of, alu_w_of, HasWordForm, branch_of, sign_extended_from};

use tv_isa::{Alu, Branch};

/// The value of an operation on two registers of 64 bits. A shift takes the low 6 bits of `b`.
#[inline(always)]
pub fn alu(op: Alu, a: u64, b: u64) -> u64
    ensures { result ≡ alu_of op a b }
{
    match op {
        Alu::Add => a.wrapping_add(b),
        Alu::Sub => a.wrapping_sub(b),
        Alu::Sll => a.wrapping_shl((b % 64) as u32),
        Alu::Slt => u64::from(a.cast_signed() < b.cast_signed()),
        Alu::Sltu => u64::from(a < b),
        Alu::Xor => a ^ b,
        Alu::Srl => a >> (b % 64),
        Alu::Sra => (a.cast_signed() >> (b % 64)).cast_unsigned(),
        Alu::Or => a | b,
        Alu::And => a & b,
    }
}

/// The same on the low 32 bits, for the operations that have a W form: the result of 32 bits is sign-extended, and a
/// shift takes the low 5 bits of `b`.
#[inline(always)]
pub fn alu_w(op: Alu, a: u64, b: u64) -> u64
    requires { HasWordForm op }
    ensures { result ≡ alu_w_of op a b }
{
    let x = (a & 0xffff_ffff) as u32;
    let y = (b & 0xffff_ffff) as u32;
    let word = match op {
        Alu::Add => x.wrapping_add(y),
        Alu::Sub => x.wrapping_sub(y),
        Alu::Sll => x.wrapping_shl(y % 32),
        Alu::Srl => x >> (y % 32),
        Alu::Sra => (x.cast_signed() >> (y % 32)).cast_unsigned(),
        Alu::Slt | Alu::Sltu | Alu::Xor | Alu::Or | Alu::And => unreachable!(),
    };
    word_extended(word)
}

/// Whether a branch is taken.
#[inline(always)]
pub fn branch(op: Branch, a: u64, b: u64) -> bool
    ensures { result ≡ branch_of op a b }
{
    match op {
        Branch::Eq => a == b,
        Branch::Ne => a != b,
        Branch::Lt => a.cast_signed() < b.cast_signed(),
        Branch::Ge => a.cast_signed() >= b.cast_signed(),
        Branch::Ltu => a < b,
        Branch::Geu => a >= b,
    }
}

/// A number of 8 bits as one of 64 bits, with its sign.
#[inline(always)]
pub fn byte_extended(byte: u8) -> u64
    ensures { result ≡ sign_extended_from (2 ^ 7) byte }
{
    i64::from(byte.cast_signed()).cast_unsigned()
}

/// A number of 16 bits as one of 64 bits, with its sign.
#[inline(always)]
pub fn half_word_extended(half: u16) -> u64
    ensures { result ≡ sign_extended_from (2 ^ 15) half }
{
    i64::from(half.cast_signed()).cast_unsigned()
}

/// A number of 32 bits as one of 64 bits, with its sign.
#[inline(always)]
pub fn word_extended(word: u32) -> u64
    ensures { result ≡ sign_extended_from (2 ^ 31) word }
{
    i64::from(word.cast_signed()).cast_unsigned()
}
