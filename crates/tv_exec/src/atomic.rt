// What an atomic memory operation puts into memory.

ghost use Rattle.std.specs.Prelude.{◌≡◌};
ghost use Rattle.tv_exec.specs.Atomic.{amo_of, IsAmoWidth, double_of_amo, word_of_amo};

use crate::arithmetic::word_extended;
use tv_base::Width;
use tv_isa::AmoOp;

/// What an operation puts in the place of the old value in memory, of a width of 4 or 8 bytes. With 4 bytes it works on the
/// low 32 bits of both, and the result of 32 bits is sign-extended.
#[inline(always)]
pub fn amo(op: AmoOp, width: Width, old: u64, b: u64) -> u64
    requires { IsAmoWidth width }
    ensures { result ≡ amo_of op width old b }
{
    match width {
        Width::B4 => {
            let word = amo_word(op, (old & 0xffff_ffff) as u32, (b & 0xffff_ffff) as u32);
            word_extended(word)
        }
        Width::B8 => amo_double(op, old, b),
        Width::B1 | Width::B2 => unreachable!(),
    }
}

/// On words.
#[inline(always)]
fn amo_word(op: AmoOp, x: u32, y: u32) -> u32
    ensures { result ≡ word_of_amo op x y }
{
    let takes_operand = match op {
        AmoOp::Swap => true,
        AmoOp::Add => return x.wrapping_add(y),
        AmoOp::Xor => return x ^ y,
        AmoOp::And => return x & y,
        AmoOp::Or => return x | y,
        AmoOp::Min => y.cast_signed() < x.cast_signed(),
        AmoOp::Max => x.cast_signed() < y.cast_signed(),
        AmoOp::Minu => y < x,
        AmoOp::Maxu => x < y,
    };
    if takes_operand { y } else { x }
}

/// On double words.
#[inline(always)]
fn amo_double(op: AmoOp, old: u64, b: u64) -> u64
    ensures { result ≡ double_of_amo op old b }
{
    let takes_operand = match op {
        AmoOp::Swap => true,
        AmoOp::Add => return old.wrapping_add(b),
        AmoOp::Xor => return old ^ b,
        AmoOp::And => return old & b,
        AmoOp::Or => return old | b,
        AmoOp::Min => b.cast_signed() < old.cast_signed(),
        AmoOp::Max => old.cast_signed() < b.cast_signed(),
        AmoOp::Minu => b < old,
        AmoOp::Maxu => old < b,
    };
    if takes_operand { b } else { old }
}
