// Products, quotients and remainders.

ghost use Rattle.std.specs.Prelude.{◌≡◌, ◌*ℤ◌};
ghost use Rattle.tv_exec.specs.Division.{mul_div_of, mul_div_w_of, MulDivHasWordForm, upper_half, word_of_mul_div};

use crate::arithmetic::word_extended;
use tv_isa::MulDiv;

/// The product, quotient or remainder of two registers of 64 bits. A quotient by zero is all ones, a remainder by zero the
/// dividend. The least signed number divided by -1 is itself, with remainder 0.
#[inline(always)]
pub fn mul_div(op: MulDiv, a: u64, b: u64) -> u64
    ensures { result ≡ mul_div_of op a b }
{
    match op {
        MulDiv::Mul => a.wrapping_mul(b),
        MulDiv::Mulh => upper(product(a.cast_signed(), b.cast_signed())),
        MulDiv::Mulhsu => upper(i128::from(a.cast_signed()) * i128::from(b)),
        MulDiv::Mulhu => ((u128::from(a) * u128::from(b)) >> 64) as u64,
        MulDiv::Div if b == 0 => u64::MAX,
        MulDiv::Div => a
            .cast_signed()
            .wrapping_div(b.cast_signed())
            .cast_unsigned(),
        MulDiv::Divu if b == 0 => u64::MAX,
        MulDiv::Divu => a / b,
        MulDiv::Rem if b == 0 => a,
        MulDiv::Rem => a
            .cast_signed()
            .wrapping_rem(b.cast_signed())
            .cast_unsigned(),
        MulDiv::Remu if b == 0 => a,
        MulDiv::Remu => a % b,
    }
}

/// The product of two signed numbers.
#[inline(always)]
fn product(a: i64, b: i64) -> i128
    ensures { result ≡ a *ℤ b }
{
    i128::from(a) * i128::from(b)
}

/// The upper half of a product.
#[inline(always)]
fn upper(product: i128) -> u64
    ensures { result ≡ upper_half product }
{
    (product.cast_unsigned() >> 64) as u64
}

/// The same on the low 32 bits, for the operations that have a W form: the result of 32 bits is sign-extended.
#[inline(always)]
pub fn mul_div_w(op: MulDiv, a: u64, b: u64) -> u64
    requires { MulDivHasWordForm op }
    ensures { result ≡ mul_div_w_of op a b }
{
    let x = (a & 0xffff_ffff) as u32;
    let y = (b & 0xffff_ffff) as u32;
    let word = mul_div_word(op, x, y);
    word_extended(word)
}

/// Of two words.
#[inline(always)]
fn mul_div_word(op: MulDiv, x: u32, y: u32) -> u32
    requires { MulDivHasWordForm op }
    ensures { result ≡ word_of_mul_div op x y }
{
    match op {
        MulDiv::Mul => x.wrapping_mul(y),
        MulDiv::Div if y == 0 => u32::MAX,
        MulDiv::Div => x
            .cast_signed()
            .wrapping_div(y.cast_signed())
            .cast_unsigned(),
        MulDiv::Divu if y == 0 => u32::MAX,
        MulDiv::Divu => x / y,
        MulDiv::Rem if y == 0 => x,
        MulDiv::Rem => x
            .cast_signed()
            .wrapping_rem(y.cast_signed())
            .cast_unsigned(),
        MulDiv::Remu if y == 0 => x,
        MulDiv::Remu => x % y,
        MulDiv::Mulh | MulDiv::Mulhsu | MulDiv::Mulhu => unreachable!(),
    }
}
