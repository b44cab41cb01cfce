//! Where the registers of the timer block lie.

ghost use Rattle.std.specs.Prelude.{◌≡◌, ◌≤◌, IfSome, Some};
ghost use Rattle.tv_base.specs.declared.Width.TheVariants.{B4, B8};
ghost use Rattle.tv_intc.specs.declared.timer_map.Register.{Register};
ghost use Rattle.tv_intc.specs.TimerMap.{IsThere, double_at, half_at, offset_of, register_at, width_of, word_at};

use tv_base::Width;

/// What an access reaches of a register of 8 bytes.
#[derive(Clone, Copy)]
pub enum Part {
    /// All 8 bytes.
    Whole,
    /// The low 4 bytes.
    Low,
    /// The high 4 bytes.
    High,
}

/// A register of the timer block, or a half of one.
#[derive(Clone, Copy)]
pub enum Register {
    /// The software interrupt bit of a hart, 4 bytes.
    Software(u8),
    /// The time at which the timer line of a hart goes up.
    Compare(u8, Part),
    /// The time.
    Time(Part),
}

const COMPARE: u32 = 0x4000;

const COMPARE_BYTES: u32 = 8;

const TIME: u32 = 0xBFF8;

/// The register that an access of this width at this offset reaches, on a machine with this many harts.
#[inline]
pub fn find_register(harts: u8, off: u32, width: Width) -> Option<Register>
    requires { harts ≤ 8 }
    ensures exact { result ≡ register_at harts off width }
    ensures found { IfSome result (λ r. IsThere harts r × (offset_of r ≡ off) × (width_of r ≡ width)) }
    ensures each { (r : Register) → IsThere harts r → width_of r ≡ width → offset_of r ≡ off → result ≡ Some r }
{
    match width {
        Width::B4 => find_word(u32::from(harts), off),
        Width::B8 => find_double(u32::from(harts), off),
        Width::B1 | Width::B2 => None,
    }
}

// The register of 4 bytes at an offset.
fn find_word(harts: u32, off: u32) -> Option<Register>
    requires { harts ≤ 8 }
    ensures exact { result ≡ word_at harts off }
    ensures found { IfSome result (λ r. IsThere harts r × (offset_of r ≡ off) × (width_of r ≡ B4)) }
    ensures each { (r : Register) → IsThere harts r → width_of r ≡ B4 → offset_of r ≡ off → result ≡ Some r }
{
    if off < 4 * harts && off % 4 == 0 {
        return Some(Register::Software((off / 4) as u8));
    }
    if off >= COMPARE && off < COMPARE + COMPARE_BYTES * harts && off % 4 == 0 {
        let hart = ((off - COMPARE) / COMPARE_BYTES) as u8;
        return Some(Register::Compare(hart, half_of(off)));
    }
    if off == TIME {
        return Some(Register::Time(Part::Low));
    }
    if off == TIME + 4 {
        return Some(Register::Time(Part::High));
    }
    None
}

// The half at an offset that is a multiple of 4.
#[inline]
fn half_of(off: u32) -> Part
    ensures { result ≡ half_at off }
{
    if off % 8 == 0 { Part::Low } else { Part::High }
}

// The register of 8 bytes at an offset.
fn find_double(harts: u32, off: u32) -> Option<Register>
    requires { harts ≤ 8 }
    ensures exact { result ≡ double_at harts off }
    ensures found { IfSome result (λ r. IsThere harts r × (offset_of r ≡ off) × (width_of r ≡ B8)) }
    ensures each { (r : Register) → IsThere harts r → width_of r ≡ B8 → offset_of r ≡ off → result ≡ Some r }
{
    if off >= COMPARE && off < COMPARE + COMPARE_BYTES * harts && off % 8 == 0 {
        return Some(Register::Compare(((off - COMPARE) / COMPARE_BYTES) as u8, Part::Whole));
    }
    if off == TIME {
        return Some(Register::Time(Part::Whole));
    }
    None
}
