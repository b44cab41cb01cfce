//! Loads: what becomes of the number that a load finds.

ghost use Rattle.std.specs.Prelude.{◌≡◌, ◌%◌, ◌^◌};
ghost use Rattle.tv_base.specs.Width.{width_bytes};
ghost use Rattle.tv_hart.specs.Loads.{extended};

use tv_base::Width;
use tv_exec::{byte_extended, half_word_extended, word_extended};

/// How a loaded number becomes one of 64 bits.
#[derive(Clone, Copy)]
pub enum Extension {
    /// With its sign.
    Sign,
    /// With zeros.
    Zero,
}

/// What a hart keeps of a load whose value comes later.
#[derive(Clone, Copy)]
pub struct Waiting {
    /// The register that gets the value.
    pub rd: u8,
    /// How many bytes the load moves.
    pub width: Width,
    /// How they become a number of 64 bits.
    pub extension: Extension,
}

/// A loaded number as one of 64 bits. Only its low `width` bytes count.
#[inline(always)]
pub fn extended_number(extension: Extension, width: Width, value: u64) -> u64
    ensures { result ≡ extended extension width value }
{
    match (extension, width) {
        (Extension::Zero, _) | (Extension::Sign, Width::B8) => low_bytes(width, value),
        (Extension::Sign, Width::B1) => byte_extended((value & 0xff) as u8),
        (Extension::Sign, Width::B2) => half_word_extended((value & 0xffff) as u16),
        (Extension::Sign, Width::B4) => word_extended((value & 0xffff_ffff) as u32),
    }
}

/// The number in the low `width` bytes of a value.
#[inline(always)]
fn low_bytes(width: Width, value: u64) -> u64
    ensures { result ≡ value % 256 ^ width_bytes width }
{
    match width {
        Width::B1 => value & 0xff,
        Width::B2 => value & 0xffff,
        Width::B4 => value & 0xffff_ffff,
        Width::B8 => value,
    }
}
