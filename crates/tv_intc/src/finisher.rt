//! The register that ends a run.

ghost use Rattle.std.specs.Prelude.{◌≡◌};
ghost use Rattle.tv_intc.specs.Finisher.{finish_of};

use crate::ending::Finish;

/// What a store of the 4 bytes `value` to the finisher asks for; `None` where it asks for nothing.
pub fn finish(value: u32) -> Option<Finish>
    ensures { result ≡ finish_of value }
{
    if value == 0x5555 {
        Some(Finish::Off)
    } else if value & 0xffff == 0x3333 {
        Some(Finish::Failed((value >> 16) as u16))
    } else {
        None
    }
}
