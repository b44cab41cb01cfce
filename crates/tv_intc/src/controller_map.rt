//! Where the registers of the interrupt controller lie.

ghost use Rattle.std.specs.Prelude.{◌≡◌, ◌≤◌, IfSome, Some};
ghost use Rattle.tv_intc.specs.declared.controller_map.Register.{Register};
ghost use Rattle.tv_intc.specs.ControllerMap.{IsThere, offset_of, register_at};

/// A register of the interrupt controller, each of 4 bytes.
#[derive(Clone, Copy)]
pub enum Register {
    /// The priority of a source.
    Priority(u8),
    /// The pending bits of all sources.
    Pending,
    /// The enable bits of a hart.
    Enables(u8),
    /// The threshold of a hart.
    Threshold(u8),
    /// The claim and completion of a hart.
    Claim(u8),
}

/// The sources are 1 to this.
pub const SOURCES: u8 = 8;

const ENABLES: u32 = 0x2000;

const ENABLES_BYTES: u32 = 0x80;

const CONTEXTS: u32 = 0x20_0000;

const CONTEXT_BYTES: u32 = 0x1000;

/// The register at an offset, on a machine with this many harts.
#[inline]
pub fn find_register(harts: u8, off: u32) -> Option<Register>
    requires { harts ≤ 8 }
    ensures exact { result ≡ register_at harts off }
    ensures found { IfSome result (λ r. IsThere harts r × (offset_of r ≡ off)) }
    ensures each { (r : Register) → IsThere harts r → offset_of r ≡ off → result ≡ Some r }
{
    let harts = u32::from(harts);
    if off >= 4 && off <= 4 * u32::from(SOURCES) && off % 4 == 0 {
        return Some(Register::Priority((off / 4) as u8));
    }
    if off == 0x1000 {
        return Some(Register::Pending);
    }
    if off >= ENABLES
        && off < ENABLES + ENABLES_BYTES * harts
        && (off - ENABLES) % ENABLES_BYTES == 0
    {
        return Some(Register::Enables(((off - ENABLES) / ENABLES_BYTES) as u8));
    }
    if off >= CONTEXTS && off < CONTEXTS + CONTEXT_BYTES * harts {
        let hart = ((off - CONTEXTS) / CONTEXT_BYTES) as u8;
        return match (off - CONTEXTS) % CONTEXT_BYTES {
            0 => Some(Register::Threshold(hart)),
            4 => Some(Register::Claim(hart)),
            _ => None,
        };
    }
    None
}
