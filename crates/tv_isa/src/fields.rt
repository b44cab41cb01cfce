// A word as its six fields.

ghost use Rattle.std.specs.Prelude.{◌≡◌, ◌<◌};
ghost use Rattle.tv_isa.specs.Fields.{split, join, Fits};

/// The fields of a word, in the places that the R format gives them.
#[derive(Clone, Copy)]
pub struct Fields {
    /// Bits 6:0.
    pub opcode: u8,
    /// Bits 11:7.
    pub rd: u8,
    /// Bits 14:12.
    pub funct3: u8,
    /// Bits 19:15.
    pub rs1: u8,
    /// Bits 24:20.
    pub rs2: u8,
    /// Bits 31:25.
    pub funct7: u8,
}

/// The fields of a word.
#[inline(always)]
pub fn split_word(word: u32) -> Fields
    ensures value { result ≡ split word }
    ensures fits { Fits result }
{
    Fields {
        opcode: (word & 0x7f) as u8,
        rd: ((word >> 7) & 0x1f) as u8,
        funct3: ((word >> 12) & 7) as u8,
        rs1: ((word >> 15) & 0x1f) as u8,
        rs2: ((word >> 20) & 0x1f) as u8,
        funct7: (word >> 25) as u8,
    }
}

/// The word of the fields.
#[tactic(auto, unfolding(crate::specs::Fields::join))]
pub fn join_fields(fields: Fields) -> u32
    requires { Fits fields }
    ensures { result ≡ join fields }
{
    u32::from(fields.opcode)
        + (u32::from(fields.rd) << 7)
        + (u32::from(fields.funct3) << 12)
        + (u32::from(fields.rs1) << 15)
        + (u32::from(fields.rs2) << 20)
        + (u32::from(fields.funct7) << 25)
}
