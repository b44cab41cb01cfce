//! A part of some bytes copied to the front of a slice.

ghost use Rattle.std.specs.Prelude.{◌≡◌, ◌≤◌, ◌+◌, ◌++◌, length, take, drop};

/// Copies `count` of the bytes, from `at` on.
#[tactic(auto, using(crate::proofs::Split::part_end))]
pub fn copy_part(out: &mut [u8], bytes: &[u8], at: usize, count: usize)
    requires room { count ≤ length out.old }
    requires enough { at + count ≤ length bytes.now }
    ensures after { drop at bytes.now ≡ take count out.new ++ drop (at + count) bytes.now }
    ensures before { take (at + count) bytes.now ≡ take at bytes.now ++ take count out.new }
{
    out[..count].copy_from_slice(&bytes[at..at + count]);
}
