//! Why a machine file is refused.

use tv_machine::KeyText;

/// Why a machine file is refused, with the path of the key.
#[derive(Drop)]
pub enum FileFault {
    /// The bytes are no TOML.
    NotToml,
    /// No such key belongs there.
    Unknown(KeyText),
    /// The key has to be there.
    Missing(KeyText),
    /// The key's value is of another kind.
    Kind(KeyText),
    /// The key's value is out of range.
    Range(KeyText),
    /// The key's value was given before.
    Twice(KeyText),
    /// The key's memory range shares a byte with an earlier one of its device.
    Overlap(KeyText),
    /// Want of memory, which says nothing of the file.
    Memory,
}
