//! What a store to the finisher asks for.

/// What a store to the finisher asks for.
#[derive(Clone, Copy)]
pub enum Finish {
    /// The machine is to be switched off.
    Off,
    /// The guest failed, with a code.
    Failed(u16),
}
