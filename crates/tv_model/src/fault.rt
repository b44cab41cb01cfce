//! Why an entry was not made.

/// Why an entry was not made.
#[derive(Clone, Copy, PartialEq, Eq)]
pub enum StepFault {
    /// The monitor has no such step.
    Illegal,
    /// Out of memory.
    Memory,
}
