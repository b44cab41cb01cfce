//! How services and their rounds end.

/// How a service ended. Which end it is, is decided by what the device does next.
#[derive(Clone, Copy, Debug, PartialEq, Eq)]
pub enum Served {
    /// No action is left.
    Idle,
    /// The port said that the machine is ending, and an action was not answered.
    Ended,
    /// A put failed, and bytes of it are lost.
    Lost,
}

/// How a round ended.
#[derive(Clone, Copy, Debug, PartialEq, Eq)]
pub enum Turned {
    /// Another round follows.
    Again,
    /// No action is left: the service ends.
    Idle,
    /// The port said that the machine is ending, and an action was not answered.
    Ended,
    /// A put failed, and bytes of it are lost: the service ends.
    Lost,
}
