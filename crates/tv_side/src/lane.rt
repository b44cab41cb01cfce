//! The lane between a worker and a service.

ghost use Rattle.std.specs.Prelude.{◌≡◌, ◌↔◌, true, IfOk, None};

use crate::Slot;
use std::alloc::Global;
use tv_base::Memory;

/// A request on its way to a service, and the reply on its way back.
#[derive(Drop)]
pub struct Lane {
    /// The request that the service did not take.
    pub asked: Slot,
    /// The reply that the worker did not take.
    pub answered: Slot,
}

impl Lane {
    /// Nothing on its way.
    ///
    /// # Errors
    /// Out of memory.
    pub fn new(alloc: Global) -> Result<Lane, Memory>
        ensures { IfOk result (λ lane. (lane.asked ≡ None) × (lane.answered ≡ None)) }
    {
        Ok(Lane {
            asked: Slot::new(alloc)?,
            answered: Slot::new(alloc)?,
        })
    }

    /// Whether nothing is on its way.
    pub fn is_empty(&self) -> bool
        ensures { (result ≡ true) ↔ ((self.now.asked ≡ None) × (self.now.answered ≡ None)) }
    {
        self.asked.is_empty() && self.answered.is_empty()
    }
}
