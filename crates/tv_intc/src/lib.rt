//! The local ports of the machine: the interrupt controller, the timer block and the finisher.
//!
//! A port is reached by loads and stores of a hart, at an offset in bytes from the port's first address. A load at an
//! offset or of a width that no register has gives 0, and such a store does nothing. Registers of harts that the machine
//! doesn't have aren't there.
//!
//! Both [`Intc::lines`] and [`Timer::lines`] give a hart's lines as bits of `mip` (RISC-V Privileged Architecture,
//! "Machine Interrupt Registers"): the controller gives bit 11, the external line, and the timer block bit 3, the
//! software line, and bit 7, the timer line. No bit is in both, so the lines of a hart are the two numbers joined.
#![tactic(auto)]

mod controller;
mod controller_map;
mod ending;
mod finisher;
mod timer_block;
mod timer_map;

pub use controller::Intc;
pub use ending::Finish;
pub use finisher::finish;
pub use timer_block::Timer;

#[cfg(test)]
mod tests;
