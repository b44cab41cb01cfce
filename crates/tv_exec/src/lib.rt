//! The values of the operations of RV64IMA: of registers, of branch conditions and of atomic memory operations.
//!
//! Registers are numbers of 64 bits. The operations are enums of `tv_isa`, passed on under the same names.
#![tactic(auto)]

mod arithmetic;
mod atomic;
mod division;

pub use arithmetic::{alu, alu_w, branch, byte_extended, half_word_extended, word_extended};
pub use atomic::amo;
pub use division::{mul_div, mul_div_w};
pub use tv_isa::{Alu, AmoOp, Branch, MulDiv};

#[cfg(test)]
mod tests;
