//! The causes of traps that are no interrupts, by their numbers in mcause (RISC-V Privileged Architecture, chapter
//! "Machine-Level ISA", "Machine Cause Register").

/// A jump or a taken branch to a target that isn't a multiple of 4. It tells the target.
pub const INSTRUCTION_ADDRESS_MISALIGNED: u64 = 0;

/// A pc outside memory. It tells the pc.
pub const INSTRUCTION_ACCESS_FAULT: u64 = 1;

/// A word without a row in the listing, or a CSR access that is refused. It tells the word.
pub const ILLEGAL_INSTRUCTION: u64 = 2;

/// EBREAK.
pub const BREAKPOINT: u64 = 3;

/// A load or LR at an address that isn't aligned. It tells the address.
pub const LOAD_ADDRESS_MISALIGNED: u64 = 4;

/// A load where nothing lies, or an LR outside memory. It tells the address.
pub const LOAD_ACCESS_FAULT: u64 = 5;

/// A store, SC or AMO at an address that isn't aligned. It tells the address.
pub const STORE_ADDRESS_MISALIGNED: u64 = 6;

/// A store where nothing lies, or an SC or AMO outside memory. It tells the address.
pub const STORE_ACCESS_FAULT: u64 = 7;

/// ECALL.
pub const ENVIRONMENT_CALL: u64 = 11;
