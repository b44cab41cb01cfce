//! The console: what its driver writes goes out, and what comes in goes to its driver.
#![tactic(auto)]

mod console;
mod streams;

pub use console::Console;

#[cfg(test)]
mod tests;
