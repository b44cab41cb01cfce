//! The command lines of tv, read from the words after the program's name.
//!
//! Options stand anywhere after the command's name, each at most once. An option's value is the next word, or what
//! stands after `=` in the option's own word. The word `--` ends the options. Reading takes no memory: a command's names
//! are the words' own.
#![tactic(auto)]

mod arguments;
mod command;
mod word;

pub use command::{Command, Origin, command_of, words_ask_for_one_command};

#[cfg(test)]
mod tests;
