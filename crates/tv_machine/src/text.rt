//! Owned texts.

ghost use Rattle.std.specs.Prelude.{◌≡◌, ◌++◌, IfOk};

use std::alloc::Global;
use std::marker::Model;
use tv_base::Memory;

/// A text that is kept: a name in a machine, or the path of a key in its file. A contract sees it as the list of its bytes.
#[derive(Drop)]
pub struct KeyText {
    text: String,
}

impl Model for KeyText {
    ghost use Rattle.std.specs.Prelude.{ℕ, List, string_bytes};

    ghost Value = { List ℕ };

    ghost view = { λ key. string_bytes key.text };
}

impl KeyText {
    /// A copy of a text.
    ///
    /// # Errors
    /// Want of memory.
    pub fn new(alloc: Global, text: &str) -> Result<KeyText, Memory>
        ensures { IfOk result (λ key. key ≡ text.now) }
    {
        match String::from_str(alloc, text) {
            Ok(text) => Ok(KeyText { text }),
            Err(_) => Err(Memory),
        }
    }

    /// The text.
    pub fn as_str(&self) -> &str
        ensures { result.now ≡ self.now }
    {
        self.text.as_str()
    }

    /// Three texts, one after the other.
    ///
    /// # Errors
    /// Want of memory.
    pub fn joined(alloc: Global, first: &str, second: &str, third: &str) -> Result<KeyText, Memory>
        ensures { IfOk result (λ key. key ≡ first.now ++ (second.now ++ third.now)) }
    {
        let Ok(mut text) = String::from_str(alloc, first) else {
            return Err(Memory);
        };
        if text.push_str(second).is_err() {
            return Err(Memory);
        }
        if text.push_str(third).is_err() {
            return Err(Memory);
        }
        Ok(KeyText { text })
    }
}
