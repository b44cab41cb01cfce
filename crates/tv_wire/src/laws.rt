//! Laws of the bytes that spell messages.

ghost use Rattle.std.specs.Prelude.{◌≡◌, ℕ, List, [], ◌++◌};
ghost use Rattle.tv_wire.specs.declared.Msg.{Msg};
ghost use Rattle.tv_wire.specs.Spelling.{SpellsMessage};

/// A message has one spelling.
pub fn one_spelling()
    ensures { (first second : List ℕ) (m : Msg) → SpellsMessage first m → SpellsMessage second m → first ≡ second }
{}

/// Bytes spell one message at most.
pub fn one_reading()
    ensures { (bytes : List ℕ) (m n : Msg) → SpellsMessage bytes m → SpellsMessage bytes n → m ≡ n }
{}

/// No spelling begins another: what stands behind it there is nothing.
pub fn no_spelling_begins_another()
    ensures { (first second rest : List ℕ) (m n : Msg) → SpellsMessage first m → SpellsMessage second n → second ≡ first ++ rest → rest ≡ [] }
{}
