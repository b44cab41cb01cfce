//! What a word is, by itself.

ghost use Rattle.std.specs.Prelude.{◌≡◌, option_map};
ghost use Rattle.tv_words.specs.Reading.{is_plain as plain_test, kind_of, kind_seen, stripped};

/// An option that has a value.
#[derive(Clone, Copy)]
pub enum Setting {
    /// `--steps`.
    Steps,
    /// `--journal`.
    Journal,
}

/// What a word before the end of the options is.
#[derive(Clone, Copy)]
pub enum Word<'a> {
    /// A name.
    Name,
    /// `--`, which ends the options.
    End,
    /// `--flat`.
    Flat,
    /// An option whose value is the next word.
    Setting(Setting),
    /// An option with its value.
    Set(Setting, &'a str),
}

/// What a word is; `None` where it is an option that isn't known.
pub fn read_word(word: &str) -> Option<Word<'_>>
    ensures { kind_seen result ≡ kind_of word.now }
{
    let kind = match word {
        "--" => Word::End,
        "--flat" => Word::Flat,
        "--steps" => Word::Setting(Setting::Steps),
        "--journal" => Word::Setting(Setting::Journal),
        _ => {
            if let Some(value) = strip(word, "--steps=") {
                Word::Set(Setting::Steps, value)
            } else if let Some(value) = strip(word, "--journal=") {
                Word::Set(Setting::Journal, value)
            } else if is_plain(word) {
                Word::Name
            } else {
                return None;
            }
        }
    };
    Some(kind)
}

/// Whether a word is no option: it begins with `-` only where it is `-` alone.
pub fn is_plain(word: &str) -> bool
    ensures { result ≡ plain_test word.now }
{
    !matches!(word.as_bytes(), [b'-', _, ..])
}

/// The word without a prefix, if it has it.
fn strip<'a>(word: &'a str, prefix: &str) -> Option<&'a str>
    ensures { option_map (λ rest. rest.now) result ≡ stripped prefix.now word.entry.now }
{
    word.strip_prefix(prefix)
}
