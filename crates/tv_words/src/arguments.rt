//! The arguments of a command, read word by word.

ghost use Rattle.std.specs.Prelude.{◌≡◌, option_map};
ghost use Rattle.tv_words.specs.CommandLine.{texts};
ghost use Rattle.tv_words.specs.Reading.{given_seen, nothing_given, read, reading, with_flat, with_name, with_value};

use crate::word::{Setting, Word, is_plain, read_word};

/// The names that were given, of which there are two at most.
#[derive(Clone, Copy)]
pub enum Names<'a> {
    /// No name.
    Nothing,
    /// One name.
    One(&'a str),
    /// Two names, in order.
    Two(&'a str, &'a str),
}

/// What arguments give.
#[derive(Clone, Copy)]
pub struct Arguments<'a> {
    /// The names.
    pub names: Names<'a>,
    /// The value of `--steps`.
    pub steps: Option<&'a str>,
    /// The value of `--journal`.
    pub journal: Option<&'a str>,
    /// Whether `--flat` is given.
    pub flat: bool,
}

/// What the next word is read as.
#[derive(Clone, Copy)]
enum Next {
    /// An argument.
    Argument,
    /// The value of an option.
    Value(Setting),
    /// A name, since `--` ended the options.
    Name,
}

/// What words give as the arguments of a command; `None` where they write no arguments, give an option twice or give
/// more than two names.
pub fn read_arguments(words: &[String]) -> Option<Arguments<'_>>
    ensures { option_map given_seen result ≡ reading Next.Argument nothing_given (texts words.now) }
{
    let mut next = Next::Argument;
    let mut arguments = Arguments {
        names: Names::Nothing,
        steps: None,
        journal: None,
        flat: false,
    };
    for word in words {
        match arguments.with_word(next, word.as_str()) {
            Some((following, more)) => {
                next = following;
                arguments = more;
            }
            None => return None,
        }
    }
    match next {
        Next::Value(_) => None,
        Next::Argument | Next::Name => Some(arguments),
    }
}

impl<'a> Arguments<'a> {
    /// These arguments with one more word, and what the word after it is read as.
    fn with_word(self, next: Next, word: &'a str) -> Option<(Next, Arguments<'a>)>
        ensures { option_map (λ p. (p.0, given_seen p.1)) result ≡ read next (given_seen self.entry) word.entry.now }
    {
        match next {
            Next::Argument => self.with_argument(word),
            Next::Value(setting) => {
                if is_plain(word) {
                    Some((Next::Argument, self.with_value(setting, word)?))
                } else {
                    None
                }
            }
            Next::Name => Some((Next::Name, self.with_name(word)?)),
        }
    }

    /// The same for a word that is an argument, or the first of an argument's two.
    fn with_argument(self, word: &'a str) -> Option<(Next, Arguments<'a>)>
        ensures { option_map (λ p. (p.0, given_seen p.1)) result ≡ read Next.Argument (given_seen self.entry) word.entry.now }
    {
        let more = match read_word(word)? {
            Word::Name => self.with_name(word)?,
            Word::Flat => self.with_flat()?,
            Word::Set(setting, value) => self.with_value(setting, value)?,
            Word::End => return Some((Next::Name, self)),
            Word::Setting(setting) => return Some((Next::Value(setting), self)),
        };
        Some((Next::Argument, more))
    }

    /// These arguments with one more name, if there are not two yet.
    fn with_name(self, name: &'a str) -> Option<Arguments<'a>>
        ensures { option_map given_seen result ≡ with_name (given_seen self.entry) name.entry.now }
    {
        let names = match self.names {
            Names::Nothing => Names::One(name),
            Names::One(first) => Names::Two(first, name),
            Names::Two(_, _) => return None,
        };
        Some(Arguments { names, ..self })
    }

    /// These arguments with the value of an option that has none yet.
    fn with_value(self, setting: Setting, value: &'a str) -> Option<Arguments<'a>>
        ensures { option_map given_seen result ≡ with_value setting (given_seen self.entry) value.entry.now }
    {
        match setting {
            Setting::Steps if self.steps.is_none() => Some(Arguments {
                steps: Some(value),
                ..self
            }),
            Setting::Journal if self.journal.is_none() => Some(Arguments {
                journal: Some(value),
                ..self
            }),
            Setting::Steps | Setting::Journal => None,
        }
    }

    /// These arguments with `--flat`, if it isn't given yet.
    fn with_flat(self) -> Option<Arguments<'a>>
        ensures { option_map given_seen result ≡ with_flat (given_seen self.entry) }
    {
        if self.flat {
            return None;
        }
        Some(Arguments { flat: true, ..self })
    }
}
