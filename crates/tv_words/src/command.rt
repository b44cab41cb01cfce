//! The commands, and the words that ask for them.

ghost use Rattle.std.specs.Prelude.{◌≡◌, ℕ, List, ◌<◌, ◌^◌, codes, IfSome, IfNone, option_map};
ghost use Rattle.tv_words.specs.CommandLine.{Asked, Asks, HasSteps, IsCommandLine, IsLimit, IsMachineAlone, IsNumber, asked_by, machine_by, machine_of, texts};
ghost use Rattle.tv_words.specs.Reading.{given_seen};

use crate::arguments::{Arguments, Names, read_arguments};
use tv_base::{HART_EVENTS, HART_EVENTS_DEFAULT};

/// Digits of a number at most.
const MOST_DIGITS: usize = 20;

/// The machine that a command is given.
#[derive(Clone, Copy)]
pub enum Origin<'a> {
    /// The flat machine.
    Flat {
        /// The image's file name, which isn't empty.
        image: &'a str,
        /// Hart events at most, from 1 to [`HART_EVENTS`].
        steps: u32,
    },
    /// The machine of a machine file.
    File {
        /// The file's name, which isn't empty.
        name: &'a str,
    },
}

/// A command with what it is given.
#[derive(Clone, Copy)]
pub enum Command<'a> {
    /// `flat IMAGE [--steps N] [--journal FILE]` and `solo MACHINE [--journal FILE]` run a machine on one thread.
    Solo {
        /// The machine. A flat one has [`HART_EVENTS_DEFAULT`] events at most where the words don't say.
        origin: Origin<'a>,
        /// The file name that the journal goes to, which isn't empty.
        journal: Option<&'a str>,
    },
    /// `replay [--flat] MACHINE JOURNAL` replays a journal.
    Replay {
        /// The machine. A flat one has [`HART_EVENTS_DEFAULT`] events at most.
        origin: Origin<'a>,
        /// The journal's file name, which isn't empty.
        journal: &'a str,
    },
    /// `check MACHINE` looks for the faults of a machine file.
    Check {
        /// The file's name, which isn't empty.
        name: &'a str,
    },
}

impl<'a> Command<'a> {
    /// The machine that the command is given.
    pub fn origin(self) -> Origin<'a>
        ensures { machine_by result ≡ machine_of (asked_by self.entry) }
    {
        match self {
            Command::Solo { origin, .. } | Command::Replay { origin, .. } => origin,
            Command::Check { name } => Origin::File { name },
        }
    }
}

/// The command that the words after the program's name ask for; `None` where they are no command line.
pub fn command_of(words: &[String]) -> Option<Command<'_>>
    ensures found { IfSome result (λ command. IsCommandLine (texts words.now) (asked_by command)) }
    ensures none { IfNone result ((asked : Asked) → ¬ IsCommandLine (texts words.now) asked) }
    ensures steps { IfSome result (λ command. HasSteps (machine_of (asked_by command))) }
{
    let [name, rest @ ..] = words else {
        return None;
    };
    let arguments = read_arguments(rest)?;
    command_with(name.as_str(), arguments)
}

/// Words ask for one command at most.
pub fn words_ask_for_one_command()
    ensures { (words : List (List ℕ)) (one other : Asked) → IsCommandLine words one → IsCommandLine words other → one ≡ other }
{}

/// The command of this name with these arguments.
fn command_with<'a>(name: &str, arguments: Arguments<'a>) -> Option<Command<'a>>
    ensures found { IfSome result (λ command. Asks name.now (given_seen arguments.entry) (asked_by command)) }
    ensures none { IfNone result ((asked : Asked) → ¬ Asks name.now (given_seen arguments.entry) asked) }
{
    match name {
        "flat" => flat_command(arguments),
        "solo" => solo_command(arguments),
        "replay" => replay_command(arguments),
        "check" => check_command(arguments),
        _ => None,
    }
}

/// The command `flat`.
fn flat_command(arguments: Arguments<'_>) -> Option<Command<'_>>
    ensures found { IfSome result (λ command. Asks (codes "flat") (given_seen arguments.entry) (asked_by command)) }
    ensures none { IfNone result ((asked : Asked) → ¬ Asks (codes "flat") (given_seen arguments.entry) asked) }
{
    let Names::One(image) = arguments.names else {
        return None;
    };
    if image.is_empty() || arguments.flat {
        return None;
    }
    if let Some("") = arguments.journal {
        return None;
    }
    let steps = step_limit(arguments.steps)?;
    Some(Command::Solo {
        origin: Origin::Flat { image, steps },
        journal: arguments.journal,
    })
}

/// The command `solo`.
fn solo_command(arguments: Arguments<'_>) -> Option<Command<'_>>
    ensures found { IfSome result (λ command. Asks (codes "solo") (given_seen arguments.entry) (asked_by command)) }
    ensures none { IfNone result ((asked : Asked) → ¬ Asks (codes "solo") (given_seen arguments.entry) asked) }
{
    let name = machine_alone(arguments)?;
    if let Some("") = arguments.journal {
        return None;
    }
    Some(Command::Solo {
        origin: Origin::File { name },
        journal: arguments.journal,
    })
}

/// The command `replay`.
fn replay_command(arguments: Arguments<'_>) -> Option<Command<'_>>
    ensures found { IfSome result (λ command. Asks (codes "replay") (given_seen arguments.entry) (asked_by command)) }
    ensures none { IfNone result ((asked : Asked) → ¬ Asks (codes "replay") (given_seen arguments.entry) asked) }
{
    let Names::Two(machine, journal) = arguments.names else {
        return None;
    };
    if machine.is_empty() || journal.is_empty() {
        return None;
    }
    if arguments.steps.is_some() || arguments.journal.is_some() {
        return None;
    }
    let origin = if arguments.flat {
        Origin::Flat {
            image: machine,
            steps: HART_EVENTS_DEFAULT,
        }
    } else {
        Origin::File { name: machine }
    };
    Some(Command::Replay { origin, journal })
}

/// The command `check`.
fn check_command(arguments: Arguments<'_>) -> Option<Command<'_>>
    ensures found { IfSome result (λ command. Asks (codes "check") (given_seen arguments.entry) (asked_by command)) }
    ensures none { IfNone result ((asked : Asked) → ¬ Asks (codes "check") (given_seen arguments.entry) asked) }
{
    let name = machine_alone(arguments)?;
    if arguments.journal.is_some() {
        return None;
    }
    Some(Command::Check { name })
}

/// The name of the machine file where it is the only name, and no option but `--journal` is given.
fn machine_alone(arguments: Arguments<'_>) -> Option<&str>
    ensures found { IfSome result (λ name. IsMachineAlone (given_seen arguments.entry) name.now) }
    ensures none { IfNone result ((name : List ℕ) → ¬ IsMachineAlone (given_seen arguments.entry) name) }
{
    let Names::One(name) = arguments.names else {
        return None;
    };
    if name.is_empty() || arguments.flat || arguments.steps.is_some() {
        return None;
    }
    Some(name)
}

/// The step limit by the value of `--steps`, if it is given.
fn step_limit(given: Option<&str>) -> Option<u32>
    ensures found { IfSome result (λ steps. IsLimit (option_map (λ text. text.now) given.entry) steps) }
    ensures none { IfNone result ((steps : ℕ) → ¬ IsLimit (option_map (λ text. text.now) given.entry) steps) }
{
    let Some(text) = given else {
        return Some(HART_EVENTS_DEFAULT);
    };
    let steps = number(text)?;
    if !(1..=HART_EVENTS).contains(&steps) {
        return None;
    }
    Some(steps)
}

/// The number that decimal digits write, if it is below 2^32.
fn number(text: &str) -> Option<u32>
    ensures found { IfSome result (λ n. IsNumber text.now n) }
    ensures none { IfNone result ((n : ℕ) → n < 2 ^ 32 → ¬ IsNumber text.now n) }
{
    if text.len() > MOST_DIGITS || text.starts_with('+') {
        return None;
    }
    text.parse::<u32>().ok()
}
