//! The commands of tv, over what lies outside the program.
#![tactic(auto)]

mod commands;
mod files;
mod refusal;
mod replay;
mod report;
mod run;

ghost use Rattle.std.specs.Prelude.{◌≡◌, ℕ, IsSome, List, None};
ghost use Rattle.std.specs.Result.{result_map_both};
ghost use Rattle.tv_top.specs.Answers.{Answers, HasAnswer, ToldOutside, ended_by, ended_with, line_by, told_by};
ghost use Rattle.tv_top.specs.Refusals.{refused_by};
ghost use Rattle.tv_top.specs.Texts.{IsSaid};
ghost use Rattle.tv_words.specs.CommandLine.{HasSteps, asked_by, machine_of, texts};

use files::take_machine;
use refusal::Refusal;
use report::{say_bad_line, say_refusal, say_run};
use run::Run;
use std::alloc::Global;
use tv_base::Why;
use tv_journal::Journal;
use tv_out::{Entropy, Sink, Store};
use tv_words::{Command, command_of};

/// What lies outside the program when it runs on one thread.
#[derive(Drop)]
pub struct PlainOutside<S, O, E, R> {
    /// The files.
    pub store: S,
    /// The output.
    pub out: O,
    /// The error output.
    pub err: E,
    /// Random bytes.
    pub random: R,
}

/// How a command ended.
#[derive(Drop)]
pub struct Ended {
    /// The exit status.
    pub status: u8,
    /// The end of a run that no event made, with the number of entries before it.
    pub outer: Option<(u64, Why)>,
    /// The journal of a run that began.
    pub journal: Option<Journal>,
}

impl Ended {
    /// How a command ended that leaves no run.
    fn without_run(status: u8) -> Ended
        ensures { result ≡ ended_with status }
    {
        Ended {
            status,
            outer: None,
            journal: None,
        }
    }
}

/// Serves the words after the program's name.
pub fn plain<S: Store, O: Sink, E: Sink, R: Entropy>(
    alloc: Global,
    words: &[String],
    outside: &mut PlainOutside<S, O, E, R>,
) -> Ended
    ensures answer { Answers (texts words.now)
        (told_by (S.told outside.old.store) (O.told outside.old.out) (E.told outside.old.err) (R.told outside.old.random))
        (told_by (S.told outside.new.store) (O.told outside.new.out) (E.told outside.new.err) (R.told outside.new.random))
        result }
{
    match command_of(words) {
        Some(command) => outside.serve(alloc, command),
        None => {
            say_bad_line(&mut outside.err);
            Ended::without_run(2)
        }
    }
}

impl<S: Store, O: Sink, E: Sink, R: Entropy> PlainOutside<S, O, E, R> {
    /// Serves a command.
    fn serve(&mut self, alloc: Global, command: Command<'_>) -> Ended
        requires { HasSteps (machine_of (asked_by command)) }
        ensures answer { HasAnswer (asked_by command.entry)
            (told_by (S.told self.old.store) (O.told self.old.out) (E.told self.old.err) (R.told self.old.random))
            (told_by (S.told self.new.store) (O.told self.new.out) (E.told self.new.err) (R.told self.new.random))
            result }
        ensures random { R.told self.new.random ≡ R.told self.old.random }
    {
        match take_machine(alloc, command.origin(), &mut self.store) {
            Ok(machine) => {
                let answer = self.carry_out(alloc, command, &machine);
                end(&mut self.err, answer)
            }
            Err(refusal) => end(&mut self.err, Err(refusal)),
        }
    }
}

/// Says what a command came to, and ends it.
fn end<E: Sink>(err: &mut E, answer: Result<Option<Run>, Refusal<'_>>) -> Ended
    ensures ended { result ≡ ended_by (result_map_both (λ run. run) refused_by answer.entry) }
    ensures said { IsSaid (line_by (result_map_both (λ run. run) refused_by answer.entry)) (E.told err.old) (E.told err.new) }
{
    match answer {
        Ok(Some(run)) => {
            say_run(err, &run);
            Ended {
                status: run.status(),
                outer: run.ran.journal.outer(),
                journal: Some(run.ran.journal),
            }
        }
        Ok(None) => Ended::without_run(0),
        Err(refusal) => {
            say_refusal(err, &refusal);
            Ended::without_run(refusal.status())
        }
    }
}

/// A command that ends out of memory leaves no run, and it put nothing to the output.
pub fn out_of_memory_begins_no_run()
    ensures { (words : List (List ℕ)) (before after : ToldOutside) (ended : Ended) → Answers words before after ended → ended.status ≡ 9
        → (ended.journal ≡ None) × (after.out ≡ before.out) }
{}

/// A command that ends with 0 had no put to the output that failed, where the output tells beforehand which ones fail.
pub fn no_failed_put_ends_well()
    ensures { (words : List (List ℕ)) (before after : ToldOutside) (ended : Ended) → Answers words before after ended → ended.status ≡ 0
        → IsSome before.out.script → after.out.faults ≡ before.out.faults }
{}
