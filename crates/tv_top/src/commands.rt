//! What each command does with its machine.

ghost use Rattle.std.specs.Prelude.{◌≡◌, ◌<◌, ◌≤◌, None, Some, length};
ghost use Rattle.std.specs.Option.{option_map};
ghost use Rattle.std.specs.Result.{result_map_both};
ghost use Rattle.tv_machine.specs.Valid.{IsValid};
ghost use Rattle.tv_runner.specs.Engines.{AreProbes};
ghost use Rattle.tv_top.specs.Commands.{Does, DoesReplay, DoesSolo, image_name as name_of_image};
ghost use Rattle.tv_top.specs.Refusals.{refused_by};
ghost use Rattle.tv_top.specs.Stages.{sides};
ghost use Rattle.tv_top.specs.Steps.{Puts};
ghost use Rattle.tv_words.specs.CommandLine.{asked_by, machine_by};

use crate::PlainOutside;
use crate::files::{create_file, load_image, load_journal};
use crate::refusal::Refusal;
use crate::replay::judge;
use crate::run::{Run, run_saved};
use std::alloc::Global;
use tv_base::PIECE_BYTES;
use tv_machine::Machine;
use tv_out::{Entropy, Sink, Store};
use tv_words::{Command, Origin};

impl<S: Store, O: Sink, E: Sink, R: Entropy> PlainOutside<S, O, E, R> {
    /// Carries out a command with its machine. A run that began is answered.
    pub fn carry_out<'a>(
        &mut self,
        alloc: Global,
        command: Command<'a>,
        machine: &'a Machine,
    ) -> Result<Option<Run>, Refusal<'a>>
        requires valid { IsValid machine.now }
        requires probes { AreProbes machine.now.device }
        ensures does { Does (asked_by command.entry) machine.now (sides (S.told self.old.store) (O.told self.old.out)) (sides (S.told self.new.store) (O.told self.new.out))
            (result_map_both (λ run. run) refused_by result) }
        ensures err { E.told self.new.err ≡ E.told self.old.err }
        ensures random { R.told self.new.random ≡ R.told self.old.random }
    {
        match command {
            Command::Solo { origin, journal } => {
                let image = image_name(origin, machine);
                Ok(Some(self.run_machine(alloc, machine, image, journal)?))
            }
            Command::Replay { origin, journal } => {
                let image = image_name(origin, machine);
                self.replay_journal(alloc, machine, image, journal)?;
                Ok(None)
            }
            Command::Check { .. } => {
                put(&mut self.out, b"ok\n")?;
                Ok(None)
            }
        }
    }

    /// Runs a machine with the image in a file, and keeps its journal in a file if one is named.
    fn run_machine<'a>(
        &mut self,
        alloc: Global,
        machine: &Machine,
        image: &'a str,
        journal: Option<&'a str>,
    ) -> Result<Run, Refusal<'a>>
        requires valid { IsValid machine.now }
        requires probes { AreProbes machine.now.device }
        ensures does { DoesSolo machine.now image.now (option_map (λ file. file.now) journal.entry) (sides (S.told self.old.store) (O.told self.old.out)) (sides (S.told self.new.store) (O.told self.new.out))
            (result_map_both Some refused_by result) }
        ensures err { E.told self.new.err ≡ E.told self.old.err }
        ensures random { R.told self.new.random ≡ R.told self.old.random }
    {
        let image = load_image(alloc, image, machine.ram, &mut self.store)?;
        let file = create_file(journal, &mut self.store)?;
        run_saved(alloc, machine, &image, file, &mut self.out)
    }

    /// Replays the journal in a file on a machine with the image in a file, and puts a line where it is a legal run.
    fn replay_journal<'a>(
        &mut self,
        alloc: Global,
        machine: &Machine,
        image: &'a str,
        journal: &'a str,
    ) -> Result<(), Refusal<'a>>
        requires valid { IsValid machine.now }
        requires probes { AreProbes machine.now.device }
        ensures does { DoesReplay machine.now image.now journal.now (sides (S.told self.old.store) (O.told self.old.out)) (sides (S.told self.new.store) (O.told self.new.out))
            (result_map_both (λ _. None) refused_by result) }
        ensures err { E.told self.new.err ≡ E.told self.old.err }
        ensures random { R.told self.new.random ≡ R.told self.old.random }
    {
        let loaded = load_image(alloc, image, machine.ram, &mut self.store)?;
        let journal = load_journal(alloc, journal, &mut self.store)?;
        let line = judge(alloc, machine, &loaded, &journal)?;
        put(&mut self.out, line.as_bytes())
    }
}

/// The name of a machine's image.
fn image_name<'a>(origin: Origin<'a>, machine: &'a Machine) -> &'a str
    ensures { result.now ≡ name_of_image (machine_by origin.entry) machine.now }
{
    match origin {
        Origin::Flat { image, .. } => image,
        Origin::File { .. } => machine.image.as_str(),
    }
}

/// Puts a text.
fn put<'a, O: Sink>(out: &mut O, text: &[u8]) -> Result<(), Refusal<'a>>
    requires some { 0 < length text.now }
    requires few { length text.now ≤ PIECE_BYTES }
    ensures { Puts text.now (O.told out.old) (O.told out.new) (result_map_both (λ _. None) refused_by result) }
{
    out.put(text)?;
    Ok(())
}
