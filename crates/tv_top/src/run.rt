//! A run on one thread, with its journal's file.

ghost use Rattle.std.specs.Prelude.{◌≡◌, ◌≤◌, Some, length};
ghost use Rattle.std.specs.Option.{option_map};
ghost use Rattle.std.specs.Result.{result_map_both};
ghost use Rattle.tv_machine.specs.Valid.{IsValid};
ghost use Rattle.tv_runner.specs.Runs.{cause_by};
ghost use Rattle.tv_runner.specs.Engines.{AreProbes};
ghost use Rattle.tv_top.specs.Refusals.{refused_by};
ghost use Rattle.tv_top.specs.Steps.{Runs, SavedBy};
ghost use Rattle.tv_top.specs.Texts.{run_status};

use crate::refusal::Refusal;
use std::alloc::Global;
use tv_base::Why;
use tv_journal::Journal;
use tv_machine::Machine;
use tv_model::exit_status;
use tv_out::Sink;
use tv_runner::{Ran, solo};
use tv_spec::Stop;

/// A run that began.
#[derive(Drop)]
pub struct Run {
    /// What it came to.
    pub ran: Ran,
    /// Its limit of events.
    pub steps: u32,
    /// Whether its journal went to the file that was asked for, if one was.
    pub saved: bool,
}

impl Run {
    /// The cause for which the run ended.
    pub fn cause(&self) -> Why
        ensures { result ≡ cause_by self.now.ran.stop }
    {
        match self.ran.stop {
            None => Why::DebugLost,
            Some(Stop::Ended(why)) => why,
            Some(Stop::Full) => Why::Full,
        }
    }

    /// The exit status of the run.
    pub fn status(&self) -> u8
        ensures { result ≡ run_status self.now }
    {
        if self.ran.lost || !self.saved {
            return 5;
        }
        exit_status(self.cause())
    }
}

/// Runs a machine whose devices are probes, with an image, and keeps its journal in a file if one was created for it.
pub fn run_saved<'a, K: Sink + Drop, O: Sink>(
    alloc: Global,
    machine: &Machine,
    image: &[u8],
    file: Option<K>,
    out: &mut O,
) -> Result<Run, Refusal<'a>>
    requires valid { IsValid machine.now }
    requires probes { AreProbes machine.now.device }
    requires fits { length image.now ≤ machine.now.ram }
    ensures { Runs machine.now image.now (option_map (K.told) file) (O.told out.old) (O.told out.new) (result_map_both Some refused_by result) }
{
    let ran = solo(alloc, machine, image, out)?;
    let saved = save(&ran.journal, file);
    Ok(Run {
        ran,
        steps: machine.steps,
        saved,
    })
}

/// Puts a journal to the file that was created for it, if one was. The answer is false where that failed.
fn save<K: Sink + Drop>(journal: &Journal, file: Option<K>) -> bool
    ensures { SavedBy (option_map (K.told) file) journal.now result }
{
    let Some(mut file) = file else {
        return true;
    };
    journal.write_file(&mut file).is_ok()
}
