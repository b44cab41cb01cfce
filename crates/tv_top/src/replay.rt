//! The judgement of a replay, and the line that it gives.

ghost use Rattle.std.specs.Prelude.{◌≡◌, ◌≤◌, IfOk, length, string_bytes};
ghost use Rattle.std.specs.Result.{result_map_both};
ghost use Rattle.tv_machine.specs.Valid.{IsValid};
ghost use Rattle.tv_runner.specs.Engines.{AreProbes};
ghost use Rattle.tv_top.specs.Refusals.{refused_by};
ghost use Rattle.tv_top.specs.Steps.{IsJudged};
ghost use Rattle.tv_top.specs.Texts.{legal_line};

use crate::refusal::Refusal;
use std::alloc::Global;
use tv_base::Memory;
use tv_journal::Journal;
use tv_machine::Machine;
use tv_model::{Replayed, replay};
use tv_runner::new_probes;

/// The line of a journal that is a legal run of a machine with an image.
#[tactic(auto, using(crate::proofs::Probes::probes_first))]
pub fn judge<'a>(
    alloc: Global,
    machine: &Machine,
    image: &[u8],
    journal: &Journal,
) -> Result<String, Refusal<'a>>
    requires valid { IsValid machine.now }
    requires probes { AreProbes machine.now.device }
    requires fits { length image.now ≤ machine.now.ram }
    ensures judged { IsJudged machine.now image.now journal.now (result_map_both string_bytes refused_by result) }
    ensures short { IfOk result (λ line. length (string_bytes line) ≤ 4096) }
{
    let devices = new_probes(alloc, machine)?;
    match replay(alloc, machine, &devices, image, journal)? {
        Replayed::Legal(status) => {
            let line = line_of_legal(alloc, journal.records(), journal.events(), status)?;
            Ok(line)
        }
        Replayed::Illegal(record) => Err(Refusal::Illegal(record)),
    }
}

/// The line of a legal run with so many records and events.
fn line_of_legal(
    alloc: Global,
    records: u32,
    events: u64,
    status: Option<u8>,
) -> Result<String, Memory>
    ensures { IfOk result (λ line. string_bytes line ≡ legal_line records events status) }
{
    let line = match status {
        Some(status) => {
            format!(in alloc; "legal: {records} records, {events} events, status {status}\n")
        }
        None => format!(in alloc; "legal: {records} records, {events} events, status open\n"),
    };
    match line {
        Ok(line) => Ok(line),
        Err(_) => Err(Memory),
    }
}
