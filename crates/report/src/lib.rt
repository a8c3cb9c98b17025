// Charts and outcomes as text, for the programs.
#![tactic(auto)]

ghost use Rattle.std.specs.Prelude.{◌≡◌, ◌++◌, OnOk};
ghost use Rattle.std.specs.List.{flat_map};
ghost use Rattle.recorder.specs.Lines.{line_of, outcome_of};

use faults::Fault;
use recorder::lines::{outcome_text, stretch_text};
use recorder::stretch::{Sample, Stretch};
use std::alloc::AllocError;

// Adds the lines of stretches, in their order.
pub fn add_lines<S: Sample>(out: &mut Vec<u8>, stretches: &[Stretch<S>]) -> Result<(), AllocError>
    ensures { OnOk result (out.new.items ≡ out.old.items ++ flat_map (line_of S.script) stretches.now) }
{
    for stretch in stretches {
        out.extend_from_slice(stretch_text(stretch).as_slice())?;
    }
    Ok(())
}

// Adds the line of an outcome.
pub fn add_outcome(out: &mut Vec<u8>, ticks: u64, fault: Option<Fault>) -> Result<(), AllocError>
    ensures { OnOk result (out.new.items ≡ out.old.items ++ outcome_of ticks fault) }
{
    out.extend_from_slice(outcome_text(ticks, fault).as_slice())
}
