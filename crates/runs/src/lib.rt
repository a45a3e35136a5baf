// The run of a state, of either kind (document 01, "Runs and views"), with a list of charges or without (document 02, job 3).
#![tactic(auto)]

ghost use Rattle.std.specs.Prelude.{◌≡◌};
ghost use Rattle.machine.specs.Machine.{machine_of};
ghost use Rattle.refusals.specs.Code.{asked};
ghost use Rattle.run_loop.specs.Run.{outcome, run_of};
ghost use Rattle.runs.specs.Code.{outcome_as};

use machine::State;
use processor::Processor;
use refusals::{Refusal, Request};
use run_loop::Ran;

// A plain run makes exactly the wanted steps; one to exception ends after the first step that accepts an exception, or after the wanted steps. A
// refused run leaves the memory as it was. RAM, ROM and belt are parameters as of `run_loop::advance`.
#[tactic(auto, using(crate::proofs::Refused::coded_run_refused, crate::proofs::Refused::coded_run_accepted))]
pub fn run(
    state: State,
    ram: &mut [u8],
    rom: &[u8],
    belt: &mut [u8],
    request: Request,
) -> Result<Ran, Refusal>
    ensures { outcome_as state ram.new rom.now belt.new result ≡ run_of (asked request.entry) (machine_of state ram.old rom.now belt.old) }
{
    refusals::of_run(state, ram.len(), rom.len(), belt.len(), request)?;
    Ok(run_loop::advance(state, ram, rom, belt, request))
}

// What a run answers as numbers, and the state after it. A refused run answers its number, no step, EID 32, slot 33 and charge 0.
#[derive(Clone, Copy, Debug, PartialEq, Eq)]
pub struct Answered {
    pub state: State,
    pub refusal: u32,
    pub steps: u32,
    pub eid: u32,
    pub slot: u32,
    pub charge: u64,
}

// The same run, and of a refused one the state that was given (document 01, "Refused calls").
pub fn run_or_given(
    state: State,
    ram: &mut [u8],
    rom: &[u8],
    belt: &mut [u8],
    request: Request,
) -> Answered
    ensures { outcome (machine_of result.state ram.new rom.now belt.new) result.refusal result.steps result.eid result.slot result.charge
        ≡ run_of (asked request.entry) (machine_of state ram.old rom.now belt.old) }
{
    match run(state, ram, rom, belt, request) {
        Ok(ran) => Answered {
            state: ran.state,
            refusal: 0,
            steps: ran.steps,
            eid: ran.eid,
            slot: ran.slot,
            charge: ran.charge,
        },
        Err(refusal) => Answered {
            state,
            refusal: refusal.into(),
            steps: 0,
            eid: Processor::NO_EXCEPTION,
            slot: tlb::NO_SLOT,
            charge: 0,
        },
    }
}
