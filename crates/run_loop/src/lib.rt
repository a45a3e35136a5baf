// The steps of a run, once it is accepted (document 01, "Runs and views").
#![tactic(auto)]

mod turn;

ghost use Rattle.std.specs.Prelude.{◌≡◌, ◌<◌, ◌^◌};
ghost use Rattle.machine.specs.Machine.{machine_of};
ghost use Rattle.step.specs.Step.{stepped, step_of};
ghost use Rattle.charges.specs.Code.{IsWhole};
ghost use Rattle.refusals.specs.Code.{kind_of, asked};
ghost use Rattle.run_loop.specs.Run.{outcome, ends, begun, run_from};

use machine::State;
use processor::Processor;
use refusals::{Kind, Request};
use turn::Progress;

// The state after a run; the steps made, the exception that ended it, or 32, the slot of the last step, or 33, and the charge of all steps. They
// are numbers, as C gets them.
#[derive(Clone, Copy, Debug, PartialEq, Eq)]
pub struct Ran {
    pub state: State,
    pub steps: u32,
    pub eid: u32,
    pub slot: u32,
    pub charge: u64,
}

// Whether a step that tells this exception, or 32, is the last of a run of this kind.
#[tactic(auto, unfolding(crate::specs::Run::ends))]
fn ends(kind: Kind, eid: u32) -> bool
    ensures { result ≡ ends (kind_of kind) eid }
{
    kind == Kind::ToException && eid < Processor::NO_EXCEPTION
}

// An accepted run. RAM and belt are parameters of their own: a struct of the two `&mut` would need a clause on each reference.
pub fn advance(state: State, ram: &mut [u8], rom: &[u8], belt: &mut [u8], request: Request) -> Ran
    requires { IsWhole request.charges × (request.wanted < 2 ^ 32) }
    ensures { outcome (machine_of result.state ram.new rom.now belt.new) 0 result.steps result.eid result.slot result.charge
        ≡ run_from (asked request.entry) (asked request.entry).wanted (begun (machine_of state ram.old rom.now belt.old) 0) }
{
    let wanted = request.wanted as u32;
    let mut progress = Progress::begin(state);
    let mut eid = Processor::NO_EXCEPTION;
    let mut slot = tlb::NO_SLOT;
    let mut charge: u64 = 0;
    // The count is the progress's own, which gives the replacement index: a `for` would keep a second one.
    while progress.made < wanted {
        let event = progress.turn(ram, rom, belt, request.lines);
        charge = charges::added(charge, request.charges, event.opcode);
        slot = event.slot;
        if ends(request.kind, event.eid) {
            eid = event.eid;
            break;
        }
    }
    Ran {
        state: progress.finish(),
        steps: progress.made,
        eid,
        slot,
        charge,
    }
}

// The state after a step, the exception that it accepted, or 32, and the slot of its data access, or 33.
#[derive(Clone, Copy, Debug, PartialEq, Eq)]
pub struct Stepped {
    pub state: State,
    pub eid: u32,
    pub slot: u32,
}

pub fn step(state: State, ram: &mut [u8], rom: &[u8], belt: &mut [u8], lines: u32) -> Stepped
    ensures { let told = step_of (machine_of state ram.old rom.now belt.old) lines in
        stepped (machine_of result.state ram.new rom.now belt.new) result.eid result.slot told.event.opcode ≡ told }
{
    let mut progress = Progress::begin(state);
    let event = progress.turn(ram, rom, belt, lines);
    let state = progress.finish();
    Stepped {
        state,
        eid: event.eid,
        slot: event.slot,
    }
}
