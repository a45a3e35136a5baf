// A run of either kind, with the machine as its record.
#![tactic(auto)]

ghost use Rattle.std.specs.Prelude.{◌≡◌};
ghost use Rattle.memory.specs.Lent.{lent, left};
ghost use Rattle.charges.specs.Charges.{Uncharged};
ghost use Rattle.refusals.specs.Request.{request};
ghost use Rattle.refusals.specs.Code.{kind_of, asked};
ghost use Rattle.run_loop.specs.Run.{answer};
ghost use Rattle.run_loop.specs.Code.{answer_of};
ghost use Rattle.run_calls.specs.Runs.{called, call_of};
ghost use Rattle.run_calls.specs.Code.{called_as};

use processor::Processor;
use refusals::{Kind, Refusal, Request};
use run_loop::Ran;

// struct eco32_answer
#[repr(C)]
#[derive(Clone, Copy, Debug, PartialEq, Eq)]
pub struct Answer {
    pub refusal: u32,
    pub steps: u32,
    pub eid: u32,
    pub slot: u32,
}

// struct eco32_charged
#[repr(C)]
#[derive(Clone, Copy, Debug, PartialEq, Eq)]
pub struct Charged {
    pub refusal: u32,
    pub steps: u32,
    pub eid: u32,
    pub slot: u32,
    pub charge: u64,
}

// The numbers that C gets, of a refused run too.
impl From<Result<Ran, Refusal>> for Charged {
    ghost from_gives = { λ made c. answer c.refusal c.steps c.eid c.slot c.charge ≡ answer_of made };

    fn from(made: Result<Ran, Refusal>) -> Charged {
        match made {
            Ok(ran) => Charged {
                refusal: 0,
                steps: ran.steps,
                eid: ran.eid,
                slot: ran.slot,
                charge: ran.charge,
            },
            Err(refusal) => Charged {
                refusal: refusal.into(),
                steps: 0,
                eid: Processor::NO_EXCEPTION,
                slot: tlb::NO_SLOT,
                charge: 0,
            },
        }
    }
}

// The same without the charge.
impl From<Charged> for Answer {
    ghost from_gives = { λ c a. answer a.refusal a.steps a.eid a.slot c.charge ≡ answer c.refusal c.steps c.eid c.slot c.charge };

    fn from(charged: Charged) -> Answer {
        Answer {
            refusal: charged.refusal,
            steps: charged.steps,
            eid: charged.eid,
            slot: charged.slot,
        }
    }
}

// A run of either kind: causes 1, 2 and 3, then 4, 5 and 6 of the record, then 7, and 9 where it is charged. RAM, ROM and belt are parameters as of
// `run_loop::advance`.
#[tactic(auto, using(crate::proofs::CallLaws::lengths_refused, crate::proofs::CallLaws::record_refused, crate::proofs::CallLaws::request_refused))]
pub fn call(
    machine: &mut [u8],
    ram: &mut [u8],
    rom: &[u8],
    belt: &mut [u8],
    request: Request,
) -> Result<Ran, Refusal>
    ensures { called_as machine.new (left ram.new rom.now belt.new) result ≡ call_of (asked request.entry) machine.old (lent ram.old rom.now belt.old) }
{
    refusals::of_lengths(ram.len(), rom.len(), belt.len())?;
    let state = record::read_machine(&machine[..])?;
    refusals::of_request(request)?;
    let ran = run_loop::advance(state, ram, rom, belt, request);
    record_layout::put(ran.state, machine);
    Ok(ran)
}

// A run without charges. It has no request, so that the compiler sees that none of its callers has a list (docs/SPEED.md).
pub fn uncharged(
    machine: &mut [u8],
    ram: &mut [u8],
    rom: &[u8],
    belt: &mut [u8],
    kind: Kind,
    wanted: u64,
    lines: u16,
) -> Answer
    ensures { called machine.new (left ram.new rom.now belt.new) result.refusal result.steps result.eid result.slot 0
        ≡ call_of (request (kind_of kind) wanted lines Uncharged) machine.old (lent ram.old rom.now belt.old) }
{
    let asked = Request {
        kind,
        wanted,
        lines: lines as u32,
        charges: None,
    };
    Charged::from(call(machine, ram, rom, belt, asked)).into()
}
