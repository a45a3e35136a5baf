// Calls over states, and whether they left the machine and all memory as they were.
#![tactic(auto)]

ghost use Rattle.std.specs.Prelude.{◌≡◌};
ghost use Rattle.byte_slices.specs.Same.{same};
ghost use Rattle.timer.specs.Timer.{timer_at_reset};
ghost use Rattle.processor.specs.State.{at_reset};
ghost use Rattle.machine.specs.Machine.{machine_of};
ghost use Rattle.refusals.specs.Code.{answer_number, asked};
ghost use Rattle.run_loop.specs.Run.{answer, run_of};
ghost use Rattle.record.specs.Calls.{read_refusal, processor_read, timer_read, write_refusal, buffer_after};
ghost use Rattle.record.specs.Code.{handed};
ghost use Rattle.machines.specs.Unchanged.{same_state, same_machine};

use machine::State;
use refusals::{Refusal, Request};
use runs::Answered;

// What a run answers and the state after it, as numbers, and whether the machine is unchanged.
#[derive(Clone, Copy, Debug, PartialEq, Eq)]
pub struct Outcome {
    pub answered: Answered,
    pub unchanged: bool,
}

// What reading a record answers; whether the state is the given one, and whether it is that of reset, as after a refusal.
#[derive(Clone, Copy, Debug, PartialEq, Eq)]
pub struct Handed {
    pub answer: Result<State, Refusal>,
    pub given: bool,
    pub reset: bool,
}

// What writing a record answers, and whether the buffer is unchanged.
#[derive(Clone, Copy, Debug, PartialEq, Eq)]
pub struct Written {
    pub answer: Result<(), Refusal>,
    pub unchanged: bool,
}

// `==`, by the test of the definitions.
fn alike(a: State, b: State) -> bool
    ensures { result ≡ same_state a.processor a.timer b.processor b.timer }
{
    a == b
}

// A run. The copies are what RAM and belt are compared with after it; RAM, ROM and belt are parameters as of `run_loop::advance`.
pub fn run(
    state: State,
    ram: &mut [u8],
    rom: &[u8],
    belt: &mut [u8],
    request: Request,
    ramcopy: &[u8],
    beltcopy: &[u8],
) -> Outcome
    ensures answer { let answered = result.answered in
        answer answered.refusal answered.steps answered.eid answered.slot answered.charge
        ≡ (run_of (asked request.entry) (machine_of state ram.old rom.now belt.old)).answer }
    ensures machine { machine_of result.answered.state ram.new rom.now belt.new
        ≡ (run_of (asked request.entry) (machine_of state ram.old rom.now belt.old)).machine }
    ensures unchanged { result.unchanged
        ≡ same_machine state.processor state.timer ramcopy.now beltcopy.now
        (run_of (asked request.entry) (machine_of state ram.old rom.now belt.old)).machine }
{
    let answered = runs::run_or_given(state, ram, rom, belt, request);
    let memory = byte_slices::same(ramcopy, &ram[..]) & byte_slices::same(beltcopy, &belt[..]);
    Outcome {
        answered,
        unchanged: alike(state, answered.state) & memory,
    }
}

pub fn read(bytes: &[u8], state: State) -> Handed
    ensures answer { answer_number result.answer ≡ read_refusal bytes.now }
    ensures processor { (handed result.answer).processor ≡ processor_read bytes.now }
    ensures timer { (handed result.answer).timer ≡ timer_read bytes.now }
    ensures given { result.given ≡ same_state state.processor state.timer (processor_read bytes.now) (timer_read bytes.now) }
    ensures reset { result.reset ≡ same_state at_reset timer_at_reset (processor_read bytes.now) (timer_read bytes.now) }
{
    let answer = record::read(bytes);
    let held = record::read_or_reset(bytes);
    Handed {
        answer,
        given: alike(state, held),
        reset: alike(State::reset(), held),
    }
}

pub fn write(state: State, buffer: &mut [u8], copy: &[u8]) -> Written
    ensures answer { answer_number result.answer ≡ write_refusal state.processor state.timer buffer.old }
    ensures buffer { buffer.new ≡ buffer_after state.processor state.timer buffer.old }
    ensures unchanged { result.unchanged ≡ same copy.now buffer.new }
{
    let answer = record::write(state, buffer);
    Written {
        answer,
        unchanged: byte_slices::same(copy, &buffer[..]),
    }
}
