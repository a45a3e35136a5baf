// One step of the machine, and its line put into a text.
#![tactic(auto)]

ghost use Rattle.std.specs.Prelude.{◌≡◌, ◌+◌, ◌≤◌, length};
ghost use Rattle.std.proofs.Math.Seq.{paste};
ghost use Rattle.machine.specs.Machine.{machine_of};
ghost use Rattle.step.specs.Step.{stepped, step_of};
ghost use Rattle.belt_step.specs.Line.{step_line};

use machine::State;
use run_loop::Stepped;

pub fn advance(
    state: State,
    ram: &mut [u8],
    rom: &[u8],
    belt: &mut [u8],
    step: u32,
    text: &mut [u8],
    at: usize,
) -> Stepped
    requires { at + 14 ≤ length text.old }
    ensures state { let told = step_of (machine_of state ram.old rom.now belt.old) 0 in
        stepped (machine_of result.state ram.new rom.now belt.new) result.eid result.slot told.event.opcode ≡ told }
    ensures text { text.new ≡ paste text.old at (step_line step (machine_of state ram.old rom.now belt.old)) 14 }
{
    let stepped = run_loop::step(state, ram, rom, belt, 0);
    let row = belt_text::line(step, stepped.state.processor.pc, stepped.eid);
    belt_text::put(text, at, &row);
    stepped
}
