// The model's machine: started, stepped, and its steps counted.
ghost use Rattle.std.specs.Prelude.{true, false, ◌≡◌, eqb};
ghost use Rattle.memory.specs.Lent.{lent};
ghost use Rattle.machine.specs.Machine.{machine_of};
ghost use Rattle.record.specs.Calls.{read_refusal};
ghost use Rattle.expected.specs.Expected.{started_in};
ghost use Rattle.expected.specs.Code.{expected_of};
ghost use Rattle.replay.specs.Agreement.{machine_after, step_agrees};
ghost use Rattle.replay.specs.Tally.{step_made, judged};
ghost use Rattle.replay.specs.Tallies.{opcode_at, tallies, tallied, step_tallied};

use crate::{Progress, tally};
use access::Surroundings;
use expected::Expectation;
use machine::State;
use processor::Processor;

// The model's machine becomes the expected one; where its record is refused, the reset machine.
pub fn start(
    progress: &mut Progress,
    ram: &mut [u8],
    rom: &mut [u8],
    belt: &mut [u8],
    expectation: Expectation,
)
    ensures state { machine_of progress.new.state ram.new rom.new belt.new ≡ started_in (lent ram.old rom.old belt.old) (expected_of expectation.entry) }
    ensures counts { progress.new.counts ≡ judged false (eqb (read_refusal expectation.entry.record.now) 0) progress.old.counts }
{
    byte_slices::copy(ram, expectation.ram);
    byte_slices::copy(rom, expectation.rom);
    byte_slices::copy(belt, expectation.belt);
    let reading = record::read(expectation.record);
    progress.state = record::read_or_reset(expectation.record);
    progress.counts.judge(false, reading.is_ok());
}

// The opcode of the word at the PC, or 64.
#[tactic(auto, unfolding(crate::specs::Tallies::opcode_at, look::specs::Look::opcode_read, memory::specs::Access::access_width))]
fn opcode_at(state: State, ram: &[u8], rom: &[u8], belt: &[u8]) -> u32
    ensures { result ≡ opcode_at (machine_of state ram.now rom.now belt.now) }
{
    let surroundings = Surroundings {
        psw: state.processor.psw,
        highs: &state.processor.tlbhigh,
        lows: &state.processor.tlblow,
        timer: state.timer,
        ram,
        rom,
        belt,
    };
    match surroundings.read::<4>(state.processor.pc) {
        Ok(fetched) => fetched.value / 0x400_0000,
        Err(_) => 64,
    }
}

// A step that completed by its opcode, another by its exception.
#[tactic(auto, unfolding(crate::specs::Tallies::tallied))]
fn count_step(opcodes: &mut [u32], exceptions: &mut [u32], opcode: u32, eid: u32)
    ensures { tallies opcodes.new exceptions.new ≡ tallied (tallies opcodes.old exceptions.old) opcode eid }
{
    if eid == Processor::NO_EXCEPTION {
        tally::raise_at(opcodes, opcode);
    } else {
        tally::raise_at(exceptions, eid);
    }
}

// A step counted, and compared with the expected machine.
pub fn step(
    progress: &mut Progress,
    ram: &mut [u8],
    rom: &[u8],
    belt: &mut [u8],
    lines: u32,
    opcodes: &mut [u32],
    exceptions: &mut [u32],
    expectation: Expectation,
    wanted: u32,
)
    ensures state { machine_of progress.new.state ram.new rom.now belt.new ≡ machine_after (machine_of progress.old.state ram.old rom.now belt.old) lines }
    ensures counts { progress.new.counts ≡ judged true
        (step_agrees (expected_of expectation.entry) wanted (machine_of progress.old.state ram.old rom.now belt.old) lines)
        (step_made progress.old.counts) }
    ensures tallies { tallies opcodes.new exceptions.new
        ≡ step_tallied (tallies opcodes.old exceptions.old) (machine_of progress.old.state ram.old rom.now belt.old) lines }
{
    let opcode = opcode_at(progress.state, ram, rom, belt);
    let stepped = run_loop::step(progress.state, ram, rom, belt, lines);
    let next = stepped.state;
    count_step(opcodes, exceptions, opcode, stepped.eid);
    let agrees = expectation.agrees(next, ram, rom, belt, stepped.eid, stepped.slot, wanted);
    progress.state = next;
    progress.counts.make_step();
    progress.counts.judge(true, agrees);
}
