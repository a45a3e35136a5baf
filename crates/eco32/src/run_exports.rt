// The exported runs without charges.
ghost use Rattle.std.specs.Prelude.{◌≡◌};
ghost use Rattle.memory.specs.Lent.{lent, left};
ghost use Rattle.charges.specs.Charges.{Uncharged};
ghost use Rattle.refusals.specs.Request.{plain, to_exception, request};
ghost use Rattle.run_calls.specs.Runs.{called, call_of};

use refusals::Kind;
use run_calls::Answer;

#[unsafe(no_mangle)]
pub extern "C" fn eco32_run(
    machine: &mut [u8],
    ram: &mut [u8],
    rom: &[u8],
    belt: &mut [u8],
    wanted: u64,
    lines: u16,
) -> Answer
    ensures { called machine.new (left ram.new rom.now belt.new) result.refusal result.steps result.eid result.slot 0
        ≡ call_of (request plain wanted lines Uncharged) machine.old (lent ram.old rom.now belt.old) }
{
    run_calls::uncharged(machine, ram, rom, belt, Kind::Plain, wanted, lines)
}

#[unsafe(no_mangle)]
pub extern "C" fn eco32_run_to_exception(
    machine: &mut [u8],
    ram: &mut [u8],
    rom: &[u8],
    belt: &mut [u8],
    wanted: u64,
    lines: u16,
) -> Answer
    ensures { called machine.new (left ram.new rom.now belt.new) result.refusal result.steps result.eid result.slot 0
        ≡ call_of (request to_exception wanted lines Uncharged) machine.old (lent ram.old rom.now belt.old) }
{
    run_calls::uncharged(machine, ram, rom, belt, Kind::ToException, wanted, lines)
}
