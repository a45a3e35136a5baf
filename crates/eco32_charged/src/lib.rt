// The charged runs for C: numbers and byte slices, the machine as its record. include/eco32.h documents them. They are a crate of their own, so that
// the compiler makes one loop for them and another for the runs without charges (docs/SPEED.md).
#![tactic(auto)]

ghost use Rattle.std.specs.Prelude.{◌≡◌};
ghost use Rattle.memory.specs.Lent.{lent, left};
ghost use Rattle.charges.specs.Charges.{ChargedBy};
ghost use Rattle.refusals.specs.Request.{plain, to_exception, request};
ghost use Rattle.run_calls.specs.Runs.{called, call_of};

use refusals::{Kind, Request};
use run_calls::Charged;

#[unsafe(no_mangle)]
pub extern "C" fn eco32_run_charged(
    machine: &mut [u8],
    ram: &mut [u8],
    rom: &[u8],
    belt: &mut [u8],
    charges: &[u8],
    wanted: u64,
    lines: u16,
) -> Charged
    ensures { called machine.new (left ram.new rom.now belt.new) result.refusal result.steps result.eid result.slot result.charge
        ≡ call_of (request plain wanted lines (ChargedBy charges.now)) machine.old (lent ram.old rom.now belt.old) }
{
    let plain = Request {
        kind: Kind::Plain,
        wanted,
        lines: lines as u32,
        charges: Some(charges),
    };
    run_calls::call(machine, ram, rom, belt, plain).into()
}

#[unsafe(no_mangle)]
pub extern "C" fn eco32_run_to_exception_charged(
    machine: &mut [u8],
    ram: &mut [u8],
    rom: &[u8],
    belt: &mut [u8],
    charges: &[u8],
    wanted: u64,
    lines: u16,
) -> Charged
    ensures { called machine.new (left ram.new rom.now belt.new) result.refusal result.steps result.eid result.slot result.charge
        ≡ call_of (request to_exception wanted lines (ChargedBy charges.now)) machine.old (lent ram.old rom.now belt.old) }
{
    let to_exception = Request {
        kind: Kind::ToException,
        wanted,
        lines: lines as u32,
        charges: Some(charges),
    };
    run_calls::call(machine, ram, rom, belt, to_exception).into()
}
