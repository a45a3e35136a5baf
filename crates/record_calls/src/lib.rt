// Calls with the machine as its record: reset, the copy that reading and writing are, and the page view.
#![tactic(auto)]

ghost use Rattle.std.specs.Prelude.{◌≡◌};
ghost use Rattle.refusals.specs.Code.{answer_number};
ghost use Rattle.record_calls.specs.Records.{reset_refusal, reset_buffer, copy_refusal, copy_buffer};
ghost use Rattle.page_view.specs.View.{viewed};
ghost use Rattle.page_view.specs.Code.{viewed_as};
ghost use Rattle.record_calls.specs.Views.{call_view_of};

use machine::State;
use page_view::{Frame, View};
use refusals::Refusal;

fn put_reset(machine: &mut [u8]) -> Result<(), Refusal>
    ensures refusal { answer_number result ≡ reset_refusal machine.old }
    ensures buffer { machine.new ≡ reset_buffer machine.old }
{
    if machine.len() != record_layout::LENGTH {
        return Err(Refusal::RecordLength);
    }
    record_layout::put(State::reset(), machine);
    Ok(())
}

// The machine at reset.
pub fn reset(machine: &mut [u8]) -> u32
    ensures refusal { result ≡ reset_refusal machine.old }
    ensures buffer { machine.new ≡ reset_buffer machine.old }
{
    refusals::number(put_reset(machine))
}

fn put_copy(from: &[u8], buffer: &mut [u8]) -> Result<(), Refusal>
    ensures refusal { answer_number result ≡ copy_refusal from.now buffer.old }
    ensures buffer { buffer.new ≡ copy_buffer from.now buffer.old }
{
    if buffer.len() != record_layout::LENGTH {
        return Err(Refusal::RecordLength);
    }
    let state = record::read(from)?;
    record_layout::put(state, buffer);
    Ok(())
}

// The record of the machine that a record holds.
pub fn copy(from: &[u8], buffer: &mut [u8]) -> u32
    ensures refusal { result ≡ copy_refusal from.now buffer.old }
    ensures buffer { buffer.new ≡ copy_buffer from.now buffer.old }
{
    refusals::number(put_copy(from, buffer))
}

fn locate(ram: &[u8], machine: &[u8], page: u64) -> Result<Frame, Refusal>
    ensures { viewed_as result ≡ call_view_of ram.now machine.now page }
{
    if !refusals::ram_accepted(ram.len()) {
        return Err(Refusal::RamLength);
    }
    let state = record::read(machine)?;
    page_view::locate(ram, state.processor, page)
}

pub fn page_view(ram: &[u8], machine: &[u8], page: u64) -> View
    ensures { viewed result.refusal result.slot result.offset result.length ≡ call_view_of ram.now machine.now page }
{
    locate(ram, machine, page).into()
}
