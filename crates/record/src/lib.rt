// The machine record: read from and written to a byte slice (document 01, "What the host lends" and "Refused calls").
#![tactic(auto)]

ghost use Rattle.std.specs.Prelude.{◌≡◌};
ghost use Rattle.refusals.specs.Code.{answer_number};
ghost use Rattle.record.specs.Calls.{read_refusal, processor_read, timer_read, write_refusal, buffer_after};
ghost use Rattle.record.specs.Calls.{processor_unless, timer_unless, machine_refusal};
ghost use Rattle.record.specs.Code.{handed};

use machine::State;
use refusals::Refusal;

// The state of a record.
pub fn read(bytes: &[u8]) -> Result<State, Refusal>
    ensures refusal { answer_number result ≡ read_refusal bytes.now }
    ensures processor { (handed result).processor ≡ processor_read bytes.now }
    ensures timer { (handed result).timer ≡ timer_read bytes.now }
{
    if (bytes.len() != record_layout::OLD_LENGTH) & (bytes.len() != record_layout::LENGTH) {
        return Err(Refusal::RecordLength);
    }
    if !record_layout::kinds_in_place(bytes) {
        return Err(Refusal::KindByte);
    }
    let state = record_layout::get(bytes);
    if state.is_fit() {
        Ok(state)
    } else {
        Err(Refusal::Unfit)
    }
}

// The state of a record, and of a refused one the reset state (document 01, "Refused calls").
pub fn read_or_reset(bytes: &[u8]) -> State
    ensures processor { result.processor ≡ processor_read bytes.now }
    ensures timer { result.timer ≡ timer_read bytes.now }
{
    read(bytes).unwrap_or(State::reset())
}

// The state of a record of a machine's buffer, which a run writes again: it has room for the timer.
pub fn read_machine(bytes: &[u8]) -> Result<State, Refusal>
    ensures refusal { answer_number result ≡ machine_refusal bytes.now }
    ensures processor { (handed result).processor ≡ processor_unless (machine_refusal bytes.now) bytes.now }
    ensures timer { (handed result).timer ≡ timer_unless (machine_refusal bytes.now) bytes.now }
{
    if bytes.len() != record_layout::LENGTH {
        return Err(Refusal::RecordLength);
    }
    read(bytes)
}

// Writes the record of a state; where it is refused, the buffer stays as it was.
pub fn write(state: State, buffer: &mut [u8]) -> Result<(), Refusal>
    ensures refusal { answer_number result ≡ write_refusal state.processor state.timer buffer.old }
    ensures buffer { buffer.new ≡ buffer_after state.processor state.timer buffer.old }
{
    if buffer.len() != record_layout::LENGTH {
        return Err(Refusal::RecordLength);
    }
    if !state.is_fit() {
        return Err(Refusal::Unfit);
    }
    record_layout::put(state, buffer);
    Ok(())
}
