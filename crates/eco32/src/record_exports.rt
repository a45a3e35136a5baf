// Calls on records: reset, read and write.
ghost use Rattle.std.specs.Prelude.{◌≡◌};
ghost use Rattle.record_calls.specs.Records.{reset_refusal, reset_buffer, copy_refusal, copy_buffer};

// The machine at reset.
#[unsafe(no_mangle)]
pub extern "C" fn eco32_reset(machine: &mut [u8]) -> u32
    ensures refusal { result ≡ reset_refusal machine.old }
    ensures buffer { machine.new ≡ reset_buffer machine.old }
{
    record_calls::reset(machine)
}

#[unsafe(no_mangle)]
pub extern "C" fn eco32_read_record(bytes: &[u8], machine: &mut [u8]) -> u32
    ensures refusal { result ≡ copy_refusal bytes.now machine.old }
    ensures buffer { machine.new ≡ copy_buffer bytes.now machine.old }
{
    record_calls::copy(bytes, machine)
}

#[unsafe(no_mangle)]
pub extern "C" fn eco32_write_record(machine: &[u8], bytes: &mut [u8]) -> u32
    ensures refusal { result ≡ copy_refusal machine.now bytes.old }
    ensures buffer { bytes.new ≡ copy_buffer machine.now bytes.old }
{
    record_calls::copy(machine, bytes)
}
