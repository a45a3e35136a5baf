// A machine that is not the reset machine, and its record with bytes replaced.
ghost use Rattle.std.specs.Prelude.{◌≡◌, length};

use machine::State;
use processor::Processor;
use timer::Timer;

pub fn sample() -> State {
    let mut processor = Processor {
        pc: 0xC000_0010,
        psw: 0x0C80_4000,
        replacement: 17,
        ..Processor::reset()
    };
    processor.registers[1] = 7;
    let timer = Timer {
        divisor: 5,
        counter: 3,
        control: 2,
    };
    State { processor, timer }
}

// A place that there is not is left out.
fn replace(bytes: &mut [u8], replaced: &[(usize, u8)]) {
    for (at, value) in replaced {
        if let Some(byte) = bytes.get_mut(*at) {
            *byte = *value;
        }
    }
}

// A machine's record and two bytes more, with bytes replaced, each given by its place and its value.
pub fn record_with(state: State, replaced: &[(usize, u8)]) -> [u8; 426]
    ensures { 426 ≡ length result }
{
    let mut bytes = [0u8; 426];
    let _ = record::write(state, &mut bytes[..424]);
    replace(&mut bytes, replaced);
    bytes
}
