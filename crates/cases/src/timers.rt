// Runs with a timer: its ticks, and the interrupt of channel 14 where flag and enable are set.
use crate::outcomes::{COUNT, Case, KINDS, print_outcome};
use machine::State;
use processor::Processor;
use std::io;
use timer::Timer;

// J by -1: the PC stays.
const STAY: u64 = 0xABFF_FFFF_ABFF_FFFF;

// PSW words: I_C is 1, and the channel is enabled.
const CHANNEL_13: u32 = 0x0080_2000;

const CHANNEL_14: u32 = 0x0080_4000;

// From the reset machine with another PSW and a timer.
fn print_timer(
    rt: &impl Print,
    more: &str,
    psw: u32,
    timer: Timer,
    program: u64,
    wanted: u64,
) -> io::Result<()> {
    let Timer {
        divisor,
        counter,
        control,
    } = timer;
    let processor = Processor {
        psw,
        ..Processor::reset()
    };
    let case = Case {
        state: State { processor, timer },
        program,
        wanted,
        ..Case::regular()
    };
    for (kind, run) in KINDS {
        print!(rt;
            "{run}, {wanted} steps, divisor {divisor}, counter {counter}, control {control}{more}"
        )?;
        print_outcome(rt, case.run(kind, None))?;
    }
    Ok(())
}

// A flag that is set after a step interrupts at the next one. Then I_C is 0, and a plain run counts on, a step late.
pub fn print_timers(rt: &impl Print) -> io::Result<()> {
    let other = ", channel 13 enabled";
    let stay = ", J by -1";
    let cases = [
        ("", CHANNEL_14, COUNT, 99, 5, 5, 2),
        ("", CHANNEL_14, COUNT, 99, 5, 1, 2),
        ("", CHANNEL_14, COUNT, 99, 5, 0, 2),
        ("", CHANNEL_14, COUNT, 99, 0, 5, 2),
        ("", CHANNEL_14, COUNT, 99, 0, 0, 3),
        ("", CHANNEL_14, COUNT, 99, 5, 5, 0),
        ("", CHANNEL_14, COUNT, 99, 5, 5, 4),
        (other, CHANNEL_13, COUNT, 99, 5, 5, 2),
        (stay, CHANNEL_14, STAY, 1, 5, 5, 2),
        (stay, CHANNEL_14, STAY, 1, 0, 5, 2),
    ];
    for (more, psw, program, wanted, divisor, counter, control) in cases {
        let timer = Timer {
            divisor,
            counter,
            control,
        };
        print_timer(rt, more, psw, timer, program, wanted)?;
    }
    Ok(())
}
