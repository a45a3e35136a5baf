// Runs by the steps wanted, and the order of the checks of a run.
use crate::outcomes::{self, COUNT, Case, print_runs};
use machine::State;
use std::io;

// Programs of two words.
const TRAPS: u64 = 0xB800_0000_B800_0000;

const ADDS: u64 = 0;

// From the reset machine.
pub fn print_steps(rt: &impl Print) -> io::Result<()> {
    let cases = [
        ("", COUNT, 0),
        ("", COUNT, 1),
        ("", COUNT, 1_000_000),
        ("", COUNT, 1_000_001),
        ("", COUNT, u64::MAX),
        (", TRAP at once", TRAPS, 1_000_000),
        (", 1024 ADDs and the end of the ROM", ADDS, 1_000_000),
    ];
    for (more, program, wanted) in cases {
        let case = Case {
            program,
            wanted,
            ..Case::regular()
        };
        outcomes::print_steps(rt, more, case)?;
    }
    Ok(())
}

// 1,000,001 steps from a machine that is not fit, and of the reset machine.
pub fn print_order(rt: &impl Print) -> io::Result<()> {
    let mut unfit = State::reset();
    unfit.processor.replacement = 3;
    let most = Case {
        wanted: 1_000_001,
        ..Case::regular()
    };
    let causes = [
        ("causes 1, 2, 3, 6 and 7", 0, 0, 0),
        ("causes 2, 3, 6 and 7", 4096, 0, 0),
        ("causes 3, 6 and 7", 4096, 4096, 0),
        ("causes 6 and 7", 4096, 4096, 1024),
    ];
    for (name, ram, rom, belt) in causes {
        let case = Case {
            state: unfit,
            ram,
            rom,
            belt,
            ..most
        };
        print_runs(rt, name, case)?;
    }
    print_runs(rt, "cause 7", most)
}
