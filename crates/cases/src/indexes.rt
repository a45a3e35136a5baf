// Runs from a replacement index: it moves once in every step made, and TBWR writes where it was before (document 02, job 4).
use crate::outcomes::{COUNT, Case, KINDS};
use machine::State;
use machines::Outcome;
use processor::Processor;
use runs::Answered;
use std::io;
use timer::Timer;

// Programs of two words. An exception at the first is served by the second.
const TRAPS: u64 = 0xB800_0000_B800_0000;

const TRAP_TBWR: u64 = 0xB800_0000_EC00_0000;

const TBWR_TBWR: u64 = 0xEC00_0000_EC00_0000;

const TBWR_TBWI: u64 = 0xEC00_0000_F400_0000;

const TBWI_TBWR: u64 = 0xF400_0000_EC00_0000;

const TBWI_TBWI: u64 = 0xF400_0000_F400_0000;

// Every step traps, or a trap before TBWR.
const EXCEPTIONS: [(&str, u64, u64); 4] = [
    (", TRAP at once", TRAPS, 1),
    (", TRAP at once", TRAPS, 2),
    (", TRAP at once", TRAPS, 1000),
    (", TRAP, TBWR", TRAP_TBWR, 2),
];

// TBWR takes the index of before its own step. TBWI neither takes it nor moves it further than any step does.
const WRITES: [(&str, u64, u64); 5] = [
    (", TBWR, TBWR", TBWR_TBWR, 1),
    (", TBWR, TBWR", TBWR_TBWR, 2),
    (", TBWR, TBWI", TBWR_TBWI, 2),
    (", TBWI, TBWR", TBWI_TBWR, 2),
    (", TBWI, TBWI", TBWI_TBWI, 2),
];

// The high word of each entry at reset.
const BLANK: u32 = 0xC000_0000;

fn print_outcome(rt: &impl Print, outcome: Outcome) -> io::Result<()> {
    let Answered {
        state,
        refusal,
        steps,
        eid,
        ..
    } = outcome.answered;
    let Processor {
        replacement,
        tlbhigh,
        ..
    } = state.processor;
    print!(rt; ": refusal {refusal}, {steps} steps, EID {eid}, replacement index {replacement}")?;
    for (i, high) in tlbhigh.iter().enumerate() {
        if *high != BLANK {
            print!(rt; ", entry {i} written")?;
        }
    }
    println!(rt)
}

// Both kinds of a run, each after the name of the case.
fn print_both(rt: &impl Print, more: &str, case: Case) -> io::Result<()> {
    let replacement = case.state.processor.replacement;
    for (kind, run) in KINDS {
        print!(rt;
            "{run}, {} steps from replacement index {replacement}{more}",
            case.wanted
        )?;
        print_outcome(rt, case.run(kind, None))?;
    }
    Ok(())
}

// At reset, with another replacement index. TBWI writes entry 9, and every entry that is written can be told.
fn steps_from(replacement: u32, program: u64, wanted: u64) -> Case {
    let processor = Processor {
        replacement,
        index: 9,
        entryhigh: 0x1000,
        ..Processor::reset()
    };
    Case {
        state: State {
            processor,
            ..State::reset()
        },
        program,
        wanted,
        ..Case::regular()
    }
}

// From 4 on the index goes round in 28. The last run is refused, and makes no step.
fn print_counts(rt: &impl Print, replacement: u32) -> io::Result<()> {
    for wanted in [0, 1, 2, 28, 29, 1000, 1_000_000, 1_000_001] {
        print_both(rt, "", steps_from(replacement, COUNT, wanted))?;
    }
    Ok(())
}

// And the timer's interrupt before TBWR.
fn print_exceptions(rt: &impl Print, replacement: u32) -> io::Result<()> {
    for (more, program, wanted) in EXCEPTIONS {
        print_both(rt, more, steps_from(replacement, program, wanted))?;
    }
    let mut case = steps_from(replacement, TRAP_TBWR, 2);
    case.state.processor.psw = 0x0080_4000;
    case.state.timer = Timer {
        divisor: 0,
        counter: 0,
        control: 3,
    };
    print_both(rt, ", interrupt, TBWR", case)
}

fn print_writes(rt: &impl Print, replacement: u32) -> io::Result<()> {
    for (more, program, wanted) in WRITES {
        print_both(rt, more, steps_from(replacement, program, wanted))?;
    }
    Ok(())
}

pub fn print_indexes(rt: &impl Print) -> io::Result<()> {
    for replacement in [4, 30, 31] {
        print_counts(rt, replacement)?;
    }
    for replacement in [4, 31] {
        print_exceptions(rt, replacement)?;
    }
    for replacement in [4, 30, 31] {
        print_writes(rt, replacement)?;
    }
    Ok(())
}
