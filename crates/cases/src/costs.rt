// Charged runs: what they cost, and which lists of charges are refused (document 02, job 3).
use crate::outcomes::{COUNT, Case, KINDS};
use machines::Outcome;
use runs::Answered;
use std::io;

// TRAP, and ADDI R1,R1,1 at general service; then the ROM's zeros, ADD R0,R0,R0.
const TRAP_ADDI: u64 = 0xB800_0000_0421_0001;

// From the reset machine.
fn steps_of(program: u64, wanted: u64) -> Case {
    Case {
        program,
        wanted,
        ..Case::regular()
    }
}

fn print_outcome(rt: &impl Print, outcome: Outcome) -> io::Result<()> {
    let Answered {
        refusal,
        steps,
        eid,
        charge,
        ..
    } = outcome.answered;
    let state = if outcome.unchanged {
        "unchanged"
    } else {
        "changed"
    };
    println!(rt; ": refusal {refusal}, {steps} steps, EID {eid}, charge {charge}, {state}")
}

// Both kinds, each after the name of the case.
fn print_both(rt: &impl Print, more: &str, case: Case, charges: &[u8]) -> io::Result<()> {
    for (kind, run) in KINDS {
        print!(rt; "charged {run}, {} steps{more}", case.wanted)?;
        print_outcome(rt, case.run(kind, Some(charges)))?;
    }
    Ok(())
}

// Entries that no two share: ADD 3, ADDI 500, J 2000, an exception 258.
fn print_sums(rt: &impl Print) -> io::Result<()> {
    let mut list = [0u8; 130];
    list[1] = 3;
    list[2] = 1;
    list[3] = 0xF4;
    list[84] = 7;
    list[85] = 0xD0;
    list[128] = 1;
    list[129] = 2;
    for wanted in [0, 1, 5] {
        print_both(rt, " of ADDI and J", steps_of(COUNT, wanted), &list)?;
    }
    for wanted in [1, 4] {
        print_both(
            rt,
            " of TRAP, ADDI and ADD",
            steps_of(TRAP_ADDI, wanted),
            &list,
        )?;
    }
    Ok(())
}

fn print_extremes(rt: &impl Print) -> io::Result<()> {
    let most = [0xFFu8; 130];
    let none = [0u8; 130];
    let mut exceptions = none;
    exceptions[128] = 1;
    exceptions[129] = 2;
    print_both(rt, " at 65535", steps_of(COUNT, 1_000_000), &most)?;
    print_both(rt, " at 0", steps_of(COUNT, 1_000_000), &none)?;
    print_both(rt, ", entry 64 alone", steps_of(COUNT, 1000), &exceptions)?;
    print_both(
        rt,
        ", entry 64 alone, a trap",
        steps_of(TRAP_ADDI, 1000),
        &exceptions,
    )
}

// Lists of n bytes. 9 after 7, and after all that is asked of the machine.
fn print_refused(rt: &impl Print) -> io::Result<()> {
    let most = [0xFFu8; 131];
    let cases = [
        (0, 1),
        (129, 1),
        (130, 1),
        (131, 1),
        (131, 0),
        (131, 1_000_001),
        (130, 1_000_001),
    ];
    for (n, wanted) in cases {
        let case = steps_of(COUNT, wanted);
        for (kind, run) in KINDS {
            print!(rt; "charged {run}, {wanted} steps, {n} bytes of charges")?;
            print_outcome(rt, case.run(kind, Some(&most[..n.min(131)])))?;
        }
    }
    let case = Case {
        ram: 0,
        ..Case::regular()
    };
    print_both(rt, ", 131 bytes of charges, RAM 0 bytes", case, &most)
}

pub fn print_charges(rt: &impl Print) -> io::Result<()> {
    print_sums(rt)?;
    print_extremes(rt)?;
    print_refused(rt)
}
