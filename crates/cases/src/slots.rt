// Runs whose last step loads or stores, or does not: the slot that they answer (document 02, job 2).
use crate::outcomes::{Case, print_steps};
use machine::State;
use std::io;

// Programs of two words. R2 has the address, and R1 is loaded or stored.
const LDW_ADDI: u64 = 0xC041_0000_0463_0001;

const ADDI_LDW: u64 = 0x0463_0001_C041_0000;

const LDB: u64 = 0xCC41_0000_0000_0000;

const STW: u64 = 0xD441_0000_0000_0000;

const STB: u64 = 0xDC41_0000_0000_0000;

// General service begins at the second word.
const TRAP_LDW: u64 = 0xB800_0000_C041_0000;

const LDW_TRAP: u64 = 0xC041_0000_B800_0000;

// By an entry, by the lower of two, and direct-mapped; stores that ROM, belt and timer answer.
const SERVED: [(&str, u32, u64, u64); 10] = [
    (", load by entry 0", 0x2000, LDW_ADDI, 1),
    (", load by entry 31", 0x3000, LDW_ADDI, 1),
    (", load by entry 5 or 9", 0x1FFC, LDW_ADDI, 1),
    (", byte load by entry 5 or 9", 0x1FFF, LDB, 1),
    (", store by entry 5 or 9", 0x1000, STW, 1),
    (", direct-mapped load", 0xC000_0000, LDW_ADDI, 1),
    (", direct-mapped byte store", 0xC000_0FFF, STB, 1),
    (", store to ROM by entry 12", 0x5000, STW, 1),
    (", store to the belt by entry 13", 0x6000, STW, 1),
    (", store to the timer by entry 14", 0x7004, STW, 1),
];

const FAULTED: [(&str, u32, u64, u64); 6] = [
    (", load that times out", 0x8000, LDW_ADDI, 1),
    (", byte store to the belt", 0x6000, STB, 1),
    (", load without an entry", 0x9000, LDW_ADDI, 1),
    (", store by a read-only entry", 0x3000, STW, 1),
    (", load by an invalid entry", 0x4000, LDW_ADDI, 1),
    (", load at an odd address", 0x2001, LDW_ADDI, 1),
];

// The last step's alone. The last run is refused, and makes no step.
const LAST: [(&str, u32, u64, u64); 7] = [
    (", load", 0x2000, LDW_ADDI, 0),
    (", load, addition", 0x2000, LDW_ADDI, 2),
    (", addition, load", 0x2000, ADDI_LDW, 1),
    (", addition, load", 0x2000, ADDI_LDW, 2),
    (", trap, load", 0x2000, TRAP_LDW, 2),
    (", load, trap", 0x2000, LDW_TRAP, 2),
    (", load", 0x2000, LDW_ADDI, 1_000_001),
];

// Pages 1 to 8, of RAM but for 5 to 8: in entries 5 and 9, 0, 31 (read only), 30 (invalid), and of ROM, belt, timer and nothing.
fn machine(address: u32) -> State {
    let mut state = State::reset();
    let p = &mut state.processor;
    p.registers[2] = address;
    p.tlbhigh[5] = 0x1000;
    p.tlblow[5] = 3;
    p.tlbhigh[9] = 0x1000;
    p.tlblow[9] = 3;
    p.tlbhigh[0] = 0x2000;
    p.tlblow[0] = 3;
    p.tlbhigh[31] = 0x3000;
    p.tlblow[31] = 1;
    p.tlbhigh[30] = 0x4000;
    p.tlblow[30] = 2;
    p.tlbhigh[12] = 0x5000;
    p.tlblow[12] = 0x2000_0003;
    p.tlbhigh[13] = 0x6000;
    p.tlblow[13] = 0x3050_0003;
    p.tlbhigh[14] = 0x7000;
    p.tlblow[14] = 0x3000_0003;
    p.tlbhigh[15] = 0x8000;
    p.tlblow[15] = 0x4000_0003;
    state
}

pub fn print_slots(rt: &impl Print) -> io::Result<()> {
    for (more, address, program, wanted) in SERVED.into_iter().chain(FAULTED).chain(LAST) {
        let case = Case {
            state: machine(address),
            program,
            wanted,
            ..Case::regular()
        };
        print_steps(rt, more, case)?;
    }
    Ok(())
}
