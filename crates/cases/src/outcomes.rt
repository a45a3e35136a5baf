// A run from a machine in memory of given lengths, and what came of it.
use machine::State;
use machines::Outcome;
use refusals::{Kind, Request};
use runs::Answered;
use std::io;

// What RAM and belt hold before each run, and the buffer of a record before it is written.
pub const FILL: u8 = 0x5A;

// A program of two words, ADDI R1,R1,1 and J by -2: R1 counts the turns.
pub const COUNT: u64 = 0x0421_0001_ABFF_FFFE;

// The kinds of a run and their names.
pub const KINDS: [(Kind, &str); 2] = [
    (Kind::Plain, "plain run"),
    (Kind::ToException, "run to exception"),
];

// The machine, two words at the start of the ROM, the bytes of RAM, ROM and belt, of at most 8,192, 8,192 and 2,048, and the steps wanted.
#[derive(Clone, Copy)]
pub struct Case {
    pub state: State,
    pub program: u64,
    pub ram: usize,
    pub rom: usize,
    pub belt: usize,
    pub wanted: u64,
}

impl Case {
    // A step of COUNT from the reset machine, in one page of RAM and of ROM.
    pub fn regular() -> Self {
        Self {
            state: State::reset(),
            program: COUNT,
            ram: 4096,
            rom: 4096,
            belt: 1024,
            wanted: 1,
        }
    }

    pub fn run(self, kind: Kind, charges: Option<&[u8]>) -> Outcome {
        let filled = [FILL; 8192];
        let mut ram = [FILL; 8192];
        let mut belt = [FILL; 2048];
        let mut rom = [0u8; 8192];
        rom[..8].copy_from_slice(&self.program.to_be_bytes());
        let ram = &mut ram[..self.ram.min(8192)];
        let rom = &rom[..self.rom.min(8192)];
        let belt = &mut belt[..self.belt.min(2048)];
        let ramcopy = &filled[..ram.len()];
        let beltcopy = &filled[..belt.len()];
        let request = Request {
            kind,
            wanted: self.wanted,
            lines: 0,
            charges,
        };
        machines::run(self.state, ram, rom, belt, request, ramcopy, beltcopy)
    }
}

// The rest of a case's line, after its name.
pub fn print_outcome(rt: &impl Print, outcome: Outcome) -> io::Result<()> {
    let Answered {
        state,
        refusal,
        steps,
        eid,
        slot,
        ..
    } = outcome.answered;
    let register = state.processor.registers[1];
    print!(rt; ": refusal {refusal}, {steps} steps, EID {eid}, slot {slot}")?;
    if outcome.unchanged {
        println!(rt; ", unchanged")
    } else {
        println!(rt; ", changed, R1 {register}")
    }
}

// Both kinds of a run, each after the name of the case.
pub fn print_runs(rt: &impl Print, name: &str, case: Case) -> io::Result<()> {
    for (kind, run) in KINDS {
        print!(rt; "{run}, {name}")?;
        print_outcome(rt, case.run(kind, None))?;
    }
    Ok(())
}

// The same, where the name begins with the steps wanted.
pub fn print_steps(rt: &impl Print, more: &str, case: Case) -> io::Result<()> {
    for (kind, run) in KINDS {
        print!(rt; "{run}, {} steps{more}", case.wanted)?;
        print_outcome(rt, case.run(kind, None))?;
    }
    Ok(())
}
