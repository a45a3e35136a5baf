// Runs of one step from machines that are fit, or not.
use crate::outcomes::{Case, print_runs};
use crate::records;
use std::io;

// A byte of the reset machine's record that is replaced, and its value. Byte 4 ends register 0; 407 ends the high word, and 410 is in the low
// word, of the last entry of the TLB. Divisor and counter of the timer begin at bytes 415 and 419, and 423 is its control.
const MACHINES: [(&str, usize, u8); 16] = [
    ("register 0 not 0", 4, 1),
    ("replacement index 3", 413, 3),
    ("replacement index 4", 413, 4),
    ("replacement index 31", 413, 31),
    ("replacement index 32", 413, 32),
    ("PSW bit 28 set", 135, 0x10),
    ("TLB Index bit 5 set", 142, 0x20),
    ("Entry High bit 11 set", 145, 8),
    ("Entry Low bit 2 set", 150, 4),
    ("TLB high word bit 0 set", 407, 1),
    ("TLB low word bit 11 set", 410, 8),
    ("timer divisor FF000000", 415, 0xFF),
    ("timer counter FF000000", 419, 0xFF),
    ("timer control 3", 423, 3),
    ("timer control 4", 423, 4),
    ("timer control 255", 423, 255),
];

// The regular case with a byte of the machine's record replaced.
fn case_with(at: usize, value: u8) -> Case {
    let case = Case::regular();
    let bytes = records::record_with(case.state, &[(at, value)]);
    Case {
        state: record_layout::get(&bytes[..424]),
        ..case
    }
}

pub fn print_machines(rt: &impl Print) -> io::Result<()> {
    for (name, at, value) in MACHINES {
        print_runs(rt, name, case_with(at, value))?;
    }
    Ok(())
}
