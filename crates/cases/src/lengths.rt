// Runs of one step from the reset machine, in memory of each length.
use crate::outcomes::{Case, KINDS, print_outcome};
use std::io;

// The bytes of RAM, ROM and belt.
const LENGTHS: [(usize, usize, usize); 11] = [
    (0, 4096, 1024),
    (4096, 4096, 1024),
    (4097, 4096, 1024),
    (8192, 4096, 1024),
    (4096, 0, 1024),
    (4096, 4095, 1024),
    (4096, 4097, 1024),
    (4096, 8192, 1024),
    (4096, 4096, 0),
    (4096, 4096, 1023),
    (4096, 4096, 1025),
];

pub fn print_lengths(rt: &impl Print) -> io::Result<()> {
    for (kind, run) in KINDS {
        for (ram, rom, belt) in LENGTHS {
            let case = Case {
                ram,
                rom,
                belt,
                ..Case::regular()
            };
            print!(rt; "{run}, ram {ram} bytes, rom {rom} bytes, belt {belt} bytes")?;
            print_outcome(rt, case.run(kind, None))?;
        }
    }
    Ok(())
}
