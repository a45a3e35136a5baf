// Records of each length read, with bytes that are refused, and the order of the checks.
use crate::records;
use machine::State;
use std::io;
use timer::Timer;

// The kind bytes of the processor's items, and bytes of its numbers, in a record of either length.
const PROCESSOR_BYTES: [(usize, u8); 17] = [
    (0, 2),
    (129, 3),
    (134, 2),
    (155, 5),
    (412, 4),
    (4, 1),
    (413, 3),
    (413, 4),
    (413, 31),
    (413, 32),
    (135, 0x10),
    (142, 0x20),
    (145, 8),
    (150, 4),
    (159, 1),
    (163, 4),
    (151, 0xFF),
];

// The timer's: its kind byte, the first bytes of divisor and counter, and control.
const TIMER_BYTES: [(usize, u8); 7] = [
    (414, 5),
    (415, 0xFF),
    (419, 0xFF),
    (423, 0),
    (423, 3),
    (423, 4),
    (423, 255),
];

// The first n bytes of the sample's record read, with bytes replaced.
fn print_read(rt: &impl Print, n: usize, replaced: &[(usize, u8)]) -> io::Result<()> {
    let sample = records::sample();
    let bytes = records::record_with(sample, replaced);
    let bytes = &bytes[..n.min(426)];
    let handed = machines::read(bytes, sample);
    let old = machines::read(
        bytes,
        State {
            timer: Timer::reset(),
            ..sample
        },
    );
    let machine = if handed.given {
        "the machine written"
    } else if old.given {
        "the machine written, its timer at reset"
    } else if handed.reset {
        "the reset machine"
    } else {
        "another machine"
    };
    print!(rt; "read of {n} bytes")?;
    for (at, value) in replaced {
        print!(rt; ", byte {at} is {value}")?;
    }
    let refusal = refusals::number(handed.answer.map(|_| ()));
    println!(rt; ": refusal {refusal}, {machine}")
}

pub fn print_reads(rt: &impl Print) -> io::Result<()> {
    for n in [0, 413, 414, 415, 423, 424, 425] {
        print_read(rt, n, &[])?;
    }
    for n in [414, 424] {
        for byte in PROCESSOR_BYTES {
            print_read(rt, n, &[byte])?;
        }
    }
    for byte in TIMER_BYTES {
        print_read(rt, 424, &[byte])?;
    }
    print_read(rt, 413, &[(0, 2), (4, 1)])?;
    print_read(rt, 414, &[(0, 2), (4, 1)])?;
    print_read(rt, 423, &[(414, 5), (413, 3)])?;
    print_read(rt, 424, &[(414, 5), (423, 4)])
}
