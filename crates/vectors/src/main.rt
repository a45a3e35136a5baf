// The long set of test vectors: reads the file in parts, replays it on the model, and prints what was counted.
#![tactic(auto)]

mod report;

ghost use Rattle.std.specs.Prelude.{true, ◌≡◌, IfOk};

use machine::State;
use replay::{Counts, Progress};
use std::fs::File;
use std::io::{ErrorKind, Read};
use std::rt::Files;
use std::{io, str};

// The bytes of a part, and the most parts that are read: a longer file is one without an end.
const PART: usize = 65536;

const MOST_PARTS: u32 = 1024;

// RAM of 8,192 bytes, ROM of 4,096 and a belt of 1,024. What is counted is printed and answered. A part that cannot be read counts as an
// empty one, which is the last. An error is that of a write.
fn replay_file(rt: &impl Print, file: &mut impl Read) -> io::Result<Counts>
    ensures { IfOk result (λ r. r.mismatches ≡ 0 → r.ended ≡ true) }
{
    let mut xrecord = [0u8; record_layout::LENGTH];
    let mut xram = [0u8; 8192];
    let mut xrom = [0u8; 4096];
    let mut xbelt = [0u8; 1024];
    let mut ram = [0u8; 8192];
    let mut rom = [0u8; 4096];
    let mut belt = [0u8; 1024];
    let mut opcodes = [0u32; 64];
    let mut exceptions = [0u32; 32];
    let mut progress = Progress {
        state: State::reset(),
        counts: Counts::zero(),
    };
    for _ in 0..MOST_PARTS {
        let mut buffer = [0u8; PART];
        let n = reading::read_full(file, &mut buffer).unwrap_or(0);
        progress = replay::part(
            progress,
            &mut xrecord,
            &mut xram,
            &mut xrom,
            &mut xbelt,
            &mut ram,
            &mut rom,
            &mut belt,
            &mut opcodes,
            &mut exceptions,
            &buffer[..n],
        );
        if n < PART {
            break;
        }
    }
    let total = replay::finish(progress.counts);
    report::print(rt, total, &opcodes, &exceptions)?;
    Ok(total)
}

// A path that is not UTF-8 text is one that cannot be opened.
fn open<R: Files>(rt: &R, path: &[u8]) -> io::Result<R::File> {
    match str::from_utf8(path) {
        Ok(text) => File::open(rt, text),
        Err(_) => Err(io::Error::from(ErrorKind::InvalidInput)),
    }
}

// A file that cannot be opened is one without an end. An error is that of a write.
pub fn run(rt: &(impl Files + Print), path: &[u8]) -> io::Result<Counts>
    ensures { IfOk result (λ r. r.mismatches ≡ 0 → r.ended ≡ true) }
{
    match open(rt, path) {
        Ok(mut file) => replay_file(rt, &mut file),
        Err(_) => {
            rt.write_all(b"the file cannot be opened\n")?;
            Ok(replay::finish(Counts::zero()))
        }
    }
}

fn main(rt: HostRuntime) -> io::Result<()> {
    run(&rt, b"vectors.bin")?;
    Ok(())
}
