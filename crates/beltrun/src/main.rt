// Reads a ROM of 4,096 bytes, makes four steps from reset and prints a line for each (document 01, "Cases").
#![tactic(auto)]

ghost use Rattle.std.specs.Prelude.{cond, ◌≡◌, ltb, IfOk};

use std::io;

// The bytes that were read, none where reading fails, and those of the answer to them.
#[derive(Clone, Copy)]
pub struct Passed {
    pub read: usize,
    pub written: usize,
}

// Reads at most 4,096 bytes, with no buffer that reads ahead, and writes the answer to them: the line for short input, or four lines. Input that
// cannot be read counts as short. An error is that of the write.
pub fn run(rt: &HostRuntime) -> io::Result<Passed>
    ensures { IfOk result (λ r. r.written ≡ cond (ltb r.read 4096) 12 56) }
{
    let mut input = [0u8; 4096];
    let n = reading::read_full(&mut rt.stdin(), &mut input).unwrap_or(0);
    let mut text = [0u8; 56];
    let count = belt_trace::answer(&input[..n], &mut text);
    rt.write_all(&text[..count])?;
    Ok(Passed {
        read: n,
        written: count,
    })
}

fn main(rt: HostRuntime) -> io::Result<()> {
    run(&rt)?;
    Ok(())
}
