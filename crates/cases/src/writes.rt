// The sample written to buffers of each length, and with a machine that is not fit.
use crate::{outcomes, records};
use std::io;

// To n bytes, with the replacement index and the timer's control given.
fn print_write(
    rt: &impl Print,
    name: &str,
    replacement: u32,
    control: u32,
    n: usize,
) -> io::Result<()> {
    let copy = [outcomes::FILL; 426];
    let mut buffer = copy;
    let mut state = records::sample();
    state.processor.replacement = replacement;
    state.timer.control = control;
    let buffer = &mut buffer[..n.min(426)];
    let copy = &copy[..buffer.len()];
    let written = machines::write(state, buffer, copy);
    let buffer_state = if written.unchanged {
        "unchanged"
    } else {
        "changed"
    };
    let refusal = refusals::number(written.answer);
    println!(rt; "{name} to {n} bytes: refusal {refusal}, the buffer {buffer_state}")
}

// A replacement index of 17 is fit and one of 3 is not; a control of 3 is fit and one of 4 is not.
pub fn print_writes(rt: &impl Print) -> io::Result<()> {
    for n in [0, 413, 414, 415, 423, 424, 425] {
        print_write(rt, "write", 17, 3, n)?;
    }
    for n in [414, 423, 424] {
        print_write(rt, "write with replacement index 3", 3, 3, n)?;
    }
    for n in [414, 423, 424] {
        print_write(rt, "write with timer control 4", 17, 4, n)?;
    }
    Ok(())
}
