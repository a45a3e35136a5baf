// The text of four steps from reset, a line for each, and the answer to an input that may be short.
#![tactic(auto)]

ghost use Rattle.std.specs.Prelude.{◌≡◌};
ghost use Rattle.belt_text.specs.Text.{placed, count_of};
ghost use Rattle.belt_trace.specs.Trace.{belt_text, answer_of};

use machine::State;

// Writes the text of four steps and answers its length, 56; or 0 where the buffer is shorter. A buffer and a length, since there is no heap.
pub fn trace(rom: &[u8], text: &mut [u8]) -> usize
    ensures count { result ≡ count_of (belt_text rom.now) text.old }
    ensures text { text.new ≡ placed (belt_text rom.now) text.old }
{
    if text.len() < 56 {
        return 0;
    }
    let mut ram = [0u8; 4096];
    let mut belt = [0u8; 1024];
    let mut state = State::reset();
    for line in 0..4 {
        let at = line as usize * 14;
        state = belt_step::advance(state, &mut ram, rom, &mut belt, line + 1, text, at).state;
    }
    56
}

// Writes what is printed for an input and answers its length; or 0 where the buffer is shorter.
pub fn answer(input: &[u8], text: &mut [u8]) -> usize
    ensures count { result ≡ count_of (answer_of input.now) text.old }
    ensures text { text.new ≡ placed (answer_of input.now) text.old }
{
    if input.len() < 4096 {
        return belt_text::short_input(text);
    }
    trace(&input[..4096], text)
}
