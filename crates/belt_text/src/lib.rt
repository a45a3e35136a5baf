// The line of a step, and a text in a buffer (document 01, "Cases", `beltrun`).
#![tactic(auto)]

ghost use Rattle.std.specs.Prelude.{cond, ◌≡◌, ◌%◌, ◌+◌, ◌≤◌, ltb, length};
ghost use Rattle.words.specs.Identifiers.{no_exception};
ghost use Rattle.belt_text.specs.Line.{hex_digit, decimal_digit, line_of};
ghost use Rattle.std.proofs.Math.Seq.{paste};
ghost use Rattle.belt_text.specs.Text.{short_input, placed, count_of};

use processor::Processor;

// A digit, eight digits and two, with blanks between and a line feed.
pub type Line = [u8; 14];

// The lowest hexadecimal digit of a word.
#[tactic(auto, unfolding(crate::specs::Line::hex_digit))]
fn hex_digit(w: u32) -> u8
    ensures { result ≡ hex_digit (w % 16) }
{
    let d = (w % 16) as u8;
    if d < 10 { b'0' + d } else { b'A' + (d - 10) }
}

#[tactic(auto, unfolding(crate::specs::Line::decimal_digit))]
fn decimal_digit(n: u32) -> u8
    ensures { result ≡ decimal_digit n }
{
    b'0' + (n % 10) as u8
}

// A digit of an EID, or a dash where there is none.
fn eid_digit(eid: u32, n: u32) -> u8
    ensures { result ≡ cond (ltb eid no_exception) (decimal_digit n) 45 }
{
    if eid < Processor::NO_EXCEPTION {
        decimal_digit(n)
    } else {
        b'-'
    }
}

// Digit by digit, since there is no heap, and a formatter answers an error that cannot come here.
pub fn line(step: u32, pc: u32, eid: u32) -> Line
    ensures { result ≡ line_of step pc eid }
{
    [
        decimal_digit(step),
        b' ',
        hex_digit(pc / 0x1000_0000),
        hex_digit(pc / 0x100_0000),
        hex_digit(pc / 0x10_0000),
        hex_digit(pc / 0x1_0000),
        hex_digit(pc / 0x1000),
        hex_digit(pc / 0x100),
        hex_digit(pc / 0x10),
        hex_digit(pc),
        b' ',
        eid_digit(eid, eid / 10),
        eid_digit(eid, eid),
        b'\n',
    ]
}

pub fn put(text: &mut [u8], at: usize, bytes: &[u8])
    requires { at + length bytes.now ≤ length text.old }
    ensures { text.new ≡ paste text.old at bytes.now (length bytes.now) }
{
    text[at..at + bytes.len()].copy_from_slice(bytes);
}

pub fn short_input(text: &mut [u8]) -> usize
    ensures count { result ≡ count_of short_input text.old }
    ensures text { text.new ≡ placed short_input text.old }
{
    if text.len() < 12 {
        return 0;
    }
    put(text, 0, b"short input\n");
    12
}
