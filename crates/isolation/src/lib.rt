// User Mode isolation of every list of runs: definitions and a theorem. The code here computes nothing. Its contracts say what the types of a
// machine say, as the theorem needs it.
#![tactic(auto)]

ghost use Rattle.std.specs.Prelude.{◌^◌, ◌<◌};
ghost use Rattle.machine.specs.Machine.{before, Words32, Bounded, Bytes, Representable};

use processor::{Processor, Words};
use timer::Timer;

fn numbers(a: u32, b: u32, c: u32, d: u32)
    ensures { (a < 2 ^ 32) × (b < 2 ^ 32) × (c < 2 ^ 32) × (d < 2 ^ 32) }
{}

fn elements(l: &[u32])
    ensures { Bounded (2 ^ 32) l.now }
{
    numbers(0, 0, 0, 0)
}

fn words(l: Words)
    ensures { Words32 l }
{
    elements(&l)
}

fn bytes(s: &[u8])
    ensures { Bytes s.now }
{
    numbers(0, 0, 0, 0)
}

// The theorem speaks of every machine of the code's types: whatever a call is handed is representable.
pub fn of_types(p: Processor, timer: Timer, ram: &[u8], rom: &[u8], belt: &[u8])
    ensures { Representable (before p timer ram.now rom.now belt.now) }
{
    let registers = p.registers;
    let tlbhigh = p.tlbhigh;
    let tlblow = p.tlblow;
    words(registers);
    words(tlbhigh);
    words(tlblow);
    numbers(p.pc, p.psw, p.index, p.entryhigh);
    numbers(p.entrylow, p.badaddress, p.replacement, 0);
    numbers(timer.divisor, timer.counter, timer.control, 0);
    bytes(ram);
    bytes(rom);
    bytes(belt)
}
