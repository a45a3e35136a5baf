// General-purpose and special registers (manual, 2.4 and 2.6).
ghost use Rattle.std.specs.Prelude.{◌≡◌};
ghost use Rattle.processor.specs.Register.{written, jumped, special_written};

use crate::Processor;

impl Processor {
    // A register written, and the PC after the instruction. Register 0 never changes.
    #[tactic(auto, unfolding(crate::specs::Register::written, crate::specs::Register::put))]
    pub fn write(&mut self, number: u32, value: u32, next: u32)
        ensures { self.new ≡ written self.old number value next }
    {
        let n = (number % 32) as usize;
        if n != 0 {
            self.registers[n] = value;
        }
        self.pc = next;
    }

    #[tactic(auto, unfolding(crate::specs::Register::jumped))]
    pub fn jump(&mut self, target: u32)
        ensures { self.new ≡ jumped self.old target }
    {
        self.pc = target;
    }

    // Only kept bits are stored, and nothing for a number above 4.
    #[tactic(auto, unfolding(crate::specs::Register::special_written))]
    pub fn write_special(&mut self, number: u32, value: u32)
        ensures { self.new ≡ special_written self.old number value }
    {
        match number {
            0 => self.psw = kept_bits::kept_psw(value),
            1 => self.index = kept_bits::kept_index(value),
            2 => self.entryhigh = kept_bits::kept_high(value),
            3 => self.entrylow = kept_bits::kept_low(value),
            4 => self.badaddress = value,
            _ => {}
        }
    }
}
