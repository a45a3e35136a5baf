// The board's timer (manual, chapter 5, section 4; document 02, job 1). One step of the machine is one tick.
// `write` and `tick` change the timer in place; the other methods take it by value.
#![tactic(auto)]

ghost use Rattle.std.specs.Prelude.{◌≡◌};
ghost use Rattle.timer.specs.Timer.{timer_at_reset, raised, timer_fit, register_read, register_written, ticked, lines_with};

// Bit 0 of control is the wrap-around flag, bit 1 the interrupt enable.
#[derive(Clone, Copy, Debug, PartialEq, Eq)]
pub struct Timer {
    pub divisor: u32,
    pub counter: u32,
    pub control: u32,
}

impl Timer {
    // The offset of the control register; the divisor register is the other one that answers.
    pub const CONTROL: u32 = 0;

    pub const DIVISOR: u32 = 4;

    // Channel 14 in a word of interrupt lines.
    pub const LINE: u32 = 0x4000;

    #[tactic(auto, unfolding(crate::specs::Timer::timer_at_reset))]
    pub fn reset() -> Self
        ensures { result ≡ timer_at_reset }
    {
        Self {
            divisor: 0,
            counter: 0,
            control: 0,
        }
    }

    #[tactic(auto, unfolding(crate::specs::Timer::timer_fit))]
    pub fn is_fit(self) -> bool
        ensures { result ≡ timer_fit self }
    {
        self.control <= 3
    }

    // The word of the register at an offset.
    #[tactic(auto, unfolding(crate::specs::Timer::register_read))]
    pub fn read(self, at: u32) -> u32
        ensures { result ≡ register_read self at }
    {
        match at {
            Self::CONTROL => self.control,
            _ => self.divisor,
        }
    }

    // A word to the register at an offset.
    #[tactic(auto, unfolding(crate::specs::Timer::register_written))]
    pub fn write(&mut self, at: u32, value: u32)
        ensures { self.new ≡ register_written self.old at value }
    {
        if at == Self::CONTROL {
            self.control = value % 4;
        } else {
            self.divisor = value;
            self.counter = value;
        }
    }

    // With divisor 0 nothing moves.
    #[tactic(auto, unfolding(crate::specs::Timer::ticked))]
    pub fn tick(&mut self)
        ensures { self.new ≡ ticked self.old }
    {
        if self.divisor == 0 {
            return;
        }
        if self.counter <= 1 {
            self.counter = self.divisor;
            self.control = self.control / 2 * 2 + 1;
        } else {
            self.counter -= 1;
        }
    }

    // Whether flag and enable are set.
    #[tactic(auto, unfolding(crate::specs::Timer::raised))]
    pub fn raised(self) -> bool
        ensures { result ≡ raised self }
    {
        (self.control % 2 == 1) & (self.control / 2 % 2 == 1)
    }

    // The host's interrupt lines with the timer's.
    #[tactic(auto, unfolding(crate::specs::Timer::lines_with))]
    pub fn lines(self, lines: u32) -> u32
        ensures { result ≡ lines_with self lines }
    {
        if self.raised() {
            lines | Self::LINE
        } else {
            lines
        }
    }
}
