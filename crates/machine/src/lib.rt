// The state of a machine, and which states are fit (document 01, cause 6 of "Refused calls"). The machine itself is a definition alone: in the
// code its state goes by value, and the memory stays with the host.
#![tactic(auto)]

ghost use Rattle.std.specs.Prelude.{◌≡◌};
ghost use Rattle.std.specs.List.{list_all};
ghost use Rattle.words.specs.Logic.{both};
ghost use Rattle.kept_bits.specs.Kept.{kept_high, kept_low, only, only_from};
ghost use Rattle.kept_bits.specs.Code.{only_special};
ghost use Rattle.processor.specs.State.{at_reset, fit};
ghost use Rattle.timer.specs.Timer.{timer_at_reset};
ghost use Rattle.machine.specs.Machine.{state, fit_with};

use processor::{Processor, Words};
use timer::Timer;

// Whether PSW, TLB Index, Entry High and Entry Low have only bits that they keep.
fn only_special(psw: u32, index: u32, high: u32, low: u32) -> bool
    ensures { result ≡ only_special psw index high low }
{
    (kept_bits::kept_psw(psw) == psw)
        & (kept_bits::kept_index(index) == index)
        & (kept_bits::kept_high(high) == high)
        & (kept_bits::kept_low(low) == low)
}

// The same for the high words of a TLB, and for its low words.
fn only_highs(highs: &Words) -> bool
    ensures { result ≡ list_all (only kept_high) highs.now }
{
    highs
        .iter()
        .all(|high| kept_bits::kept_high(*high) == *high)
}

fn only_lows(lows: &Words) -> bool
    ensures { result ≡ list_all (only kept_low) lows.now }
{
    lows.iter().all(|low| kept_bits::kept_low(*low) == *low)
}

fn only_words(highs: &Words, lows: &Words) -> bool
    ensures { result ≡ both (only_from kept_high 32 highs.now 0) (only_from kept_low 32 lows.now 0) }
{
    only_highs(highs) & only_lows(lows)
}

pub fn is_fit(p: Processor) -> bool
    ensures { result ≡ fit p }
{
    (p.registers[0] == 0)
        & (4 <= p.replacement)
        & (p.replacement <= 31)
        & only_special(p.psw, p.index, p.entryhigh, p.entrylow)
        & only_words(&p.tlbhigh, &p.tlblow)
}

// What a step changes beside the memory.
#[derive(Clone, Copy, Debug, PartialEq, Eq)]
pub struct State {
    pub processor: Processor,
    pub timer: Timer,
}

impl State {
    pub fn reset() -> Self
        ensures { result ≡ state at_reset timer_at_reset }
    {
        Self {
            processor: Processor::reset(),
            timer: Timer::reset(),
        }
    }

    pub fn is_fit(self) -> bool
        ensures { result ≡ fit_with self.processor self.timer }
    {
        is_fit(self.processor) & self.timer.is_fit()
    }
}
