// What a replay counts.
ghost use Rattle.std.specs.Prelude.{◌≡◌};
ghost use Rattle.replay.specs.Tally.{raised, raised_at, at_zero, case_begun, step_made, end_read, failed, judged};

use crate::Counts;

#[tactic(auto, unfolding(crate::specs::Tally::raised))]
pub fn raise(n: u32) -> u32
    ensures { result ≡ raised n }
{
    n.saturating_add(1)
}

// By the index: with get_mut the proof did not close.
#[tactic(auto, unfolding(crate::specs::Tally::raised_at))]
pub fn raise_at(counts: &mut [u32], i: u32)
    ensures { counts.new ≡ raised_at counts.old i }
{
    let at = i as usize;
    if at < counts.len() {
        counts[at] = raise(counts[at]);
    }
}

impl Counts {
    #[tactic(auto, unfolding(crate::specs::Tally::at_zero))]
    pub fn zero() -> Self
        ensures { result ≡ at_zero }
    {
        Self::default()
    }

    #[tactic(auto, unfolding(crate::specs::Tally::case_begun))]
    pub fn begin_case(&mut self)
        ensures { self.new ≡ case_begun self.old }
    {
        self.cases = raise(self.cases);
        self.turn = 0;
    }

    #[tactic(auto, unfolding(crate::specs::Tally::step_made))]
    pub fn make_step(&mut self)
        ensures { self.new ≡ step_made self.old }
    {
        self.steps = raise(self.steps);
        self.turn = raise(self.turn);
    }

    #[tactic(auto, unfolding(crate::specs::Tally::end_read))]
    pub fn read_end(&mut self)
        ensures { self.new ≡ end_read self.old }
    {
        self.ended = true;
    }

    // A mismatch: of a step, or of a bad command.
    #[tactic(auto, unfolding(crate::specs::Tally::failed))]
    fn fail(&mut self, step: bool)
        ensures { self.new ≡ failed step self.old }
    {
        if self.mismatches == 0 {
            self.firstcase = self.cases;
            self.firststep = self.turn;
        }
        if !step {
            self.bad = raise(self.bad);
        }
        self.mismatches = raise(self.mismatches);
    }

    #[tactic(auto, unfolding(crate::specs::Tally::judged))]
    pub fn judge(&mut self, step: bool, good: bool)
        ensures { self.new ≡ judged step good self.old }
    {
        if !good {
            self.fail(step);
        }
    }
}
