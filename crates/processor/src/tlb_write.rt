// Writes to the TLB (manual, 2.9; 3.6.6 and 3.6.8).
ghost use Rattle.std.specs.Prelude.{◌≡◌};
ghost use Rattle.processor.specs.Tlb.{entry_written, indexed_written, random_written};

use crate::Processor;

impl Processor {
    // A TLB entry, from Entry High and Entry Low.
    #[tactic(auto, unfolding(crate::specs::Tlb::entry_written))]
    fn write_entry(&mut self, i: usize)
        ensures { self.new ≡ entry_written self.old i }
    {
        let n = i % 32;
        self.tlbhigh[n] = self.entryhigh;
        self.tlblow[n] = self.entrylow;
    }

    // TBWI.
    #[tactic(auto, unfolding(crate::specs::Tlb::indexed_written))]
    pub fn write_indexed(&mut self)
        ensures { self.new ≡ indexed_written self.old }
    {
        self.write_entry(self.index as usize);
    }

    // TBWR. The step moves the replacement index, and this does not.
    #[tactic(auto, unfolding(crate::specs::Tlb::random_written))]
    pub fn write_random(&mut self)
        ensures { self.new ≡ random_written self.old }
    {
        self.write_entry(self.replacement as usize);
    }
}
