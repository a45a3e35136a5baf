// Exception entry and return (manual, 2.8).
ghost use Rattle.std.specs.Prelude.{◌≡◌};
ghost use Rattle.processor.specs.Exception.{entered, returned};

use crate::{Processor, entry};

impl Processor {
    // An exception is accepted, before the instruction at the PC completes.
    #[tactic(auto, unfolding(crate::specs::Exception::entered))]
    pub fn enter(&mut self, eid: u32, address: u32)
        ensures { self.new ≡ entered self.old eid address }
    {
        self.registers[30] = self.pc;
        self.pc = entry::service_address(self.psw, eid, address);
        self.psw = status::push(self.psw, eid);
        self.entryhigh = entry::entry_high(eid, address, self.entryhigh);
        self.badaddress = entry::bad_address(eid, address, self.badaddress);
    }

    // RFX.
    #[tactic(auto, unfolding(crate::specs::Exception::returned))]
    pub fn leave(&mut self)
        ensures { self.new ≡ returned self.old }
    {
        self.pc = self.registers[30];
        self.psw = status::pop(self.psw);
    }
}
