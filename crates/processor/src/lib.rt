// The processor state, and what changes it: exception entry and return, register writes, the TLB.
// Each method changes the processor in place; its contract is one equation of the whole states before and after.
#![tactic(auto)]

ghost use Rattle.std.specs.Prelude.{◌≡◌};
ghost use Rattle.processor.specs.State.{at_reset};

mod entry;
mod exception;
mod register;
mod tlb_write;

// A register file, or the high or low words of the TLB.
pub type Words = [u32; 32];

// The first five items of the machine record. The special registers are psw to badaddress; TLB entry i is tlbhigh[i], tlblow[i].
#[derive(Clone, Copy, Debug, PartialEq, Eq)]
pub struct Processor {
    pub registers: Words,
    pub pc: u32,
    pub psw: u32,
    pub index: u32,
    pub entryhigh: u32,
    pub entrylow: u32,
    pub badaddress: u32,
    pub tlbhigh: Words,
    pub tlblow: Words,
    pub replacement: u32,
}

impl Processor {
    // Exception identifiers (manual, 2.7.4). 0 to 15 are the interrupt channels.
    pub const BUS_TIMEOUT: u32 = 16;

    pub const ILLEGAL_INSTRUCTION: u32 = 17;

    pub const PRIVILEGED_INSTRUCTION: u32 = 18;

    pub const DIVISION_BY_ZERO: u32 = 19;

    pub const TRAP: u32 = 20;

    pub const TLB_MISS: u32 = 21;

    pub const TLB_WRITE: u32 = 22;

    pub const TLB_INVALID: u32 = 23;

    pub const ILLEGAL_ADDRESS: u32 = 24;

    pub const PRIVILEGED_ADDRESS: u32 = 25;

    pub const NO_EXCEPTION: u32 = 32;

    // Service addresses (manual, 2.8.2): the base by V, and the offsets from it.
    pub const ROM_SERVICE: u32 = 0xE000_0000;

    pub const RAM_SERVICE: u32 = 0xC000_0000;

    pub const GENERAL_SERVICE: u32 = 4;

    pub const USER_MISS_SERVICE: u32 = 8;

    #[tactic(auto, unfolding(crate::specs::State::at_reset))]
    pub fn reset() -> Self
        ensures { result ≡ at_reset }
    {
        Self {
            registers: [0; 32],
            pc: Self::ROM_SERVICE,
            psw: 0,
            index: 0,
            entryhigh: 0,
            entrylow: 0,
            badaddress: 0,
            tlbhigh: [0xC000_0000; 32],
            tlblow: [0; 32],
            replacement: 4,
        }
    }
}
