// What an instruction reads, and the action that it comes to. Nothing here changes the machine: an action is only named.
#![tactic(auto)]

ghost use Rattle.std.specs.Prelude.{◌≡◌};
ghost use Rattle.instructions.specs.Operands.{field_y, field_r, immediate_s, immediate_z, into_r, into_y, fault, illegal};
ghost use Rattle.instructions.specs.Code.{action_of, operands_of};

use processor::Processor;
use words::extension;

// The definition `action_of` says what each stands for.
#[derive(Clone, Copy, Debug, PartialEq, Eq)]
pub enum Coded {
    // A value for a register, the PC after the instruction, and the slot of a load, or that for none.
    Write {
        register: u32,
        value: u32,
        next: u32,
        slot: u32,
    },
    // A value for so many bytes at a physical address, and the slot; the PC goes on to the next instruction.
    Store {
        width: u32,
        address: u32,
        value: u32,
        slot: u32,
    },
    // The privileged instructions (manual, 3.6.2 to 3.6.8).
    Rfx,
    // A special register's number, and that of the register that takes its value.
    Mvfs {
        special: u32,
        register: u32,
    },
    // A special register's number, and the value for it.
    Mvts {
        special: u32,
        value: u32,
    },
    Tbs,
    Tbwr,
    Tbri,
    Tbwi,
    Exception {
        eid: u32,
        address: u32,
    },
}

impl Coded {
    // A fault that leaves no address.
    pub fn fault(eid: u32) -> Coded
        ensures { action_of result ≡ fault eid }
    {
        Coded::Exception { eid, address: 0 }
    }
}

// The values of the registers that bits 25..21 and 20..16 name, the instruction word, and the PC after the fetch.
#[derive(Clone, Copy, Debug, PartialEq, Eq)]
pub struct Operands {
    pub x: u32,
    pub y: u32,
    pub word: u32,
    pub next: u32,
}

impl Operands {
    // Bits 20..16.
    pub fn field_y(self) -> u32
        ensures { result ≡ field_y self.word }
    {
        self.word / 0x1_0000 % 32
    }

    // Bits 15..11.
    pub fn field_r(self) -> u32
        ensures { result ≡ field_r self.word }
    {
        self.word / 0x800 % 32
    }

    // Bits 15..0, the sign bit before them.
    pub fn immediate_s(self) -> u32
        ensures { result ≡ immediate_s (operands_of self) }
    {
        extension::sign_extend::<16>(self.word)
    }

    // Bits 15..0, zeros before them.
    pub fn immediate_z(self) -> u32
        ensures { result ≡ immediate_z (operands_of self) }
    {
        extension::zero_extend::<16>(self.word)
    }

    // A result into the register of bits 15..11; no data access.
    pub fn into_r(self, value: u32) -> Coded
        ensures { action_of result ≡ into_r (operands_of self) value }
    {
        Coded::Write {
            register: self.field_r(),
            value,
            next: self.next,
            slot: tlb::NO_SLOT,
        }
    }

    // Or into that of bits 20..16.
    pub fn into_y(self, value: u32) -> Coded
        ensures { action_of result ≡ into_y (operands_of self) value }
    {
        Coded::Write {
            register: self.field_y(),
            value,
            next: self.next,
            slot: tlb::NO_SLOT,
        }
    }

    // Of an opcode that no instruction has.
    pub fn illegal(self) -> Coded
        ensures { action_of result ≡ illegal (operands_of self) }
    {
        Coded::fault(Processor::ILLEGAL_INSTRUCTION)
    }
}
