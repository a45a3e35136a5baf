// Fetch, load and store through the translation (manual, 3.2 and 3.5).
#![tactic(auto)]

ghost use Rattle.std.specs.Prelude.{◌≡◌};
ghost use Rattle.tlb.specs.Found.{Serves};
ghost use Rattle.translation.specs.Translation.{bytes_of, translated};
ghost use Rattle.translation.specs.Code.{translation_of};
ghost use Rattle.memory.specs.Access.{access_width, load_of};
ghost use Rattle.instructions.specs.Code.{action_of};
ghost use Rattle.access.specs.Reads.{answered, read_from};
ghost use Rattle.access.specs.Writes.{store_to};
ghost use Rattle.access.specs.declared.Fault.TheVariants.{Translation};
ghost use Rattle.access.specs.Code.{surroundings_of, fault_eid, read_of};

use instructions::Coded;
use memory::Place;
use processor::{Processor, Words};
use timer::Timer;
use translation::{Physical, Width};

// What an access reads of the machine.
#[derive(Clone, Copy)]
pub struct Surroundings<'a> {
    pub psw: u32,
    pub highs: &'a Words,
    pub lows: &'a Words,
    pub timer: Timer,
    pub ram: &'a [u8],
    pub rom: &'a [u8],
    pub belt: &'a [u8],
}

// What a read brings: a value, and the slot that served it.
#[derive(Clone, Copy, Debug, PartialEq, Eq)]
pub struct Fetched {
    pub value: u32,
    pub slot: u32,
}

// The fault of a translation, or nothing answers at the physical address.
#[derive(Clone, Copy, Debug, PartialEq, Eq)]
pub enum Fault {
    Translation(translation::Fault),
    BusTimeout,
}

impl From<translation::Fault> for Fault {
    ghost from_gives = { λ cause e. e ≡ Translation cause };

    fn from(cause: translation::Fault) -> Fault {
        Fault::Translation(cause)
    }
}

impl Fault {
    pub fn eid(self) -> u32
        ensures { result ≡ fault_eid self }
    {
        match self {
            Fault::Translation(fault) => fault.eid(),
            Fault::BusTimeout => Processor::BUS_TIMEOUT,
        }
    }
}

// The width of so many bytes.
#[tactic(auto, unfolding(memory::specs::Access::access_width))]
fn width_of(bytes: u32) -> Width
    ensures { bytes_of result ≡ access_width bytes }
{
    match bytes {
        1 => Width::Byte,
        2 => Width::Half,
        _ => Width::Word,
    }
}

fn bytes_of(width: Width) -> u32
    ensures { result ≡ bytes_of width }
{
    match width {
        Width::Byte => 1,
        Width::Half => 2,
        Width::Word => 4,
    }
}

// A read, a fetch and a store take the address by `let .. else` and return the fault, the form that the project names for them; else `?` would do.
impl<'a> Surroundings<'a> {
    fn translate(
        self,
        width: Width,
        store: bool,
        address: u32,
    ) -> Result<Physical, translation::Fault>
        ensures { translation_of result ≡ translated self.entry.psw self.entry.highs.now self.entry.lows.now (bytes_of width) store address }
    {
        translation::translate(self.psw, self.highs, self.lows, width, store, address)
    }

    // What a load at a physical address brings.
    fn load<const BYTES: u32>(self, place: Physical) -> Result<Fetched, Fault>
        ensures { read_of result ≡ answered place.slot (load_of (access_width BYTES) self.entry.timer (surroundings_of self.entry).memory place.address) }
    {
        let value = load_store::load(
            self.timer,
            self.ram,
            self.rom,
            self.belt,
            BYTES,
            place.address,
        )
        .ok_or(Fault::BusTimeout)?;
        Ok(Fetched {
            value,
            slot: place.slot,
        })
    }

    // The number in 1, 2 or 4 bytes at a virtual address.
    #[tactic(auto, using(crate::proofs::ReadFaults::coded_read_fault), unfolding(crate::specs::Reads::read_from))]
    pub fn read<const BYTES: u32>(self, address: u32) -> Result<Fetched, Fault>
        ensures { read_of result ≡ read_from (access_width BYTES) (surroundings_of self.entry) address }
    {
        let answer = self.translate(width_of(BYTES), false, address);
        let Ok(place) = answer else {
            return Err(answer.unwrap_err().into());
        };
        self.load::<BYTES>(place)
    }

    // The instruction word at the PC, whose page has the index `i`.
    #[tactic(auto, using(crate::proofs::ReadFaults::coded_read_fault), unfolding(crate::specs::Reads::read_from, memory::specs::Access::access_width))]
    pub fn fetch(self, i: usize, pc: u32) -> Result<Fetched, Fault>
        requires { Serves self.highs.now i pc }
        ensures { read_of result ≡ read_from 4 (surroundings_of self.entry) pc }
    {
        let answer = translation::translate_at(
            self.psw,
            self.highs,
            self.lows,
            i,
            Width::Word,
            false,
            pc,
        );
        let Ok(place) = answer else {
            return Err(answer.unwrap_err().into());
        };
        self.load::<4>(place)
    }

    // A value to a virtual address: where it goes in memory, or the fault with its address.
    #[tactic(auto, using(crate::proofs::WriteFaults::coded_store), unfolding(crate::specs::Writes::store_to, memory::specs::Access::store_answer))]
    pub fn store(self, width: Width, value: u32, address: u32) -> Coded
        ensures { action_of result ≡ store_to (bytes_of width) (surroundings_of self.entry) value address }
    {
        let bytes = bytes_of(width);
        let answer = self.translate(width, true, address);
        let Ok(place) = answer else {
            return Coded::Exception {
                eid: translation::eid_of(answer),
                address,
            };
        };
        let ram = self.ram.len();
        let rom = self.rom.len();
        let belt = self.belt.len();
        match memory::place_of(bytes, ram, rom, belt, place.address) {
            Place::Nothing => Coded::Exception {
                eid: Processor::BUS_TIMEOUT,
                address,
            },
            _ => Coded::Store {
                width: bytes,
                address: place.address,
                value,
                slot: place.slot,
            },
        }
    }
}
