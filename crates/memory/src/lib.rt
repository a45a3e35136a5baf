// Physical memory: which of RAM, ROM, the belt registers and the timer answers at an address.
#![tactic(auto)]

ghost use Rattle.std.specs.Prelude.{◌≡◌};
ghost use Rattle.memory.specs.Map.{within, place_of};

use timer::Timer;

const ROM_BASE: u32 = 0x2000_0000;

const BELT_BASE: u32 = 0x3050_0000;

const TIMER_CONTROL: u32 = 0x3000_0000;

const TIMER_DIVISOR: u32 = 0x3000_0004;

// Where an access goes, with its offset there.
#[derive(Clone, Copy, Debug, PartialEq, Eq)]
pub enum Place {
    Ram(u32),
    Rom(u32),
    Belt(u32),
    Timer(u32),
    Nothing,
}

#[tactic(auto, using(crate::proofs::Places::within_not, crate::proofs::Places::within_by_end))]
fn within(base: u32, len: usize, width: u32, address: u32) -> bool
    ensures { result ≡ within base len width address }
{
    base <= address && (address - base) as usize + width as usize <= len
}

// The place of the width's bytes from an address, by the lengths of RAM, ROM and belt.
pub fn place_of(width: u32, ram: usize, rom: usize, belt: usize, address: u32) -> Place
    ensures { result ≡ place_of width ram rom belt address }
{
    if within(0, ram, width, address) {
        return Place::Ram(address);
    }
    if within(ROM_BASE, rom, width, address) {
        return Place::Rom(address - ROM_BASE);
    }
    if within(BELT_BASE, belt, width, address) {
        if width == 4 {
            return Place::Belt(address - BELT_BASE);
        }
        return Place::Nothing;
    }
    if width != 4 {
        return Place::Nothing;
    }
    if address == TIMER_CONTROL {
        return Place::Timer(Timer::CONTROL);
    }
    if address == TIMER_DIVISOR {
        return Place::Timer(Timer::DIVISOR);
    }
    Place::Nothing
}
