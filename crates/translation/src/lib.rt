// The translation of a virtual address to a physical one, or its fault (document 01, "One step"; manual, 2.9).
#![tactic(auto)]

ghost use Rattle.std.specs.Prelude.{◌≡◌, not, cond, ◌%◌, ltb, eqb, get_or};
ghost use Rattle.translation.specs.Translation.{TlbMiss, bytes_of, through, forbidden, translated, translation_eid};
ghost use Rattle.translation.specs.Code.{fault_of, translation_of};
ghost use Rattle.tlb.specs.Found.{Serves};
ghost use Rattle.tlb.specs.Lookup.{no_entry};

use processor::Processor;
use tlb::Words;

// The size of an access.
#[derive(Clone, Copy, Debug, PartialEq, Eq)]
pub enum Width {
    Byte,
    Half,
    Word,
}

// The physical address, and the slot that served it.
#[derive(Clone, Copy, Debug, PartialEq, Eq)]
pub struct Physical {
    pub address: u32,
    pub slot: u32,
}

#[derive(Clone, Copy, Debug, PartialEq, Eq)]
pub enum Fault {
    TlbMiss,
    TlbWrite,
    TlbInvalid,
    IllegalAddress,
    PrivilegedAddress,
}

impl Fault {
    pub fn eid(self) -> u32
        ensures { result ≡ translation_eid (fault_of self) }
    {
        match self {
            Fault::TlbMiss => Processor::TLB_MISS,
            Fault::TlbWrite => Processor::TLB_WRITE,
            Fault::TlbInvalid => Processor::TLB_INVALID,
            Fault::IllegalAddress => Processor::ILLEGAL_ADDRESS,
            Fault::PrivilegedAddress => Processor::PRIVILEGED_ADDRESS,
        }
    }
}

pub fn is_misaligned(address: u32, width: Width) -> bool
    ensures { result ≡ not (eqb (address % bytes_of width) 0) }
{
    match width {
        Width::Byte => false,
        Width::Half => address % 2 != 0,
        Width::Word => address % 4 != 0,
    }
}

#[tactic(auto, unfolding(crate::specs::Translation::forbidden))]
pub fn is_forbidden(psw: u32, address: u32) -> bool
    ensures { result ≡ forbidden psw address }
{
    0x8000_0000 <= address && status::is_user_mode(psw)
}

#[tactic(auto, unfolding(crate::specs::Translation::through, crate::specs::Translation::valid, crate::specs::Translation::writable))]
fn through(low: u32, slot: u32, store: bool, address: u32) -> Result<Physical, Fault>
    ensures { translation_of result ≡ through low slot store address }
{
    if low % 2 != 1 {
        return Err(Fault::TlbInvalid);
    }
    if store && low / 2 % 2 != 1 {
        return Err(Fault::TlbWrite);
    }
    Ok(Physical {
        address: low / 0x1000 * 0x1000 + address % 0x1000,
        slot: slot,
    })
}

// By the index of the page's entry, or 32.
pub fn by_entry(lows: &Words, i: usize, store: bool, address: u32) -> Result<Physical, Fault>
    ensures { translation_of result ≡ cond (ltb i no_entry) (through (get_or lows.now i 0) i store address) TlbMiss }
{
    if i < 32 {
        return through(lows[i], i as u32, store, address);
    }
    Err(Fault::TlbMiss)
}

// With the index of the address's page at hand: `highs` is in the contract alone.
#[tactic(auto, unfolding(crate::specs::Translation::translated, crate::specs::Translation::mapped))]
pub fn translate_at<'a>(
    psw: u32,
    highs: &'a Words,
    lows: &'a Words,
    i: usize,
    width: Width,
    store: bool,
    address: u32,
) -> Result<Physical, Fault>
    requires { Serves highs.now i address }
    ensures { translation_of result ≡ translated psw highs.now lows.now (bytes_of width) store address }
{
    if is_misaligned(address, width) {
        return Err(Fault::IllegalAddress);
    }
    if is_forbidden(psw, address) {
        return Err(Fault::PrivilegedAddress);
    }
    if 0xC000_0000 <= address {
        return Ok(Physical {
            address: address - 0xC000_0000,
            slot: tlb::DIRECT_MAPPED,
        });
    }
    by_entry(lows, i, store, address)
}

pub fn translate<'a>(
    psw: u32,
    highs: &'a Words,
    lows: &'a Words,
    width: Width,
    store: bool,
    address: u32,
) -> Result<Physical, Fault>
    ensures { translation_of result ≡ translated psw highs.now lows.now (bytes_of width) store address }
{
    let i = tlb::index_of(highs, address);
    translate_at(psw, highs, lows, i, width, store, address)
}

// The identifier of the fault, or 32.
pub fn eid_of(answer: Result<Physical, Fault>) -> u32
    ensures { result ≡ translation_eid (translation_of answer) }
{
    match answer {
        Ok(_) => Processor::NO_EXCEPTION,
        Err(fault) => fault.eid(),
    }
}
