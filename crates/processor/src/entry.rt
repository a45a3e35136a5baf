// Exception entry in numbers: where service begins, and what Bad Address and Entry High become (manual, 2.8 and 2.9.6).
ghost use Rattle.std.specs.Prelude.{◌≡◌};
ghost use Rattle.processor.specs.Entry.{service_base, user_miss, service_address, bad_address_after, entry_high_after};

use crate::Processor;

#[tactic(auto, unfolding(crate::specs::Entry::service_base, status::specs::Psw::vector))]
fn service_base(psw: u32) -> u32
    ensures { result ≡ service_base psw }
{
    if psw / 0x800_0000 % 2 == 0 {
        Processor::ROM_SERVICE
    } else {
        Processor::RAM_SERVICE
    }
}

#[tactic(auto, unfolding(crate::specs::Entry::user_miss))]
fn is_user_miss(eid: u32, address: u32) -> bool
    ensures { result ≡ user_miss eid address }
{
    eid == Processor::TLB_MISS && address < 0x8000_0000
}

#[tactic(auto, using(crate::proofs::EntryLaws::base_small), unfolding(crate::specs::Entry::service_address))]
pub fn service_address(psw: u32, eid: u32, address: u32) -> u32
    ensures { result ≡ service_address psw eid address }
{
    if is_user_miss(eid, address) {
        service_base(psw) + Processor::USER_MISS_SERVICE
    } else {
        service_base(psw) + Processor::GENERAL_SERVICE
    }
}

pub fn bad_address(eid: u32, address: u32, former: u32) -> u32
    ensures { result ≡ bad_address_after eid address former }
{
    match eid {
        Processor::TLB_MISS..=Processor::PRIVILEGED_ADDRESS => address,
        _ => former,
    }
}

#[tactic(auto, unfolding(kept_bits::specs::Kept::kept_high))]
pub fn entry_high(eid: u32, address: u32, former: u32) -> u32
    ensures { result ≡ entry_high_after eid address former }
{
    match eid {
        Processor::TLB_MISS..=Processor::TLB_INVALID => kept_bits::kept_high(address),
        _ => former,
    }
}
