// The entry of a page in the TLB, looked up or kept from before, and the replacement index (manual, 2.9, 3.6.5 and 3.6.6;
// document 02, job 4).
#![tactic(auto)]

ghost use Rattle.std.specs.Prelude.{◌≡◌, cond, leb, get_or};
ghost use Rattle.tlb.specs.Lookup.{no_entry, lookup, found_index, replacement_after, page_of};

// A slot is the index of the entry that served an access. These two stand for a direct-mapped address, and for none (document 02, job 2).
pub const DIRECT_MAPPED: u32 = 32;

pub const NO_SLOT: u32 = 33;

// The high words of the TLB.
pub type Words = [u32; 32];

// The lowest index of a page's entry, or 32. A number and no Option, which is no plainer: a caller that reads the entry would test its bound again, and
// `i < 32` is both tests at once.
pub fn find(highs: &Words, page: u32) -> usize
    ensures { result ≡ lookup highs.now page }
{
    highs
        .iter()
        .position(|high| high / 0x1000 == page)
        .unwrap_or(32)
}

#[tactic(auto, unfolding(crate::specs::Lookup::found_index))]
pub fn found_index(i: usize) -> u32
    ensures { result ≡ found_index i }
{
    if i < 32 {
        return i as u32;
    }
    0x8000_0000
}

// The replacement index some steps later. From 4 on it goes round in 28.
pub fn replacement_after(steps: u32, replacement: u32) -> u32
    ensures { result ≡ replacement_after steps replacement }
{
    if steps == 0 {
        return replacement;
    }
    if 31 <= replacement {
        return 4 + (steps - 1) % 28;
    }
    let room = 32 - replacement;
    if steps < room {
        return replacement + steps;
    }
    4 + (steps - room) % 28
}

// The index of an address's page; a direct-mapped address has none.
pub fn index_of(highs: &Words, address: u32) -> usize
    ensures { result ≡ cond (leb 0xC0000000 address) no_entry (lookup highs.now (page_of address)) }
{
    if address < 0xC000_0000 {
        return find(highs, address / 0x1000);
    }
    32
}

// The entry that was looked up last: in a run the next fetch mostly needs the same.
#[derive(Clone, Copy, Debug, PartialEq, Eq)]
pub struct Found {
    pub page: u32,
    pub index: usize,
}

impl Found {
    // Entry 0: a lookup of its page would find it at once.
    #[tactic(auto, using(crate::proofs::Lowest::first_lookup))]
    pub fn first(highs: &Words) -> Self
        ensures { (result.page ≡ page_of (get_or highs.now 0 0)) × (result.index ≡ lookup highs.now result.page) }
    {
        Self {
            page: highs[0] / 0x1000,
            index: 0,
        }
    }

    // The entry for an address, where the TLB maps it; otherwise the last one.
    pub fn follow(self, highs: &Words, address: u32) -> Self
        requires { self.index ≡ lookup highs.now self.page }
        ensures page { result.page ≡ cond (leb 0xC0000000 address) self.page (page_of address) }
        ensures index { result.index ≡ lookup highs.now result.page }
    {
        let page = address / 0x1000;
        if 0xC000_0000 <= address || page == self.page {
            return self;
        }
        Self {
            page,
            index: find(highs, page),
        }
    }
}
