// The bits of a word that each special register keeps (document 01, "Closed by us").
#![tactic(auto)]

ghost use Rattle.std.specs.Prelude.{◌≡◌};
ghost use Rattle.kept_bits.specs.Kept.{kept_psw, kept_index, kept_high, kept_low};

#[tactic(auto, unfolding(crate::specs::Kept::kept_psw))]
pub fn kept_psw(v: u32) -> u32
    ensures { result ≡ kept_psw v }
{
    v % 0x1000_0000
}

#[tactic(auto, unfolding(crate::specs::Kept::kept_index))]
pub fn kept_index(v: u32) -> u32
    ensures { result ≡ kept_index v }
{
    v / 0x8000_0000 * 0x8000_0000 + v % 32
}

#[tactic(auto, unfolding(crate::specs::Kept::kept_high))]
pub fn kept_high(v: u32) -> u32
    ensures { result ≡ kept_high v }
{
    v / 0x1000 * 0x1000
}

#[tactic(auto, unfolding(crate::specs::Kept::kept_low))]
pub fn kept_low(v: u32) -> u32
    ensures { result ≡ kept_low v }
{
    v / 0x1000 * 0x1000 + v % 4
}
