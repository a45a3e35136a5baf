// Sums, differences and products of words (manual, 3.3.1 to 3.3.8).
#![tactic(auto)]

ghost use Rattle.std.specs.Prelude.{◌≡◌};
ghost use Rattle.sums.specs.Sums.{sum, difference, signed_product, unsigned_product};

#[tactic(auto, unfolding(crate::specs::Sums::sum, words::specs::Numbers::truncate))]
pub fn add(x: u32, y: u32) -> u32
    ensures { result ≡ sum x y }
{
    x.wrapping_add(y)
}

#[tactic(auto, unfolding(crate::specs::Sums::difference, words::specs::Numbers::truncate))]
pub fn subtract(x: u32, y: u32) -> u32
    ensures { result ≡ difference x y }
{
    x.wrapping_sub(y)
}

// The low 32 bits of a product are the same for both readings of its factors.
pub fn multiply(x: u32, y: u32) -> u32
    ensures unsigned { result ≡ unsigned_product x y }
    ensures signed { result ≡ signed_product x y }
{
    x.wrapping_mul(y)
}
