// Quotients and remainders of words (manual, 3.3.9 to 3.3.16).
#![tactic(auto)]

ghost use Rattle.std.specs.Prelude.{◌≡◌};
ghost use Rattle.quotients.specs.Quotients.{unsigned_quotient, unsigned_remainder, signed_quotient, signed_remainder};

// The divisor 0 faults before a quotient is asked for (EID 19). Here it gives 0.
#[tactic(auto, unfolding(crate::specs::Quotients::unsigned_quotient))]
pub fn divide_unsigned(x: u32, y: u32) -> u32
    ensures { result ≡ unsigned_quotient x y }
{
    x.checked_div(y).unwrap_or(0)
}

// The divisor 0 gives the dividend here.
#[tactic(auto, unfolding(crate::specs::Quotients::unsigned_remainder))]
pub fn remainder_unsigned(x: u32, y: u32) -> u32
    ensures { result ≡ unsigned_remainder x y }
{
    x.checked_rem(y).unwrap_or(x)
}

// By i32, rounded toward 0; the least number by -1 wraps.
pub fn divide_signed(x: u32, y: u32) -> u32
    ensures { result ≡ signed_quotient x y }
{
    if y == 0 {
        return 0;
    }
    x.cast_signed()
        .wrapping_div(y.cast_signed())
        .cast_unsigned()
}

pub fn remainder_signed(x: u32, y: u32) -> u32
    ensures { result ≡ signed_remainder x y }
{
    if y == 0 {
        return x;
    }
    x.cast_signed()
        .wrapping_rem(y.cast_signed())
        .cast_unsigned()
}
