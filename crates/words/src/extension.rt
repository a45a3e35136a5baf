// Zero and sign extension of the low `WIDTH` bits to a word (manual, 2.1).
ghost use Rattle.std.specs.Prelude.{◌≡◌, ◌≤◌, ◌<◌};
ghost use Rattle.words.specs.Numbers.{zero_extend, sign_extend};

#[tactic(auto, using(crate::proofs::SignExtension::shifted), unfolding(crate::specs::Numbers::zero_extend))]
pub fn zero_extend<const WIDTH: u32>(n: u32) -> u32
    requires { WIDTH < 32 }
    ensures { result ≡ zero_extend WIDTH n }
{
    n % (1 << WIDTH)
}

// The sign bit's weight is added modulo 2^WIDTH and taken off again modulo 2^32.
#[tactic(auto, using(crate::proofs::SignExtension::code_extends))]
pub fn sign_extend<const WIDTH: u32>(n: u32) -> u32
    requires sign { 1 ≤ WIDTH }
    requires below { WIDTH < 32 }
    ensures { result ≡ sign_extend WIDTH n }
{
    let sign = 1 << (WIDTH - 1);
    ((n % (1 << WIDTH) + sign) % (1 << WIDTH)).wrapping_sub(sign)
}
