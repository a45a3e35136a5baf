// AND, OR, XOR and XNOR of words (manual, 3.3.17 to 3.3.24).
#![tactic(auto)]

ghost use Rattle.std.specs.Prelude.{◌≡◌};
ghost use Rattle.bitwise.specs.Bitwise.{and, or, xor, xnor};

pub fn and(x: u32, y: u32) -> u32
    ensures { result ≡ and x y }
{
    x & y
}

pub fn or(x: u32, y: u32) -> u32
    ensures { result ≡ or x y }
{
    x | y
}

pub fn xor(x: u32, y: u32) -> u32
    ensures { result ≡ xor x y }
{
    x ^ y
}

pub fn xnor(x: u32, y: u32) -> u32
    ensures { result ≡ xnor x y }
{
    0xFFFF_FFFF - (x ^ y)
}
