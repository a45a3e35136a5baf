// Shifts of words, and LDHI (manual, 3.3.25 to 3.3.31).
#![tactic(auto)]

ghost use Rattle.std.specs.Prelude.{◌≡◌};
ghost use Rattle.shifts.specs.Shifts.{shift_left, shift_right, shift_arithmetic, load_high};

#[tactic(auto, unfolding(crate::specs::Shifts::shift_left))]
pub fn shift_left(x: u32, y: u32) -> u32
    ensures { result ≡ shift_left x y }
{
    x << (y % 32)
}

#[tactic(auto, unfolding(crate::specs::Shifts::shift_right))]
pub fn shift_right(x: u32, y: u32) -> u32
    ensures { result ≡ shift_right x y }
{
    x >> (y % 32)
}

pub fn shift_arithmetic(x: u32, y: u32) -> u32
    ensures { result ≡ shift_arithmetic x y }
{
    (x.cast_signed() >> (y % 32)).cast_unsigned()
}

#[tactic(auto, unfolding(crate::specs::Shifts::load_high))]
pub fn load_high(y: u32) -> u32
    ensures { result ≡ load_high y }
{
    y % 0x1_0000 * 0x1_0000
}
