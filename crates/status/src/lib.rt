// The processor status word (manual, 2.7).
#![tactic(auto)]

ghost use Rattle.std.specs.Prelude.{◌≡◌};
ghost use Rattle.status.specs.Psw.{user_mode, pushed, popped};

#[tactic(auto, unfolding(crate::specs::Psw::user_mode, crate::specs::Psw::user_current))]
pub fn is_user_mode(psw: u32) -> bool
    ensures { result ≡ user_mode psw }
{
    psw / 0x400_0000 % 2 == 1
}

// 0 pushed on both stacks, and the identifier set: each pair of bits moves down by one.
#[tactic(auto, using(crate::proofs::PswLaws::push_code))]
pub fn push(psw: u32, eid: u32) -> u32
    ensures { result ≡ pushed psw eid }
{
    psw / 0x800_0000 % 2 * 0x800_0000
        + psw / 0x200_0000 % 4 * 0x100_0000
        + psw / 0x40_0000 % 4 * 0x20_0000
        + eid % 32 * 0x1_0000
        + psw % 0x1_0000
}

// Both stacks popped: each pair of bits moves up by one, and the old bit stays.
#[tactic(auto, using(crate::proofs::PswLaws::pop_code))]
pub fn pop(psw: u32) -> u32
    ensures { result ≡ popped psw }
{
    psw / 0x800_0000 % 2 * 0x800_0000
        + psw / 0x100_0000 % 4 * 0x200_0000
        + psw / 0x100_0000 % 2 * 0x100_0000
        + psw / 0x20_0000 % 4 * 0x40_0000
        + psw / 0x20_0000 % 2 * 0x20_0000
        + psw % 0x20_0000
}
