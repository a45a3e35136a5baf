// The control flow instructions (manual, 3.4).
#![tactic(auto)]

ghost use Rattle.std.specs.Prelude.{◌≡◌, ◌≤◌, ◌<◌, get_or};
ghost use Rattle.control.specs.Branches.{target, jump_to, branch};
ghost use Rattle.instructions.specs.Operands.{illegal};
ghost use Rattle.control.specs.Control.{controls};
ghost use Rattle.instructions.specs.Action.{Write};
ghost use Rattle.tlb.specs.Lookup.{no_slot};
ghost use Rattle.instructions.specs.Code.{action_of, operands_of};

use comparison::Order;
use instructions::{Coded, Operands};
use words::extension;

// The target of the offset in the low `WIDTH` bits of the instruction word.
#[tactic(auto, using(crate::proofs::Targets::target_by_shift))]
pub fn target<const WIDTH: u32>(o: Operands) -> u32
    requires sign { 1 ≤ WIDTH }
    requires below { WIDTH < 32 }
    ensures { result ≡ target WIDTH o.word o.next }
{
    sums::add(
        o.next,
        shifts::shift_left(extension::sign_extend::<WIDTH>(o.word), 2),
    )
}

// A jump that links nothing: a write to register 0 has no effect.
fn jump_to(pc: u32) -> Coded
    ensures { action_of result ≡ jump_to pc }
{
    Coded::Write {
        register: 0,
        value: 0,
        next: pc,
        slot: tlb::NO_SLOT,
    }
}

// A jump that links.
fn link_to(pc: u32, o: Operands) -> Coded
    ensures { action_of result ≡ Write 31 o.next pc no_slot }
{
    Coded::Write {
        register: 31,
        value: o.next,
        next: pc,
        slot: tlb::NO_SLOT,
    }
}

#[tactic(auto, unfolding(crate::specs::Branches::branch))]
pub fn branch(holds: bool, o: Operands) -> Coded
    ensures { action_of result ≡ branch holds o.word o.next }
{
    if holds {
        return jump_to(target::<16>(o));
    }
    jump_to(o.next)
}

// Opcodes 20 to 2D, counted from 0.
#[tactic(auto, unfolding(crate::specs::Control::controls))]
pub fn flow(kind: u32, o: Operands) -> Coded
    ensures { action_of result ≡ get_or controls kind illegal (operands_of o) }
{
    match kind {
        0 => branch(comparison::unsigned_holds(Order::Equal, o.x, o.y), o),
        1 => branch(comparison::unsigned_holds(Order::NotEqual, o.x, o.y), o),
        2 => branch(comparison::signed_holds(Order::LessOrEqual, o.x, o.y), o),
        3 => branch(comparison::unsigned_holds(Order::LessOrEqual, o.x, o.y), o),
        4 => branch(comparison::signed_holds(Order::Less, o.x, o.y), o),
        5 => branch(comparison::unsigned_holds(Order::Less, o.x, o.y), o),
        6 => branch(comparison::signed_holds(Order::GreaterOrEqual, o.x, o.y), o),
        7 => branch(
            comparison::unsigned_holds(Order::GreaterOrEqual, o.x, o.y),
            o,
        ),
        8 => branch(comparison::signed_holds(Order::Greater, o.x, o.y), o),
        9 => branch(comparison::unsigned_holds(Order::Greater, o.x, o.y), o),
        10 => jump_to(target::<26>(o)),
        11 => jump_to(o.x),
        12 => link_to(target::<26>(o), o),
        13 => link_to(o.x, o),
        _ => o.illegal(),
    }
}
