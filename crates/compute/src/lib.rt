// The computation instructions (manual, 3.3).
#![tactic(auto)]

ghost use Rattle.std.specs.Prelude.{◌≡◌, ◌≤◌, get_or};
ghost use Rattle.instructions.specs.Operands.{illegal};
ghost use Rattle.compute.specs.Compute.{computations, unless_zero};
ghost use Rattle.instructions.specs.Code.{action_of, operands_of};

use instructions::{Coded, Operands};
use processor::Processor;

// Opcodes 10 to 1F.
#[tactic(auto, unfolding(crate::specs::Compute::computations))]
pub fn logic(opcode: u32, o: Operands) -> Coded
    requires { 16 ≤ opcode }
    ensures { action_of result ≡ get_or computations opcode illegal (operands_of o) }
{
    match opcode {
        0x10 => o.into_r(bitwise::and(o.x, o.y)),
        0x11 => o.into_y(bitwise::and(o.x, o.immediate_z())),
        0x12 => o.into_r(bitwise::or(o.x, o.y)),
        0x13 => o.into_y(bitwise::or(o.x, o.immediate_z())),
        0x14 => o.into_r(bitwise::xor(o.x, o.y)),
        0x15 => o.into_y(bitwise::xor(o.x, o.immediate_z())),
        0x16 => o.into_r(bitwise::xnor(o.x, o.y)),
        0x17 => o.into_y(bitwise::xnor(o.x, o.immediate_z())),
        0x18 => o.into_r(shifts::shift_left(o.x, o.y)),
        0x19 => o.into_y(shifts::shift_left(o.x, o.immediate_z())),
        0x1A => o.into_r(shifts::shift_right(o.x, o.y)),
        0x1B => o.into_y(shifts::shift_right(o.x, o.immediate_z())),
        0x1C => o.into_r(shifts::shift_arithmetic(o.x, o.y)),
        0x1D => o.into_y(shifts::shift_arithmetic(o.x, o.immediate_z())),
        0x1F => o.into_y(shifts::load_high(o.word)),
        _ => o.illegal(),
    }
}

// A divisor of 0 faults.
fn unless_zero(divisor: u32, action: Coded) -> Coded
    ensures { action_of result ≡ unless_zero divisor (action_of action) }
{
    if divisor == 0 {
        return Coded::fault(Processor::DIVISION_BY_ZERO);
    }
    action
}

// Opcodes 00 to 0F; the rest of the table is logic.
#[tactic(auto, unfolding(crate::specs::Compute::computations))]
pub fn arithmetic(opcode: u32, o: Operands) -> Coded
    ensures { action_of result ≡ get_or computations opcode illegal (operands_of o) }
{
    match opcode {
        0x00 => o.into_r(sums::add(o.x, o.y)),
        0x01 => o.into_y(sums::add(o.x, o.immediate_s())),
        0x02 => o.into_r(sums::subtract(o.x, o.y)),
        0x03 => o.into_y(sums::subtract(o.x, o.immediate_s())),
        0x04 => o.into_r(sums::multiply(o.x, o.y)),
        0x05 => o.into_y(sums::multiply(o.x, o.immediate_s())),
        0x06 => o.into_r(sums::multiply(o.x, o.y)),
        0x07 => o.into_y(sums::multiply(o.x, o.immediate_z())),
        0x08 => unless_zero(o.y, o.into_r(quotients::divide_signed(o.x, o.y))),
        0x09 => unless_zero(
            o.immediate_s(),
            o.into_y(quotients::divide_signed(o.x, o.immediate_s())),
        ),
        0x0A => unless_zero(o.y, o.into_r(quotients::divide_unsigned(o.x, o.y))),
        0x0B => unless_zero(
            o.immediate_z(),
            o.into_y(quotients::divide_unsigned(o.x, o.immediate_z())),
        ),
        0x0C => unless_zero(o.y, o.into_r(quotients::remainder_signed(o.x, o.y))),
        0x0D => unless_zero(
            o.immediate_s(),
            o.into_y(quotients::remainder_signed(o.x, o.immediate_s())),
        ),
        0x0E => unless_zero(o.y, o.into_r(quotients::remainder_unsigned(o.x, o.y))),
        0x0F => unless_zero(
            o.immediate_z(),
            o.into_y(quotients::remainder_unsigned(o.x, o.immediate_z())),
        ),
        _ => logic(opcode, o),
    }
}
