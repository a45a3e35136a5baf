// The decoder (document 01, "One step").
#![tactic(auto)]

ghost use Rattle.std.specs.Prelude.{◌≡◌};
ghost use Rattle.instructions.specs.Operands.{operands_in};
ghost use Rattle.access.specs.Code.{surroundings_of};
ghost use Rattle.decode.specs.Table.{executed};
ghost use Rattle.instructions.specs.Code.{action_of};

use access::Surroundings;
use instructions::{Coded, Operands};
use processor::Words;

// The action of an instruction word, by its opcode; next is the PC after the fetch.
#[tactic(auto, unfolding(crate::specs::Table::executed))]
pub fn execute<'a>(
    registers: &'a Words,
    surroundings: Surroundings<'a>,
    word: u32,
    next: u32,
) -> Coded
    ensures { action_of result ≡ executed (surroundings_of surroundings.entry) (operands_in registers.now word next) }
{
    let opcode = word / 0x400_0000;
    let xi = (word / 0x20_0000 % 32) as usize;
    let yi = (word / 0x1_0000 % 32) as usize;
    let x = registers[xi];
    let y = registers[yi];
    let o = Operands { x, y, word, next };
    match opcode {
        0x00..=0x1F => compute::arithmetic(opcode, o),
        0x20..=0x2D => control::flow(opcode - 0x20, o),
        0x2E..=0x2F => system::trap(opcode - 0x2E, surroundings.psw, o),
        0x30..=0x37 => transfer::transfer(surroundings, opcode - 0x30, o),
        0x38..=0x3D => system::system(opcode - 0x38, surroundings.psw, o),
        _ => o.illegal(),
    }
}
