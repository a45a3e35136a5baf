// The look: what a step does, named before anything is done. An interrupt comes first, then the instruction at the PC.
#![tactic(auto)]

ghost use Rattle.std.specs.Prelude.{◌≡◌, ◌≤◌};
ghost use Rattle.look.specs.Interrupt.{lowest, channel};
ghost use Rattle.tlb.specs.Found.{Serves};
ghost use Rattle.look.specs.Look.{look_from, opcode_from};
ghost use Rattle.instructions.specs.Code.{action_of};
ghost use Rattle.access.specs.Code.{surroundings_of};

use access::Surroundings;
use instructions::Coded;
use processor::{Processor, Words};

// The number of the lowest bit that is set of 16, or 32.
#[tactic(auto, using(crate::proofs::ChannelLoop::lowest_more, crate::proofs::ChannelLoop::lowest_stop, crate::proofs::ChannelLoop::lowest_end))]
fn lowest_ready(ready: u32) -> u32
    ensures { result ≡ lowest 16 0 ready }
{
    let mut rest = ready;
    for i in 0..16 {
        if rest % 2 == 1 {
            return i;
        }
        rest /= 2;
    }
    Processor::NO_EXCEPTION
}

// The channel that is accepted, or 32.
#[tactic(auto, unfolding(crate::specs::Interrupt::channel, crate::specs::Interrupt::lowest, status::specs::Psw::interrupt_current, status::specs::Psw::enabled))]
pub fn accepted(psw: u32, lines: u32) -> u32
    ensures { result ≡ channel psw lines }
{
    if psw / 0x80_0000 % 2 == 1 {
        let ready = lines & (psw % 0x1_0000);
        if ready == 0 {
            return Processor::NO_EXCEPTION;
        }
        return lowest_ready(ready);
    }
    Processor::NO_EXCEPTION
}

// What a step will do, and the opcode of the word that it fetched, or 64. It stays a number, as the definitions have it (`opcode_from`,
// `charges::EXCEPTION`): an opcode is the entry of the charges that a step costs.
#[derive(Clone, Copy)]
pub struct Looked {
    pub action: Coded,
    pub opcode: u32,
}

// No word is fetched where an interrupt is accepted or the fetch faults.
const NO_OPCODE: u32 = 64;

// What the step does, from what it reads; `i` is the index of the PC's page.
#[tactic(auto, using(crate::proofs::Looks::look_interrupt, crate::proofs::Looks::look_decodes, crate::proofs::Looks::opcode_interrupt))]
pub fn look_at<'a>(
    registers: &'a Words,
    pc: u32,
    i: usize,
    surroundings: Surroundings<'a>,
    lines: u32,
) -> Looked
    requires { Serves surroundings.highs.now i pc }
    ensures action { action_of result.action ≡ look_from (surroundings_of surroundings.entry) registers.now pc lines }
    ensures opcode { (result.opcode ≡ opcode_from (surroundings_of surroundings.entry) pc lines) × (result.opcode ≤ 64) }
{
    let channel = accepted(surroundings.psw, lines);
    if channel < Processor::NO_EXCEPTION {
        return Looked {
            action: Coded::fault(channel),
            opcode: NO_OPCODE,
        };
    }
    match surroundings.fetch(i, pc) {
        Ok(fetched) => Looked {
            action: decode::execute(registers, surroundings, fetched.value, sums::add(pc, 4)),
            opcode: fetched.value / 0x400_0000,
        },
        Err(fault) => Looked {
            action: Coded::Exception {
                eid: fault.eid(),
                address: pc,
            },
            opcode: NO_OPCODE,
        },
    }
}
