// The system instructions (manual, 3.6).
#![tactic(auto)]

ghost use Rattle.std.specs.Prelude.{◌≡◌, get_or};
ghost use Rattle.system.specs.System.{privileged, traps, systems};
ghost use Rattle.system.specs.Code.{illegal_system};
ghost use Rattle.instructions.specs.Code.{action_of};

use instructions::{Coded, Operands};
use processor::Processor;

// In User Mode a privileged instruction faults.
#[tactic(auto, unfolding(crate::specs::System::privileged))]
fn privileged(psw: u32, action: Coded) -> Coded
    ensures { action_of result ≡ privileged psw (action_of action) }
{
    if status::is_user_mode(psw) {
        return Coded::fault(Processor::PRIVILEGED_INSTRUCTION);
    }
    action
}

// Opcodes 2E and 2F, counted from 0.
#[tactic(auto, unfolding(crate::specs::System::traps))]
pub fn trap(kind: u32, psw: u32, o: Operands) -> Coded
    ensures { action_of result ≡ get_or traps kind illegal_system psw o.y o.word }
{
    match kind {
        0 => Coded::fault(Processor::TRAP),
        1 => privileged(psw, Coded::Rfx),
        _ => o.illegal(),
    }
}

// Opcodes 38 to 3D, counted from 0.
#[tactic(auto, unfolding(crate::specs::System::systems))]
pub fn system(kind: u32, psw: u32, o: Operands) -> Coded
    ensures { action_of result ≡ get_or systems kind illegal_system psw o.y o.word }
{
    let special = o.immediate_z();
    let register = o.field_y();
    let value = o.y;
    match kind {
        0 => privileged(psw, Coded::Mvfs { special, register }),
        1 => privileged(psw, Coded::Mvts { special, value }),
        2 => privileged(psw, Coded::Tbs),
        3 => privileged(psw, Coded::Tbwr),
        4 => privileged(psw, Coded::Tbri),
        5 => privileged(psw, Coded::Tbwi),
        _ => o.illegal(),
    }
}
