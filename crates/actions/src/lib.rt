// What the actions of a step change of the processor: registers, special registers and the TLB (manual, 3.6).
#![tactic(auto)]

ghost use Rattle.std.specs.Prelude.{◌≡◌};
ghost use Rattle.processor.specs.Register.{special};
ghost use Rattle.processor.specs.Tlb.{entry_read, searched};
ghost use Rattle.instructions.specs.Code.{action_of};
ghost use Rattle.actions.specs.Actions.{processor_after};

use instructions::Coded;
use processor::Processor;

// A number above 4 reads 0.
#[tactic(auto, unfolding(processor::specs::Register::special))]
pub fn special(p: &Processor, number: u32) -> u32
    ensures { result ≡ special p.now number }
{
    match number {
        0 => p.psw,
        1 => p.index,
        2 => p.entryhigh,
        3 => p.entrylow,
        4 => p.badaddress,
        _ => 0,
    }
}

// TBRI.
#[tactic(auto, unfolding(processor::specs::Tlb::entry_read))]
pub fn read_indexed(p: &mut Processor)
    ensures { p.new ≡ entry_read p.old }
{
    let i = p.index as usize % 32;
    p.entryhigh = p.tlbhigh[i];
    p.entrylow = p.tlblow[i];
}

// TBS.
#[tactic(auto, unfolding(processor::specs::Tlb::searched))]
pub fn search(p: &mut Processor)
    ensures { p.new ≡ searched p.old }
{
    let i = tlb::find(&p.tlbhigh, p.entryhigh / 0x1000);
    p.index = tlb::found_index(i);
}

// What an action makes of the processor.
#[tactic(auto, unfolding(crate::specs::Actions::system_done))]
pub fn done(p: &mut Processor, action: Coded)
    ensures { p.new ≡ processor_after p.old (action_of action) }
{
    let next = sums::add(p.pc, 4);
    match action {
        Coded::Write {
            register,
            value,
            next,
            ..
        } => p.write(register, value, next),
        Coded::Store { .. } => p.jump(next),
        Coded::Rfx => p.leave(),
        Coded::Mvfs {
            special: number,
            register,
        } => p.write(register, special(p, number), next),
        Coded::Mvts {
            special: number,
            value,
        } => {
            p.jump(next);
            p.write_special(number, value);
        }
        Coded::Tbs => {
            p.jump(next);
            search(p);
        }
        Coded::Tbwr => {
            p.jump(next);
            p.write_random();
        }
        Coded::Tbri => {
            p.jump(next);
            read_indexed(p);
        }
        Coded::Tbwi => {
            p.jump(next);
            p.write_indexed();
        }
        Coded::Exception { eid, address } => p.enter(eid, address),
    }
}
