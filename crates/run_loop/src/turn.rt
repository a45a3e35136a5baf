// A run on its way, and one step more of it.
ghost use Rattle.std.specs.Prelude.{◌≡◌, ◌+◌, ◌≤◌, ◌<◌, ◌^◌};
ghost use Rattle.tlb.specs.Found.{Serves};
ghost use Rattle.timer.specs.Timer.{lines_with};
ghost use Rattle.instructions.specs.Operands.{around};
ghost use Rattle.instructions.specs.Code.{action_of};
ghost use Rattle.look.specs.Look.{look_from, opcode_from};
ghost use Rattle.machine.specs.Machine.{machine_of};
ghost use Rattle.step.specs.Step.{stepped, step_of};
ghost use Rattle.run_loop.specs.Code.{come_to, IsFound};

use access::Surroundings;
use instructions::Coded;
use look::Looked;
use machine::State;
use processor::Processor;
use timer::Timer;
use tlb::Found;

// The state that a run began with, the steps made, the state that they came to, and the entry of the TLB that was found last. The state keeps the
// replacement index of the first: where it is asked for, that one and the steps made give it.
#[derive(Clone, Copy)]
pub struct Progress {
    pub began: State,
    pub made: u32,
    pub state: State,
    pub found: Found,
}

// What a step tells: the exception that it accepted, or 32, the slot of its data access, or 33, and the opcode of its completed instruction, or 64.
#[derive(Clone, Copy)]
pub struct Event {
    pub eid: u32,
    pub slot: u32,
    pub opcode: u32,
}

impl Progress {
    #[tactic(auto, unfolding(tlb::specs::Lookup::replacement_after))]
    pub fn begin(state: State) -> Self
        ensures came { come_to result ≡ state }
        ensures made { result.made ≡ 0 }
        ensures found { IsFound result }
    {
        Self {
            began: state,
            made: 0,
            state,
            found: Found::first(&state.processor.tlbhigh),
        }
    }

    pub fn finish(self) -> State
        ensures { result ≡ come_to self }
    {
        let mut state = self.state;
        state.processor.replacement = tlb::replacement_after(
            self.made,
            self.began.processor.replacement,
        );
        state
    }

    // What the next step does, by the timer as it was before it.
    fn look(&self, timer: Timer, ram: &[u8], rom: &[u8], belt: &[u8], lines: u32) -> Looked
        requires { Serves self.now.state.processor.tlbhigh self.now.found.index self.now.state.processor.pc }
        ensures action { let p = self.now.state.processor in
            action_of result.action ≡ look_from (around p.psw p.tlbhigh p.tlblow timer ram.now rom.now belt.now) p.registers p.pc (lines_with timer lines) }
        ensures opcode { let p = self.now.state.processor in
            result.opcode ≡ opcode_from (around p.psw p.tlbhigh p.tlblow timer ram.now rom.now belt.now) p.pc (lines_with timer lines) }
    {
        let processor = &self.state.processor;
        let surroundings = Surroundings {
            psw: processor.psw,
            highs: &processor.tlbhigh,
            lows: &processor.tlblow,
            timer,
            ram,
            rom,
            belt,
        };
        look::look_at(
            &processor.registers,
            processor.pc,
            self.found.index,
            surroundings,
            timer.lines(lines),
        )
    }

    // One step more.
    pub fn turn(&mut self, ram: &mut [u8], rom: &[u8], belt: &mut [u8], lines: u32) -> Event
        requires { IsFound self.old × (self.old.made + 1 < 2 ^ 32) }
        ensures made { self.new.made ≡ self.old.made + 1 }
        ensures found { IsFound self.new }
        ensures event { stepped (machine_of (come_to self.new) ram.new rom.now belt.new) result.eid result.slot result.opcode
            ≡ step_of (machine_of (come_to self.old) ram.old rom.now belt.old) lines }
        ensures opcode { result.opcode ≤ 64 }
    {
        // The step sees the timer as it was. Ticked it is already; a store to the timer ticks what it stored.
        let former = self.state.timer;
        self.state.timer.tick();
        let pc = self.state.processor.pc;
        self.found = self.found.follow(&self.state.processor.tlbhigh, pc);
        let looked = self.look(former, &ram[..], rom, &belt[..], lines);
        let made = self.made;
        self.made += 1;
        let completed = Event {
            eid: Processor::NO_EXCEPTION,
            slot: tlb::NO_SLOT,
            opcode: looked.opcode,
        };
        match looked.action {
            Coded::Write {
                register,
                value,
                next,
                slot,
            } => {
                self.state.processor.write(register, value, next);
                Event { slot, ..completed }
            }
            Coded::Store {
                width,
                address,
                value,
                slot,
            } => {
                let stored = load_store::store(former, ram, rom, belt, width, address, value);
                self.state.timer = stored.unwrap_or(former);
                self.state.timer.tick();
                self.state.processor.jump(sums::add(pc, 4));
                Event { slot, ..completed }
            }
            Coded::Exception { eid, address } => {
                self.state.processor.enter(eid, address);
                Event {
                    eid,
                    opcode: charges::EXCEPTION,
                    ..completed
                }
            }
            system => {
                let first = self.began.processor.replacement;
                self.state.processor.replacement = tlb::replacement_after(made, first);
                actions::done(&mut self.state.processor, system);
                self.found = Found::first(&self.state.processor.tlbhigh);
                completed
            }
        }
    }
}
