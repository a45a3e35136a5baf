// The layout of the machine record: where its kind bytes and numbers stand, and a state got from it and put into it.
#![tactic(auto)]

ghost use Rattle.std.specs.Prelude.{◌≡◌, length, ◌++◌, eqb, drop, take, ◌<◌, ◌≤◌};
ghost use Rattle.words.specs.Logic.{either};
ghost use Rattle.endian.specs.BigEndian.{read_at};
ghost use Rattle.machine.specs.Machine.{state};
ghost use Rattle.record_layout.specs.Layout.{timer_kind_at};
ghost use Rattle.record_layout.specs.Record.{timerless, kinds_in_place, processor_of, timer_of, processor_items, timer_item, record_of};

use machine::State;
use processor::Processor;
use timer::Timer;

// Of a record with its timer, and of one without it, which is still read.
pub const LENGTH: usize = 424;

pub const OLD_LENGTH: usize = 414;

// Where the kind bytes stand.
pub const REGISTERS_KIND_AT: usize = 0;

pub const PC_KIND_AT: usize = 129;

pub const SPECIAL_KIND_AT: usize = 134;

pub const TLB_KIND_AT: usize = 155;

pub const REPLACEMENT_KIND_AT: usize = 412;

pub const TIMER_KIND_AT: usize = 414;

// Where the numbers stand.
pub const REGISTERS_AT: usize = 1;

pub const PC_AT: usize = 130;

pub const PSW_AT: usize = 135;

pub const INDEX_AT: usize = 139;

pub const ENTRY_HIGH_AT: usize = 143;

pub const ENTRY_LOW_AT: usize = 147;

pub const BAD_ADDRESS_AT: usize = 151;

pub const TLB_HIGH_AT: usize = 156;

pub const TLB_LOW_AT: usize = 160;

pub const REPLACEMENT_AT: usize = 413;

pub const DIVISOR_AT: usize = 415;

pub const COUNTER_AT: usize = 419;

pub const CONTROL_AT: usize = 423;

// A record without the timer has no such byte.
fn timer_kind_in_place(s: &[u8]) -> bool
    ensures { result ≡ either (timerless s.now) (eqb (read_at 1 s.now timer_kind_at) 6) }
{
    if s.len() < LENGTH {
        return true;
    }
    endian::read::<1>(s, TIMER_KIND_AT) == 6
}

pub fn kinds_in_place(s: &[u8]) -> bool
    requires { 414 ≤ length s.now }
    ensures { result ≡ kinds_in_place s.now }
{
    (endian::read::<1>(s, REGISTERS_KIND_AT) == 1)
        & (endian::read::<1>(s, PC_KIND_AT) == 2)
        & (endian::read::<1>(s, SPECIAL_KIND_AT) == 3)
        & (endian::read::<1>(s, TLB_KIND_AT) == 4)
        & (endian::read::<1>(s, REPLACEMENT_KIND_AT) == 5)
        & timer_kind_in_place(s)
}

// The timer of a record, at reset where the record has none.
pub fn get_timer(s: &[u8]) -> Timer
    ensures { result ≡ timer_of s.now }
{
    if s.len() < LENGTH {
        return Timer::reset();
    }
    Timer {
        divisor: endian::read::<4>(s, DIVISOR_AT),
        counter: endian::read::<4>(s, COUNTER_AT),
        control: endian::read::<1>(s, CONTROL_AT),
    }
}

// The processor that a record holds.
fn get_processor(s: &[u8]) -> Processor
    requires { 414 ≤ length s.now }
    ensures { result ≡ processor_of s.now }
{
    let mut registers = [0u32; 32];
    let mut tlbhigh = [0u32; 32];
    let mut tlblow = [0u32; 32];
    arrays::get_words(s, REGISTERS_AT, 4, &mut registers);
    arrays::get_words(s, TLB_HIGH_AT, 8, &mut tlbhigh);
    arrays::get_words(s, TLB_LOW_AT, 8, &mut tlblow);
    Processor {
        registers,
        pc: endian::read::<4>(s, PC_AT),
        psw: endian::read::<4>(s, PSW_AT),
        index: endian::read::<4>(s, INDEX_AT),
        entryhigh: endian::read::<4>(s, ENTRY_HIGH_AT),
        entrylow: endian::read::<4>(s, ENTRY_LOW_AT),
        badaddress: endian::read::<4>(s, BAD_ADDRESS_AT),
        tlbhigh,
        tlblow,
        replacement: endian::read::<1>(s, REPLACEMENT_AT),
    }
}

pub fn get(s: &[u8]) -> State
    requires { 414 ≤ length s.now }
    ensures { result ≡ state (processor_of s.now) (timer_of s.now) }
{
    State {
        processor: get_processor(s),
        timer: get_timer(s),
    }
}

// The items of a processor, into the first 414 bytes of a record.
fn put_processor(p: Processor, s: &mut [u8])
    requires { (length s.old ≡ 424) × (p.replacement < 256) }
    ensures { s.new ≡ processor_items p ++ drop 414 s.old }
{
    let specials = [p.psw, p.index, p.entryhigh, p.entrylow, p.badaddress];
    endian::write::<1>(s, REGISTERS_KIND_AT, 1);
    arrays::put_words(s, REGISTERS_AT, 4, &p.registers);
    endian::write::<1>(s, PC_KIND_AT, 2);
    endian::write::<4>(s, PC_AT, p.pc);
    endian::write::<1>(s, SPECIAL_KIND_AT, 3);
    arrays::put_words(s, PSW_AT, 4, &specials);
    endian::write::<1>(s, TLB_KIND_AT, 4);
    arrays::put_words(s, TLB_HIGH_AT, 8, &p.tlbhigh);
    arrays::put_words(s, TLB_LOW_AT, 8, &p.tlblow);
    endian::write::<1>(s, REPLACEMENT_KIND_AT, 5);
    endian::write::<1>(s, REPLACEMENT_AT, p.replacement);
}

// The timer's item, into the last ten.
fn put_timer(timer: Timer, s: &mut [u8])
    requires { (length s.old ≡ 424) × (timer.control < 256) }
    ensures { s.new ≡ take 414 s.old ++ timer_item timer }
{
    endian::write::<1>(s, TIMER_KIND_AT, 6);
    endian::write::<4>(s, DIVISOR_AT, timer.divisor);
    endian::write::<4>(s, COUNTER_AT, timer.counter);
    endian::write::<1>(s, CONTROL_AT, timer.control);
}

// The record of a state, into a buffer of its length.
pub fn put(state: State, s: &mut [u8])
    requires { (length s.old ≡ 424) × (state.processor.replacement < 256) × (state.timer.control < 256) }
    ensures { s.new ≡ record_of state.processor state.timer }
{
    put_timer(state.timer, s);
    put_processor(state.processor, s);
}
