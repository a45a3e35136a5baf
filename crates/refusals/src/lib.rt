// Every refusal: its number, and the tests that several calls begin with (document 01, "Refused calls").
#![tactic(auto)]

ghost use Rattle.std.specs.Prelude.{[], ◌∷◌, ◌++◌, ◌≡◌};
ghost use Rattle.machine.specs.Machine.{fit_with};
ghost use Rattle.charges.specs.Code.{charging_of};
ghost use Rattle.refusals.specs.Refusal.{first_failed, pages_up_to, ram_accepted, fit_test, steps_test, request_tests, lengths_tests};
ghost use Rattle.refusals.specs.Code.{refusal_number, answer_number};

use machine::State;

// In the order of their tests.
#[derive(Clone, Copy, Debug, PartialEq, Eq)]
pub enum Refusal {
    RamLength,
    RomLength,
    BeltLength,
    // Of a record, or of a buffer for one.
    RecordLength,
    KindByte,
    // A register, an index or a bit that no machine has.
    Unfit,
    TooManySteps,
    NoFrame,
    ChargesLength,
}

// The number that a call for C answers.
impl From<Refusal> for u32 {
    ghost from_gives = { λ refusal n. n ≡ refusal_number refusal };

    fn from(refusal: Refusal) -> u32 {
        match refusal {
            Refusal::RamLength => 1,
            Refusal::RomLength => 2,
            Refusal::BeltLength => 3,
            Refusal::RecordLength => 4,
            Refusal::KindByte => 5,
            Refusal::Unfit => 6,
            Refusal::TooManySteps => 7,
            Refusal::NoFrame => 8,
            Refusal::ChargesLength => 9,
        }
    }
}

// The same of an answer: 0 where the call is accepted.
pub fn number(answer: Result<(), Refusal>) -> u32
    ensures { result ≡ answer_number answer }
{
    match answer {
        Ok(()) => 0,
        Err(refusal) => refusal.into(),
    }
}

// Whether an accepted exception ends the run.
#[derive(Clone, Copy, Debug, PartialEq, Eq)]
pub enum Kind {
    Plain,
    ToException,
}

// What a run is asked: its interrupt lines are held for all its steps, and a run without charges has no list of them.
#[derive(Clone, Copy)]
pub struct Request<'a> {
    pub kind: Kind,
    pub wanted: u64,
    pub lines: u32,
    pub charges: Option<&'a [u8]>,
}

const MOST_RAM: usize = 536_870_912;

const MOST_ROM: usize = 268_435_456;

const BELT: usize = 1024;

const MOST_STEPS: u64 = 1_000_000;

fn whole_pages(n: usize, limit: usize) -> bool
    ensures { result ≡ pages_up_to limit n }
{
    (4096 <= n) & (n <= limit) & (n % 4096 == 0)
}

pub fn ram_accepted(n: usize) -> bool
    ensures { result ≡ ram_accepted n }
{
    whole_pages(n, MOST_RAM)
}

// The first of causes 1, 2 and 3 that holds.
pub fn of_lengths(ram: usize, rom: usize, belt: usize) -> Result<(), Refusal>
    ensures { answer_number result ≡ first_failed (lengths_tests ram rom belt) }
{
    if !ram_accepted(ram) {
        return Err(Refusal::RamLength);
    }
    if !whole_pages(rom, MOST_ROM) {
        return Err(Refusal::RomLength);
    }
    if belt != BELT {
        return Err(Refusal::BeltLength);
    }
    Ok(())
}

fn of_steps(wanted: u64) -> Result<(), Refusal>
    ensures { answer_number result ≡ first_failed (steps_test wanted ∷ []) }
{
    if MOST_STEPS < wanted {
        return Err(Refusal::TooManySteps);
    }
    Ok(())
}

// What is asked of a run, after all that is asked of its machine: causes 7 and 9.
pub fn of_request(request: Request) -> Result<(), Refusal>
    ensures { answer_number result ≡ first_failed (request_tests request.entry.wanted (charging_of request.entry.charges)) }
{
    of_steps(request.wanted)?;
    if let Some(charges) = request.charges {
        if charges.len() != charges::LENGTH {
            return Err(Refusal::ChargesLength);
        }
    }
    Ok(())
}

pub fn of_run(
    state: State,
    ram: usize,
    rom: usize,
    belt: usize,
    request: Request,
) -> Result<(), Refusal>
    ensures { answer_number result ≡ first_failed (lengths_tests ram rom belt
        ++ (fit_test (fit_with state.processor state.timer) ∷ request_tests request.entry.wanted (charging_of request.entry.charges))) }
{
    of_lengths(ram, rom, belt)?;
    if !state.is_fit() {
        return Err(Refusal::Unfit);
    }
    of_request(request)
}
