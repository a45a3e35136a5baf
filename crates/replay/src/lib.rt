// A file of test vectors replayed on the model: what each command does, and what is counted.
#![tactic(auto)]

mod model;
mod tally;

ghost use Rattle.std.specs.Prelude.{◌≡◌};
ghost use Rattle.replay.specs.Replay.{replay_in, commanded, replayed, finished};

use expected::Expectation;
use machine::State;

// `turn` counts the steps of the present case, `bad` the commands that are refused. `firstcase` and `firststep` say where the first
// mismatch was.
#[derive(Clone, Copy, Debug, Default, PartialEq, Eq)]
pub struct Counts {
    pub cases: u32,
    pub steps: u32,
    pub turn: u32,
    pub mismatches: u32,
    pub bad: u32,
    pub firstcase: u32,
    pub firststep: u32,
    pub ended: bool,
}

const CLEAR: u32 = 0;

const START: u32 = 6;

const STEP: u32 = 7;

const END: u32 = 8;

// The model's processor and timer, and the counts.
#[derive(Clone, Copy, Debug, PartialEq, Eq)]
pub struct Progress {
    pub state: State,
    pub counts: Counts,
}

// One command, as the definition has its kinds; what is none of the named ones is a patch, or refused. A kind is a byte of the file, which an enum
// would have matched twice.
fn command(
    progress: &mut Progress,
    xrecord: &mut [u8],
    xram: &mut [u8],
    xrom: &mut [u8],
    xbelt: &mut [u8],
    ram: &mut [u8],
    rom: &mut [u8],
    belt: &mut [u8],
    opcodes: &mut [u32],
    exceptions: &mut [u32],
    kind: u32,
    a: u32,
    b: u32,
)
    ensures { replay_in progress.new xrecord.new xram.new xrom.new xbelt.new ram.new rom.new belt.new opcodes.new exceptions.new
        ≡ commanded (replay_in progress.old xrecord.old xram.old xrom.old xbelt.old ram.old rom.old belt.old opcodes.old exceptions.old) kind a b }
{
    if progress.counts.ended {
        progress.counts.judge(kind == STEP, false);
        return;
    }
    match kind {
        CLEAR => {
            expected::clear(xrecord, xram, xrom, xbelt);
            progress.counts.begin_case();
        }
        START => {
            let expectation = Expectation {
                record: xrecord,
                ram: xram,
                rom: xrom,
                belt: xbelt,
            };
            model::start(progress, ram, rom, belt, expectation);
        }
        STEP => {
            let expectation = Expectation {
                record: xrecord,
                ram: xram,
                rom: xrom,
                belt: xbelt,
            };
            model::step(
                progress,
                ram,
                rom,
                belt,
                a,
                opcodes,
                exceptions,
                expectation,
                b,
            );
        }
        END => {
            let whole = progress.counts.cases == b;
            progress.counts.read_end();
            progress.counts.judge(false, whole);
        }
        _ => {
            let fits = expected::patch(xrecord, xram, xrom, xbelt, kind, a, b);
            progress.counts.judge(false, fits);
        }
    }
}

// The commands of a part of the file.
pub fn part(
    mut progress: Progress,
    xrecord: &mut [u8],
    xram: &mut [u8],
    xrom: &mut [u8],
    xbelt: &mut [u8],
    ram: &mut [u8],
    rom: &mut [u8],
    belt: &mut [u8],
    opcodes: &mut [u32],
    exceptions: &mut [u32],
    s: &[u8],
) -> Progress
    ensures { replay_in result xrecord.new xram.new xrom.new xbelt.new ram.new rom.new belt.new opcodes.new exceptions.new
        ≡ replayed s.now (replay_in progress xrecord.old xram.old xrom.old xbelt.old ram.old rom.old belt.old opcodes.old exceptions.old) }
{
    for i in 0..s.len() / 8 {
        let word = endian::read::<4>(s, i * 8);
        let number = endian::read::<4>(s, i * 8 + 4);
        command(
            &mut progress,
            xrecord,
            xram,
            xrom,
            xbelt,
            ram,
            rom,
            belt,
            opcodes,
            exceptions,
            word / 0x100_0000,
            word % 0x100_0000,
            number,
        );
    }
    progress.counts.judge(false, s.len() % 8 == 0);
    progress
}

// After the last part.
#[tactic(auto, unfolding(crate::specs::Replay::finished))]
pub fn finish(mut counts: Counts) -> Counts
    ensures { result ≡ finished counts }
{
    let ended = counts.ended;
    counts.judge(false, ended);
    counts
}
