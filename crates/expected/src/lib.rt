// The expected machine, whose slices are named by an x: cleared and patched, and compared with the model's.
#![tactic(auto)]

ghost use Rattle.std.specs.Prelude.{◌≡◌};
ghost use Rattle.machine.specs.Machine.{machine_of};
ghost use Rattle.expected.specs.Expected.{expected, clear, patch_fits, patched, record_agrees, agrees, told_agrees};
ghost use Rattle.expected.specs.Code.{expected_of};

use machine::State;

// The expected machine as it is compared. Where it is written its slices are four parameters: a struct of them would need a clause on each.
#[derive(Clone, Copy)]
pub struct Expectation<'a> {
    pub record: &'a [u8],
    pub ram: &'a [u8],
    pub rom: &'a [u8],
    pub belt: &'a [u8],
}

// The reset machine, and memory of zeros.
#[tactic(auto, unfolding(crate::specs::Expected::clear))]
pub fn clear(xrecord: &mut [u8], xram: &mut [u8], xrom: &mut [u8], xbelt: &mut [u8])
    ensures { expected xrecord.new xram.new xrom.new xbelt.new ≡ clear (expected xrecord.old xram.old xrom.old xbelt.old) }
{
    let _ = record::write(State::reset(), xrecord);
    byte_slices::clear(xram);
    byte_slices::clear(xrom);
    byte_slices::clear(xbelt);
}

// Whether the patch is one of the five kinds and fits; only then it is made. A kind is a byte of the file, which an enum would have matched twice.
#[tactic(auto, unfolding(crate::specs::Expected::patch_fits, crate::specs::Expected::patched))]
pub fn patch(
    xrecord: &mut [u8],
    xram: &mut [u8],
    xrom: &mut [u8],
    xbelt: &mut [u8],
    kind: u32,
    at: u32,
    v: u32,
) -> bool
    ensures fits { result ≡ patch_fits (expected xrecord.old xram.old xrom.old xbelt.old) kind at }
    ensures bytes { expected xrecord.new xram.new xrom.new xbelt.new ≡ patched (expected xrecord.old xram.old xrom.old xbelt.old) kind at v }
{
    match kind {
        1 => byte_slices::patch::<4>(xrecord, at, v),
        2 => byte_slices::patch::<1>(xrecord, at, v),
        3 => byte_slices::patch::<4>(xram, at, v),
        4 => byte_slices::patch::<4>(xrom, at, v),
        5 => byte_slices::patch::<4>(xbelt, at, v),
        _ => false,
    }
}

fn record_agrees(state: State, xrecord: &[u8]) -> bool
    ensures { result ≡ record_agrees xrecord.now state.processor state.timer }
{
    let mut written = [0u8; record_layout::LENGTH];
    let answer = record::write(state, &mut written);
    answer.is_ok() & byte_slices::same(&written, xrecord)
}

// `wanted` has the slot, times 256, and the EID.
#[tactic(auto, using(words::proofs::Conjunction::two), unfolding(crate::specs::Expected::told_agrees))]
fn told_agrees(wanted: u32, eid: u32, slot: u32) -> bool
    ensures { result ≡ told_agrees wanted eid slot }
{
    (eid == wanted % 256) & (slot == wanted / 256)
}

impl Expectation<'_> {
    // The EID and the slot, the record and all memory.
    #[tactic(auto, using(words::proofs::Conjunction::five), unfolding(crate::specs::Expected::agrees, crate::specs::Expected::memory_agrees))]
    pub fn agrees(
        self,
        state: State,
        ram: &[u8],
        rom: &[u8],
        belt: &[u8],
        eid: u32,
        slot: u32,
        wanted: u32,
    ) -> bool
        ensures { result ≡ agrees (expected_of self.entry) wanted (machine_of state ram.now rom.now belt.now) eid slot }
    {
        told_agrees(wanted, eid, slot)
            & record_agrees(state, self.record)
            & byte_slices::same(ram, self.ram)
            & byte_slices::same(rom, self.rom)
            & byte_slices::same(belt, self.belt)
    }
}
