// The page view: the part of the lent RAM behind a virtual page (document 01, "Runs and views").
#![tactic(auto)]

ghost use Rattle.std.specs.Prelude.{◌≡◌};
ghost use Rattle.refusals.specs.Code.{answer_number};
ghost use Rattle.page_view.specs.View.{view_refusal, viewed, view_of};
ghost use Rattle.page_view.specs.Part.{view_part, part_ptr};
ghost use Rattle.page_view.specs.Code.{viewed_as, slot_of};

use processor::Processor;
use refusals::Refusal;
use translation::Width;

// U_C is 0.
const KERNEL_MODE: u32 = 0;

const FRAME_BYTES: u64 = 4096;

// The slot that served the lookup, and where the part lies in RAM.
#[derive(Clone, Copy, Debug, PartialEq, Eq)]
pub struct Frame {
    pub slot: u32,
    pub offset: u64,
    pub length: u64,
}

pub fn locate(ram: &[u8], p: Processor, page: u64) -> Result<Frame, Refusal>
    ensures { viewed_as result ≡ view_of ram.now p page }
{
    if !refusals::ram_accepted(ram.len()) {
        return Err(Refusal::RamLength);
    }
    if !machine::is_fit(p) {
        return Err(Refusal::Unfit);
    }
    if 0xF_FFFF < page {
        return Err(Refusal::NoFrame);
    }
    let address = page as u32 * 0x1000;
    let found = translation::translate(
        KERNEL_MODE,
        &p.tlbhigh,
        &p.tlblow,
        Width::Byte,
        false,
        address,
    );
    let Ok(physical) = found else {
        return Err(Refusal::NoFrame);
    };
    if ram.len() <= physical.address as usize {
        return Err(Refusal::NoFrame);
    }
    Ok(Frame {
        slot: physical.slot,
        offset: physical.address as u64,
        length: FRAME_BYTES,
    })
}

// struct eco32_view: the refusal or 0, the slot that served the lookup, and where the part lies in RAM. Where refused, the slot is 33, and offset
// and length are 0.
#[repr(C)]
#[derive(Clone, Copy, Debug, PartialEq, Eq)]
pub struct View {
    pub refusal: u32,
    pub slot: u32,
    pub offset: u64,
    pub length: u64,
}

impl From<Result<Frame, Refusal>> for View {
    ghost from_gives = { λ answer view. viewed view.refusal view.slot view.offset view.length ≡ viewed_as answer };

    fn from(answer: Result<Frame, Refusal>) -> View {
        match answer {
            Ok(frame) => View {
                refusal: 0,
                slot: frame.slot,
                offset: frame.offset,
                length: frame.length,
            },
            Err(refusal) => View {
                refusal: refusal.into(),
                slot: tlb::NO_SLOT,
                offset: 0,
                length: 0,
            },
        }
    }
}

// The slot that served the lookup, or the refusal; and the part of the lent RAM: 4,096 bytes, or none where refused.
#[derive(Clone, Copy)]
pub struct Part<'a> {
    pub slot: Result<u32, Refusal>,
    pub part: &'a [u8],
}

// The part is of the caller's RAM itself. A refused view hands out an empty one, so it stands beside the Result.
pub fn page_view<'a>(ram: &'a [u8], p: Processor, page: u64) -> Part<'a>
    ensures refusal { answer_number result.slot ≡ view_refusal ram.now p page }
    ensures slot { slot_of result.slot ≡ (view_of ram.now p page).slot }
    ensures part { result.part.now ≡ view_part ram.now p page }
    ensures pointer { result.part.ref_ptr ≡ part_ptr ram.entry.ref_ptr ram.now p page }
{
    match locate(ram, p, page) {
        Ok(frame) => {
            let start = frame.offset as usize;
            let end = start + frame.length as usize;
            Part {
                slot: Ok(frame.slot),
                part: &ram[start..end],
            }
        }
        Err(refusal) => Part {
            slot: Err(refusal),
            part: &ram[..0],
        },
    }
}
