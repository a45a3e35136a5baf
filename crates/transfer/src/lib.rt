// Loads and stores (manual, 3.5).
#![tactic(auto)]

ghost use Rattle.std.specs.Prelude.{◌≡◌, ℕ, get_or};
ghost use Rattle.instructions.specs.Operands.{field_y, simple, illegal};
ghost use Rattle.access.specs.Code.{surroundings_of, read_of};
ghost use Rattle.transfer.specs.Transfer.{address_of, landed, transfers};
ghost use Rattle.transfer.specs.Code.{Computes, stored_bytes};
ghost use Rattle.translation.specs.Translation.{bytes_of};
ghost use Rattle.instructions.specs.Code.{action_of, operands_of};

use access::{Fault, Fetched, Surroundings};
use instructions::{Coded, Operands};
use translation::Width;
use words::extension::{sign_extend, zero_extend};

// The address of a load or a store.
fn address_of(o: Operands) -> u32
    ensures { result ≡ address_of (operands_of o) }
{
    sums::add(o.x, o.immediate_s())
}

// The end of a load: the value extended into its register, or the fault with its address.
fn land<F: Fn(u32) -> u32>(
    read: Result<Fetched, Fault>,
    extend: F,
    address: u32,
    o: Operands,
) -> Coded
    ghost extended: { ℕ → ℕ }
    requires callable { F.IsAlwaysCallable extend }
    requires computes { Computes (F.post extend) extended }
    ensures { action_of result ≡ landed extended (field_y o.word) address o.next (read_of read) }
{
    match read {
        Ok(at) => Coded::Write {
            register: o.field_y(),
            value: extend(at.value),
            next: o.next,
            slot: at.slot,
        },
        Err(fault) => Coded::Exception {
            eid: fault.eid(),
            address,
        },
    }
}

// The width of a store, by the opcode counted from LDW: STW, STH, STB.
#[tactic(auto, unfolding(crate::specs::Code::stored_bytes))]
fn stored(kind: u32) -> Width
    ensures { bytes_of result ≡ stored_bytes kind }
{
    match kind {
        5 => Width::Word,
        6 => Width::Half,
        _ => Width::Byte,
    }
}

// Opcodes 30 to 37, counted from 0. One call makes the three stores: of three the compiler makes a function that is called (docs/SPEED.md).
pub fn transfer<'a>(s: Surroundings<'a>, kind: u32, o: Operands) -> Coded
    ensures { action_of result ≡ get_or transfers kind (simple illegal) (surroundings_of s.entry) (operands_of o) }
{
    let address = address_of(o);
    match kind {
        0 => land(s.read::<4>(address), |v| v, address, o),
        1 => land(s.read::<2>(address), sign_extend::<16>, address, o),
        2 => land(s.read::<2>(address), zero_extend::<16>, address, o),
        3 => land(s.read::<1>(address), sign_extend::<8>, address, o),
        4 => land(s.read::<1>(address), zero_extend::<8>, address, o),
        5..=7 => s.store(stored(kind), o.y, address),
        _ => o.illegal(),
    }
}
