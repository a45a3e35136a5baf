// Cycle charges (document 02, job 3): what a step costs, and the sum of a run.
#![tactic(auto)]

ghost use Rattle.std.specs.Prelude.{◌≡◌, ◌+◌, ◌^◌, ◌≤◌, ◌<◌, length};
ghost use Rattle.charges.specs.Charges.{charges_length, charge_at, charge_of};
ghost use Rattle.charges.specs.Code.{charging_of, IsWhole};

// The bytes of a list of charges.
pub const LENGTH: usize = 130;

// The entry of a step that accepts an exception; those before it are the opcodes'.
pub const EXCEPTION: u32 = 64;

// Entry `i`, and that it is below 65,536, for the sum of several.
fn charge_at(charges: &[u8], i: u32) -> u64
    requires { (length charges.now ≡ charges_length) × (i ≤ 64) }
    ensures { (result ≡ charge_at charges.now i) × (result < 65536) }
{
    let at = (i * 2) as usize;
    u64::from(endian::read::<2>(charges, at))
}

// What a run has cost with one step more, by that step's entry.
pub fn added(total: u64, charges: Option<&[u8]>, entry: u32) -> u64
    requires { IsWhole charges × (entry ≤ 64) × (total < 2 ^ 63) }
    ensures { (result ≡ total + charge_of (charging_of charges.entry) entry) × (result ≤ total + 65535) }
{
    match charges {
        Some(list) => total + charge_at(list, entry),
        None => total,
    }
}
