// Byte slices compared, copied, cleared and patched.
#![tactic(auto)]

ghost use Rattle.std.specs.Prelude.{◌≡◌, ◌≤◌, length, replicate};
ghost use Rattle.byte_slices.specs.Same.{same};
ghost use Rattle.byte_slices.specs.Bytes.{copied, fits, patch};

// `==`, by the test that the definitions use.
#[tactic(auto, using(crate::proofs::SameLaws::same_pointwise))]
pub fn same(a: &[u8], b: &[u8]) -> bool
    ensures { result ≡ same a.now b.now }
{
    a == b
}

// A slice of another length is left as it is.
#[tactic(auto, unfolding(crate::specs::Bytes::copied))]
pub fn copy(to: &mut [u8], from: &[u8])
    ensures { to.new ≡ copied to.old from.now }
{
    if to.len() == from.len() {
        to.copy_from_slice(from);
    }
}

pub fn clear(s: &mut [u8])
    ensures { s.new ≡ replicate (length s.old) 0 }
{
    s.fill(0);
}

// A number that does not fit is not written.
#[tactic(auto, unfolding(crate::specs::Bytes::patch))]
pub fn patch<const N: usize>(s: &mut [u8], at: u32, v: u32) -> bool
    requires { N ≤ 4 }
    ensures fits { result ≡ fits N s.old at }
    ensures bytes { s.new ≡ patch N s.old at v }
{
    let start = at as usize;
    if s.len() < start + N {
        return false;
    }
    endian::write::<N>(s, start, v);
    true
}
