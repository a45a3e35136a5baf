// Big-endian numbers of one to four bytes in byte slices: read and written.
#![tactic(auto)]

ghost use Rattle.std.specs.Prelude.{◌≡◌, ◌+◌, ◌≤◌, length};
ghost use Rattle.endian.specs.BigEndian.{read_at, write_at};

pub fn read<const N: usize>(s: &[u8], at: usize) -> u32
    requires inside { at + N ≤ length s.now }
    requires word { N ≤ 4 }
    ensures { result ≡ read_at N s.now at }
{
    let mut v = 0;
    for b in &s[at..at + N] {
        v = v * 0x100 + u32::from(*b);
    }
    v
}

// The last byte first: so the compiler makes one store of the whole number.
pub fn write<const N: usize>(s: &mut [u8], at: usize, v: u32)
    requires inside { at + N ≤ length s.old }
    requires word { N ≤ 4 }
    ensures { s.new ≡ write_at N s.old at v }
{
    let mut rest = v;
    for i in (0..N).rev() {
        s[at + i] = (rest % 0x100) as u8;
        rest /= 0x100;
    }
}
