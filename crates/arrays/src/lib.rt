// Arrays of words in byte slices, big-endian: read and written over a stride.
#![tactic(auto)]

ghost use Rattle.std.specs.Prelude.{◌≡◌, ◌+◌, ◌*◌, ◌≤◌, length};
ghost use Rattle.arrays.specs.Numbers.{words_at, words_put};

// Words from an offset on, each `stride` bytes after the one before.
pub fn get_words(s: &[u8], at: usize, stride: usize, words: &mut [u32])
    requires { at + length words.old * stride + 4 ≤ length s.now + stride }
    ensures { words.new ≡ words_at (length words.old) s.now at stride }
{
    for (i, word) in words.iter_mut().enumerate() {
        *word = endian::read::<4>(s, at + i * stride);
    }
}

pub fn put_words(s: &mut [u8], at: usize, stride: usize, words: &[u32])
    requires { at + length words.now * stride + 4 ≤ length s.old + stride }
    ensures { s.new ≡ words_put s.old at stride words.now }
{
    for (i, word) in words.iter().enumerate() {
        endian::write::<4>(s, at + i * stride, *word);
    }
}
