// The load and the store at a physical address, over the width. The timer answers words.
#![tactic(auto)]

ghost use Rattle.std.specs.Prelude.{◌≡◌, ◌+◌, ◌≤◌, length};
ghost use Rattle.memory.specs.Lent.{lent, left};
ghost use Rattle.endian.specs.BigEndian.{read_at, write_at};
ghost use Rattle.memory.specs.Access.{load_of, store_answer, access_width, memory_after, timer_after};
ghost use Rattle.memory.specs.Code.{loaded_of, stored_of};
ghost use Rattle.std.specs.Option.{unwrap_or};

use memory::Place;
use timer::Timer;

fn bytes_of(width: u32) -> u32
    ensures { result ≡ access_width width }
{
    match width {
        1 => 1,
        2 => 2,
        _ => 4,
    }
}

// The number in as many bytes of a slice as the width says.
fn read(s: &[u8], at: usize, width: u32) -> u32
    requires { at + access_width width ≤ length s.now }
    ensures { result ≡ read_at (access_width width) s.now at }
{
    match width {
        1 => endian::read::<1>(s, at),
        2 => endian::read::<2>(s, at),
        _ => endian::read::<4>(s, at),
    }
}

// The number at an address, or none where nothing answers.
pub fn load(
    timer: Timer,
    ram: &[u8],
    rom: &[u8],
    belt: &[u8],
    width: u32,
    address: u32,
) -> Option<u32>
    ensures { loaded_of result ≡ load_of (access_width width) timer (lent ram.now rom.now belt.now) address }
{
    let place = memory::place_of(bytes_of(width), ram.len(), rom.len(), belt.len(), address);
    match place {
        Place::Ram(at) => Some(read(ram, at as usize, width)),
        Place::Rom(at) => Some(read(rom, at as usize, width)),
        Place::Belt(at) => Some(read(belt, at as usize, width)),
        Place::Timer(at) => Some(timer.read(at)),
        Place::Nothing => None,
    }
}

// The low bytes of a number into a slice, as many as the width says.
fn write(s: &mut [u8], at: usize, width: u32, value: u32)
    requires { at + access_width width ≤ length s.old }
    ensures { s.new ≡ write_at (access_width width) s.old at value }
{
    match width {
        1 => endian::write::<1>(s, at, value),
        2 => endian::write::<2>(s, at, value),
        _ => endian::write::<4>(s, at, value),
    }
}

// The timer after a store, or none where nothing answers: nothing has changed then.
pub fn store(
    timer: Timer,
    ram: &mut [u8],
    rom: &[u8],
    belt: &mut [u8],
    width: u32,
    address: u32,
    value: u32,
) -> Option<Timer>
    ensures answer { stored_of result ≡ store_answer (access_width width) (lent ram.old rom.now belt.old) address }
    ensures timer { unwrap_or result timer ≡ timer_after (access_width width) timer (lent ram.old rom.now belt.old) address value }
    ensures contents { left ram.new rom.now belt.new ≡ memory_after (access_width width) (lent ram.old rom.now belt.old) address value }
{
    let place = memory::place_of(bytes_of(width), ram.len(), rom.len(), belt.len(), address);
    match place {
        Place::Ram(at) => {
            write(ram, at as usize, width, value);
            Some(timer)
        }
        Place::Rom(_) => Some(timer),
        Place::Belt(at) => {
            write(belt, at as usize, width, value);
            Some(timer)
        }
        Place::Timer(at) => {
            let mut written = timer;
            written.write(at, value);
            Some(written)
        }
        Place::Nothing => None,
    }
}
