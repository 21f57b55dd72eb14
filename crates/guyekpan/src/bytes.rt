//! Words and positions in byte strings, highest byte first.
ghost use Rattle.std.specs.Prelude.{◌≡◌, ◌+◌, ◌*◌, ◌≤◌, length, slice_index};
ghost use Rattle.layout.specs.Blocks.{ZeroRun};
ghost use Rattle.guyekpan.specs.Bytes.{words_of, positions_of};

// Word number i of a string.
fn word(bytes: &[u8], i: usize) -> u32
    requires { i * 4 + 4 ≤ length bytes.now }
    ensures { result ≡ slice_index (words_of bytes.now) i }
{
    u32::from_be_bytes([
        bytes[i * 4],
        bytes[i * 4 + 1],
        bytes[i * 4 + 2],
        bytes[i * 4 + 3],
    ])
}

// Reads the words of a string into a run of their number.
pub(crate) fn read(bytes: &[u8], words: &mut [u32])
    requires { length bytes.now ≡ 4 * length words.old }
    ensures { words_of bytes.now ≡ words.new }
{
    for i in 0..words.len() {
        words[i] = word(bytes, i);
    }
}

// Writes words into a string of their length.
pub(crate) fn write(words: &[u32], bytes: &mut [u8])
    requires { length bytes.old ≡ 4 * length words.now }
    ensures { words_of bytes.new ≡ words.now }
{
    for (i, word) in words.iter().enumerate() {
        bytes[i * 4..i * 4 + 4].copy_from_slice(&word.to_be_bytes());
    }
}

// Fills a string with zeros.
pub(crate) fn clear(bytes: &mut [u8])
    ensures { ZeroRun bytes.new }
{
    bytes.fill(0);
}

// Position number i of a string.
fn position(bytes: &[u8], i: usize) -> usize
    requires { i * 2 + 2 ≤ length bytes.now }
    ensures { result ≡ slice_index (positions_of bytes.now) i }
{
    usize::from(u16::from_be_bytes([bytes[i * 2], bytes[i * 2 + 1]]))
}

// Reads the positions of a string into a list of their number.
pub(crate) fn read_positions(bytes: &[u8], positions: &mut [usize])
    requires { length bytes.now ≡ 2 * length positions.old }
    ensures { positions_of bytes.now ≡ positions.new }
{
    for i in 0..positions.len() {
        positions[i] = position(bytes, i);
    }
}
