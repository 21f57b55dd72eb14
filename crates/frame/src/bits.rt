//! Numbers in the bits of a word.
// The casts lose nothing, which is proved; `try_from` would answer a refusal that cannot come.
ghost use Rattle.std.specs.Prelude.{◌+◌, ◌<◌, ◌≤◌};

// `count` bits, the lowest of them the bit `low`.
#[derive(Clone, Copy)]
pub(crate) struct BitField {
    pub low: u32,
    pub count: u32,
    ghost within: { (low < 32) × (count < 32) × (low + count ≤ 32) },
}

impl BitField {
    ghost use Rattle.std.specs.Prelude.{◌≡◌, ◌*◌, ◌^◌, ◌<◌, nat_lt};
    ghost use Rattle.frame.specs.Frames.{bits_of};

    // The number that a word holds there.
    pub(crate) fn get(self, word: u32) -> usize
        ensures { result ≡ bits_of word self.low self.count }
    {
        ((word >> self.low) & ((1 << self.count) - 1)) as usize
    }

    // Whether a number has no more bits.
    pub(crate) fn fits(self, value: usize) -> bool
        ensures { result ≡ nat_lt value (2 ^ self.count) }
    {
        value < 1 << self.count
    }

    // The word that holds a number there, and else zeros.
    pub(crate) fn put(self, value: usize) -> u32
        requires { value < 2 ^ self.count }
        ensures { result ≡ value * 2 ^ self.low }
    {
        (value as u32) << self.low
    }
}
