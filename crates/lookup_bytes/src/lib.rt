#![tactic(auto)]

// One table of words kept as bytes, four a slot, lowest first, read only.
ghost use Rattle.layout.specs.Bytes.{words_of};

use walks::Words;

// Bytes after the last whole word are none.
#[derive(Clone, Copy)]
pub struct Bytes<'a>(pub &'a [u8]);

#[tactic(auto, using(crate::proofs::Words::words_length, crate::proofs::Words::words_at))]
impl Words for Bytes<'_> {
    ghost words = { λ table. words_of table.0.now };

    fn size(self) -> usize {
        self.0.len() / 4
    }

    fn word(self, slot: usize) -> u32 {
        let at = 4 * slot;
        u32::from_le_bytes([self.0[at], self.0[at + 1], self.0[at + 2], self.0[at + 3]])
    }
}
