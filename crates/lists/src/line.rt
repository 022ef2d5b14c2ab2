// What stands in the numbers of a line, one after the other. A slice stands as its length and then its words.
ghost use Rattle.std.specs.Prelude.{◌≡◌, length, min};
ghost use Rattle.std.proofs.lemmas.List.Edits.{sets};

use units::words::{copy_at, shorter};

// Room for a state or an answer. A longer slice is cut, and the lists have none.
pub const STATE: usize = 16;

// The same for a store or a ring.
pub const STORE: usize = 64;

// The numbers of a line that are still to be read.
#[derive(Drop)]
pub struct Fields<'a> {
    rest: &'a [u64],
}

impl<'a> Fields<'a> {
    pub fn of(line: &'a [u64]) -> Self {
        Fields { rest: line }
    }

    // The next number, 0 where the line has none.
    pub fn number(&mut self) -> u64 {
        let Some((number, rest)) = self.rest.split_first() else {
            return 0;
        };
        self.rest = rest;
        *number
    }

    // The words of the next slice: as many as its length says, or as the line has.
    pub fn slice(&mut self) -> &'a [u64] {
        let told = self.number() as usize;
        let (words, rest) = self.rest.split_at(told.min(self.rest.len()));
        self.rest = rest;
        words
    }

    // The same, copied to the front of `out`: as many as it has room for, and nothing else of it.
    pub fn copied<'b>(&mut self, out: &'b mut [u64]) -> &'b mut [u64] {
        let words = self.slice();
        let count = copy_front(out, words);
        &mut out[..count]
    }
}

// Copies words to the front of `out`, as many as it has room for, and tells how many.
fn copy_front(out: &mut [u64], words: &[u64]) -> usize
    ensures copied { out.new ≡ sets out.old 0 words.now }
    ensures count { result ≡ min (length words.now) (length out.old) }
{
    copy_at(out, 0, words);
    shorter(words.len(), out.len())
}
