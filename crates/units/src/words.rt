// Words of lent slices. Here, since the quorums, the log, the boundary and the lists all copy words, and count no further than there is room for.
ghost use Rattle.std.specs.Prelude.{◌≡◌, min};
ghost use Rattle.std.proofs.lemmas.List.Edits.{sets};

// The smaller of two lengths: the library's `min`, under the name that its promise and edit have (PROMISES.md).
pub fn shorter(a: usize, b: usize) -> usize
    ensures { result ≡ min a b }
{
    a.min(b)
}

// Copies `from` into `to`, from place `at` on: as many words as there is room for.
// Word by word: the library's copy of a slice calls `memmove`, which a caller in C with no C library would owe the archive (LINKING.md).
pub fn copy_at(to: &mut [u64], at: usize, from: &[u64])
    ensures { to.new ≡ sets to.old at from.now }
{
    let room = to.len() - shorter(at, to.len());
    let end = shorter(from.len(), room);
    for i in 0..end {
        to[at + i] = from[i];
    }
}
