//! The disk as recovery leaves it.
ghost use Rattle.std.specs.Prelude.{◌≡◌, ◌≢◌, ◌+◌, ◌<◌, ℕ, List, length, slice_index};
ghost use Rattle.fs_layout.specs.Vocabulary.{block_at};
ghost use Rattle.fs_layout.specs.Recovered.{logged, recovered, sizes_of};

/// What the words for the recovered disk mean, block by block. A logged block has the bytes of its first copy after
/// the log's head, and any other block its own.
pub fn recovered_blocks()
    ensures copied { (disk : List (List ℕ)) (i : ℕ) → i < length (logged disk)
        → ((k : ℕ) → k < i → slice_index (logged disk) k ≢ slice_index (logged disk) i)
        → recovered disk (slice_index (logged disk) i) ≡ block_at disk ((sizes_of disk).logstart + 1 + i) }
    ensures others { (disk : List (List ℕ)) (b : ℕ) → ((i : ℕ) → i < length (logged disk) → slice_index (logged disk) i ≢ b)
        → recovered disk b ≡ block_at disk b }
{}
