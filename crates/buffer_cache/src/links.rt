//! Rings of numbers: two arrays have the number after each number, and the one before it.
ghost use Rattle.std.specs.Prelude.{◌≡◌, ◌+◌, ◌≤◌, ◌<◌, ℕ, length, slice_index, slice_set};

/// Takes a number out of its ring: its neighbours are linked to each other.
pub(crate) fn unlink(next: &mut [u8], previous: &mut [u8], number: u8)
    requires within { (number < length next.old) × (number < length previous.old) }
    requires before { slice_index previous.old number < length next.old }
    requires behind { slice_index next.old number < length previous.old }
    ensures next { next.new ≡ slice_set next.old (slice_index previous.old number) (slice_index next.old number) }
    ensures previous { previous.new ≡ slice_set previous.old (slice_index next.old number) (slice_index previous.old number) }
{
    let behind = next[number as usize];
    let before = previous[number as usize];
    next[before as usize] = behind;
    previous[behind as usize] = before;
}

/// Puts a number into a ring, right after another one.
pub(crate) fn link_behind(next: &mut [u8], previous: &mut [u8], before: u8, number: u8)
    requires within { (number < length next.old) × (number < length previous.old) }
    requires before { before < length next.old }
    requires behind { slice_index next.old before < length previous.old }
    ensures next { next.new ≡ slice_set (slice_set next.old before number) number (slice_index next.old before) }
    ensures previous { previous.new ≡ slice_set (slice_set previous.old number before) (slice_index next.old before) number }
{
    let behind = next[before as usize];
    next[before as usize] = number;
    previous[number as usize] = before;
    next[number as usize] = behind;
    previous[behind as usize] = number;
}

/// Links all numbers in one ring, in their order.
pub(crate) fn link_all(next: &mut [u8], previous: &mut [u8])
    requires same { length next.old ≡ length previous.old }
    requires few { (1 ≤ length next.old) × (length next.old ≤ 256) }
    ensures next { (k : ℕ) → k + 1 < length next.new → slice_index next.new k ≡ k + 1 }
    ensures previous { (k : ℕ) → k + 1 < length next.new → slice_index previous.new (k + 1) ≡ k }
    ensures ends { (last : ℕ) → length next.new ≡ last + 1 → (slice_index next.new last ≡ 0) × (slice_index previous.new 0 ≡ last) }
{
    let last = next.len() - 1;
    next[last] = 0;
    previous[0] = last as u8;
    for number in 0..last {
        next[number] = number as u8 + 1;
        previous[number + 1] = number as u8;
    }
}
