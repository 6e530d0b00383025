//! Numbers that come twice.
ghost use Rattle.std.specs.Prelude.{◌≡◌, ◌≢◌, ◌<◌, length, All, slice_index};
ghost use Rattle.std.specs.Option.{MatchOption};
ghost use Rattle.damage_places.specs.Vocabulary.{IsOnce};
ghost use Rattle.damage_places.specs.Places.{IsFirstRepeat};

/// A place of a number, if it is there.
pub fn place_of(numbers: &[u32], b: u32) -> Option<usize>
    ensures { MatchOption result (All (λ c. c ≢ b) numbers.now)
        (λ k. (k < length numbers.now) × (slice_index numbers.now k ≡ b)) }
{
    for k in 0..numbers.len() {
        if numbers[k] == b {
            return Some(k);
        }
    }
    None
}

/// The first number that comes a second time: both its places.
pub fn first_repeat(numbers: &[u32]) -> Option<(usize, usize)>
    ensures { MatchOption result (IsOnce numbers.now) (λ p. IsFirstRepeat numbers.now p.0 p.1) }
{
    for k in 0..numbers.len() {
        if let Some(first) = place_of(&numbers[..k], numbers[k]) {
            return Some((first, k));
        }
    }
    None
}
