//! Tables that count how often inodes are named.
ghost use Rattle.std.specs.Prelude.{◌≡◌, ◌+◌, ◌<◌, ◌≤◌, ◌++◌, ◌∷◌, [], ◌==◌, ℕ, List, length, drop, filter, slice_index};
ghost use Rattle.damage_places.specs.Vocabulary.{slot_number, slot_numbers, Tallies};

use crate::slots::slot_number;
use fs_layout::Dirent;

/// Counts one more naming of inode n, if the table has it. A count stops at the greatest u16, which no inode's count reaches.
pub fn tally(table: &mut [u16], n: u16)
    ensures { (xs : List ℕ) → Tallies table.old xs → Tallies table.new (xs ++ n ∷ []) }
{
    let place = n as usize;
    if place < table.len() {
        table[place] = table[place].saturating_add(1);
    }
}

fn tally_slot(table: &mut [u16], slot: &Option<Dirent>)
    ensures { (xs : List ℕ) → Tallies table.old xs → Tallies table.new (xs ++ slot_number slot.now) }
{
    if let Some(n) = slot_number(slot) {
        tally(table, n);
    }
}

/// Counts the inodes that slots name.
pub fn tally_slots(table: &mut [u16], slots: &[Option<Dirent>])
    ensures { (xs : List ℕ) → Tallies table.old xs → Tallies table.new (xs ++ slot_numbers slots.now) }
{
    for s in 0..slots.len() {
        tally_slot(table, &slots[s]);
    }
}

/// The ".." of inode n, or 0.
pub fn up_of(ups: &[u16], n: u16) -> u16
    ensures { result ≡ slice_index ups.now n }
{
    let place = n as usize;
    if place < ups.len() { ups[place] } else { 0 }
}

fn tally_proper_slot(table: &mut [u16], slot: &Option<Dirent>, ups: &[u16], d: u16)
    ensures { (xs : List ℕ) → Tallies table.old xs
        → Tallies table.new (xs ++ filter (λ n. slice_index ups.now n == d) (slot_number slot.now)) }
{
    if let Some(n) = slot_number(slot) {
        if up_of(ups, n) == d {
            tally(table, n);
        }
    }
}

/// Counts the inodes that slots of directory d name and whose ".." is d.
pub fn tally_proper(table: &mut [u16], slots: &[Option<Dirent>], ups: &[u16], d: u16)
    ensures { (xs : List ℕ) → Tallies table.old xs
        → Tallies table.new (xs ++ filter (λ n. slice_index ups.now n == d) (slot_numbers slots.now)) }
{
    for s in 0..slots.len() {
        tally_proper_slot(table, &slots[s], ups, d);
    }
}

/// The slots past the first two.
pub fn past_dots(slots: &[Option<Dirent>]) -> &[Option<Dirent>]
    ensures { result.now ≡ drop 2 slots.now }
{
    &slots[slots.len().min(2)..]
}
