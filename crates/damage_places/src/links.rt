//! Who names whom, as tables by inode number.
ghost use Rattle.std.specs.Prelude.{◌≡◌, ◌≢◌, ◌+◌, ◌-◌, ◌<◌, ◌≤◌, ◌++◌, ◌∷◌, [], ◌==◌, not, ℕ, List, length, filter, slice_index, slice_index_or, None, IfOk, OnOk};
ghost use Rattle.damage_places.specs.Vocabulary.{IsLayout, OnlyReads, HasGoodNumbers, IsUpTable, Tallies, further_in, gathered, last, named_in, number_in, proper_in, up};
ghost use Rattle.damage_places.specs.Tables.{IsLinks};
ghost use Rattle.damage_places.specs.Reads.{faults_with};

use crate::rows::push;
use crate::search_fault::SearchFault;
use crate::slots::slots_at;
use crate::tallies::{past_dots, tally, tally_proper, tally_slots};
use block_device::Device;
use fs_layout::Dirent;
use image_tree::Layout;
use std::alloc::{AllocError, Global};

/// By inode number: the ".." of a live directory, and how often slots of live directories name an inode.
#[derive(Drop)]
pub struct Links {
    /// The ".." of a live directory, and 0 for any other inode.
    pub ups: Vec<u16>,
    /// How many slots name it.
    pub names: Vec<u16>,
    /// How many slots past the first two do.
    pub further: Vec<u16>,
    /// How many of those are in the directory of its "..".
    pub proper: Vec<u16>,
    /// Of how many other directories it is the "..".
    pub children: Vec<u16>,
}

impl Links {
    /// Tables of no inode.
    pub fn empty(alloc: Global) -> Links {
        Links {
            ups: Vec::new(alloc),
            names: Vec::new(alloc),
            further: Vec::new(alloc),
            proper: Vec::new(alloc),
            children: Vec::new(alloc),
        }
    }
}

/// The number in a directory's second slot, or 0.
fn up_in(slots: &[Option<Dirent>]) -> u16
    ensures { result ≡ number_in (slice_index_or slots.now 1 None) }
{
    if slots.len() < 2 {
        return 0;
    }
    match &slots[1] {
        Some(Dirent::Used { number, .. }) => *number,
        _ => 0,
    }
}

fn find_ups<D: Device>(
    alloc: Global,
    device: &mut D,
    layout: &Layout,
) -> Result<Vec<u16>, SearchFault>
    requires layout { IsLayout (D.contents device.old) layout.now }
    requires numbers { HasGoodNumbers (D.contents device.old) }
    ensures table { IfOk result (λ ups. IsUpTable layout.now.version (D.contents device.old) ups.items) }
    ensures device { OnlyReads D.contents D.failures (faults_with result) device.old device.new }
{
    let mut ups = Vec::new(alloc);
    push(&mut ups, 0)?;
    for i in 1..layout.sizes.ninodes {
        let slots = slots_at(alloc, device, layout, i)?;
        push(&mut ups, up_in(slots.as_slice()))?;
    }
    Ok(ups)
}

/// Counts what the slots of all live directories name.
fn count_names<D: Device>(
    alloc: Global,
    device: &mut D,
    layout: &Layout,
    ups: &[u16],
    names: &mut [u16],
    further: &mut [u16],
    proper: &mut [u16],
) -> Result<(), SearchFault>
    requires layout { IsLayout (D.contents device.old) layout.now }
    requires numbers { HasGoodNumbers (D.contents device.old) }
    requires ups { IsUpTable layout.now.version (D.contents device.old) ups.now }
    requires names { Tallies names.old [] }
    requires further { Tallies further.old [] }
    requires proper { Tallies proper.old [] }
    ensures names { OnOk result (Tallies names.new
        (gathered (named_in layout.now.version (D.contents device.old)) (last (D.contents device.old)))) }
    ensures further { OnOk result (Tallies further.new
        (gathered (further_in layout.now.version (D.contents device.old)) (last (D.contents device.old)))) }
    ensures proper { OnOk result (Tallies proper.new
        (gathered (proper_in layout.now.version (D.contents device.old)) (last (D.contents device.old)))) }
    ensures device { OnlyReads D.contents D.failures (faults_with result) device.old device.new }
{
    for i in 1..layout.sizes.ninodes {
        let slots = slots_at(alloc, device, layout, i)?;
        tally_slots(names, slots.as_slice());
        tally_slots(further, past_dots(slots.as_slice()));
        tally_proper(proper, past_dots(slots.as_slice()), ups, i as u16);
    }
    Ok(())
}

/// Counts directory d for its "..", if that is another directory.
fn tally_parent(children: &mut [u16], up: u16, d: u16)
    ensures { (xs : List ℕ) → Tallies children.old xs → Tallies children.new (xs ++ filter (λ n. not (n == d)) (up ∷ [])) }
{
    if up != d {
        tally(children, up);
    }
}

/// Counts of how many other directories each is the "..".
fn count_children(ups: &[u16], children: &mut [u16])
    requires some { 0 < length ups.now }
    requires size { length ups.now ≤ 65536 }
    requires fresh { Tallies children.old [] }
    ensures { Tallies children.new (gathered (λ d. filter (λ n. not (n == d)) (slice_index ups.now d ∷ [])) (length ups.now - 1)) }
{
    for d in 1..ups.len() {
        tally_parent(children, ups[d], d as u16);
    }
}

fn zeros(alloc: Global, n: u32) -> Result<Vec<u16>, AllocError>
    ensures length { IfOk result (λ table. length table.items ≡ n) }
    ensures fresh { IfOk result (λ table. Tallies table.items []) }
{
    vec![in alloc; 0; n as usize]
}

/// All tables of an image.
pub fn find_links<D: Device>(
    alloc: Global,
    device: &mut D,
    layout: &Layout,
) -> Result<Links, SearchFault>
    requires layout { IsLayout (D.contents device.old) layout.now }
    requires numbers { HasGoodNumbers (D.contents device.old) }
    ensures links { IfOk result (IsLinks layout.now.version (D.contents device.old)) }
    ensures device { OnlyReads D.contents D.failures (faults_with result) device.old device.new }
{
    let ups = find_ups(alloc, device, layout)?;
    let mut names = zeros(alloc, layout.sizes.ninodes)?;
    let mut further = zeros(alloc, layout.sizes.ninodes)?;
    let mut proper = zeros(alloc, layout.sizes.ninodes)?;
    let mut children = zeros(alloc, layout.sizes.ninodes)?;
    count_names(
        alloc,
        device,
        layout,
        ups.as_slice(),
        &mut names,
        &mut further,
        &mut proper,
    )?;
    count_children(ups.as_slice(), &mut children);
    Ok(Links {
        ups,
        names,
        further,
        proper,
        children,
    })
}
