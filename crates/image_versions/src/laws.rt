//! How the widths of each version relate to one another. The functions do nothing: each carries laws, so that no
//! proof elsewhere asks which version it is.
ghost use Rattle.image_versions.specs.Laws.{BlocksHaveTheSlotsBelow, BlocksHoldEntries, ContentsHoldTheMostSlots, DirectoriesHaveWholeBlocks, EntriesAreWords, EntriesFillBlocks, EntriesLieApart, EntriesLieInBlocks, LaterNamesAreLonger, LengthsCountSlots, MagicsTellVersions, MagicsAreOfTheirVersion, MostSlotsFit, NewDirectoriesFit, NumbersAreOfVersions, NumbersTellVersions, PlacesLieInTheirBlocks, SlotsLieInTheirBlocks, SlotsLieInTheirContent, SlotsTakeBlocks, WidthsAreInRange};

/// The magic number of a version says which version it is, and no other number does. The version's own number says it
/// too, and each number between the first and the last is a version's.
pub fn magics_tell_versions()
    ensures tells { MagicsTellVersions }
    ensures only { MagicsAreOfTheirVersion }
    ensures numbers { NumbersTellVersions }
    ensures between { NumbersAreOfVersions }
{}

/// The places of a directory's entries.
pub fn entries_have_places()
    ensures widths { WidthsAreInRange }
    ensures fill { EntriesFillBlocks }
    ensures inside { EntriesLieInBlocks }
    ensures apart { EntriesLieApart }
    ensures slots { SlotsLieInTheirBlocks }
    ensures content { SlotsLieInTheirContent }
    ensures lengths { LengthsCountSlots }
    ensures most { ContentsHoldTheMostSlots }
    ensures new { NewDirectoriesFit }
    ensures blocks { BlocksHoldEntries }
    ensures fit { MostSlotsFit }
    ensures longer { LaterNamesAreLonger }
{}

/// The blocks of a directory's slots, and the words of a slot.
pub fn slots_have_blocks()
    ensures words { EntriesAreWords }
    ensures places { PlacesLieInTheirBlocks }
    ensures below { BlocksHaveTheSlotsBelow }
    ensures taken { SlotsTakeBlocks }
    ensures whole { DirectoriesHaveWholeBlocks }
{}
