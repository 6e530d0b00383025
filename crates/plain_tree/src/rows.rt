//! The definitions, computed on short runs from a fresh tree of 200 numbers; of version 1, if nothing else is said.
ghost use Rattle.std.specs.Prelude.{◌≡◌, [], ◌∷◌, codes};
ghost use Rattle.plain_tree.specs.Rows.{CutsNames, EmptiesUnderAWriter, FindsNothingInTheRemoved, KeepsTheOpenFile, KeepsWhatItMade, LinksWhileUnlinked, MakesDirectory, MakesLongerDirectory, ReadsRoot, RefusesWhatIsOutOfPlace, SharesItsOffset, StaysInTheRemoved, TakesItsRaiseBack, TakesNoElements, TellsLongNames, WritesInPieces};
ghost use Rattle.plain_tree.specs.Tree.{elements};
ghost use Rattle.image_versions.specs.declared.version.Version.TheVariants.{One, Two};

/// Empty elements of a path are dropped. Each other one is cut, in version 1 to 14 bytes.
pub fn cuts_elements()
    ensures { elements One (codes "//a//bcdefghijklmnopq/") ≡ codes "a" ∷ codes "bcdefghijklmno" ∷ [] }
{}

/// In version 2 an element of up to 30 bytes stays as it is, and a longer one is cut to 30.
pub fn keeps_elements()
    ensures { elements Two (codes "abcdefghijklmno/abcdefghijklmnp//0123456789012345678901234567890123")
        ≡ codes "abcdefghijklmno" ∷ codes "abcdefghijklmnp" ∷ codes "012345678901234567890123456789" ∷ [] }
{}

/// A fresh root answers as the root of a fresh disk: one link, 1024 bytes, and the entries "." and "..".
pub fn reads_root()
    ensures { ReadsRoot }
{}

/// A new directory has one link and 32 bytes, and its parent one link more.
pub fn makes_directory()
    ensures { MakesDirectory }
{}

/// In version 2 a new directory has 64 bytes, its entries 32 each.
pub fn makes_longer_directory()
    ensures { MakesLongerDirectory }
{}

/// A path without elements names the start itself, and has no parent.
pub fn takes_no_elements()
    ensures { TakesNoElements }
{}

/// A name of 14 bytes and a longer one that begins with it are one name.
pub fn cuts_names()
    ensures { CutsNames }
{}

/// Two names of 15 bytes that begin alike are one in version 1, which cuts them, and two in version 2.
pub fn tells_long_names()
    ensures { TellsLongNames }
{}

/// Between two pieces of a write another hart sees the first.
pub fn writes_in_pieces()
    ensures { WritesInPieces }
{}

/// A file that was emptied leaves a writer's offset past its end.
pub fn empties_under_a_writer()
    ensures { EmptiesUnderAWriter }
{}

/// A path through a removed directory leads nowhere, until it is made anew.
pub fn finds_nothing_in_the_removed()
    ensures { FindsNothingInTheRemoved }
{}

/// A removed current directory is kept, finds nothing and takes no name, and can be opened and read.
pub fn stays_in_the_removed()
    ensures { StaysInTheRemoved }
{}

/// A file whose only name goes while a link is under way keeps its bytes under the new name.
pub fn links_while_unlinked()
    ensures { LinksWhileUnlinked }
{}

/// Between its steps a link's raise is seen, and after a refused name the link takes it back.
pub fn takes_its_raise_back()
    ensures { TakesItsRaiseBack }
{}

/// After an inherit two harts read on from one offset.
pub fn shares_its_offset()
    ensures { SharesItsOffset }
{}

/// With all descriptors taken an open makes its file and answers that there is no room.
pub fn keeps_what_it_made()
    ensures { KeepsWhatItMade }
{}

/// A file without a name stays while it is open.
pub fn keeps_the_open_file()
    ensures { KeepsTheOpenFile }
{}

/// A step outside its place is refused and changes nothing.
pub fn refuses_what_is_out_of_place()
    ensures { RefusesWhatIsOutOfPlace }
{}
