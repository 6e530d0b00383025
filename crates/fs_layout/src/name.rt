//! The name of an element of a directory.
ghost use Rattle.std.specs.Prelude.{◌≡◌, ℕ, List};
ghost use Rattle.std.specs.Option.{SomeIff};
ghost use Rattle.fs_layout.specs.Vocabulary.{Version};
ghost use Rattle.fs_layout.specs.Name.{IsAnyName, IsName};

use arrayvec::ArrayVec;
use image_versions::Version;
use image_versions::widths::LONGEST_NAME;
use std::marker::Model;

/// A name of some version: 1 to 30 bytes, none of them 0 or '/'.
#[derive(Drop)]
pub struct Name {
    bytes: ArrayVec<u8, LONGEST_NAME>,
}

impl Model for Name {
    ghost use Rattle.std.specs.Prelude.{ℕ, List};
    ghost use Rattle.fs_layout.specs.Name.{IsAnyName};

    ghost Value = { List ℕ };

    ghost view = { λ n. n.bytes.items };

    ghost invariant = { λ n. IsAnyName n.bytes.items };
}

impl Name {
    /// The name of these bytes, if they are one of this version.
    pub fn new(version: Version, bytes: &[u8]) -> Option<Name>
        ensures { SomeIff result (IsName version bytes.now) bytes.now }
    {
        if bytes.is_empty() || bytes.len() > version.name_len() || !are_name_bytes(bytes) {
            return None;
        }
        let bytes = ArrayVec::try_from(bytes).ok()?;
        Some(Name { bytes })
    }

    /// Its bytes, with no padding.
    pub fn as_bytes(&self) -> &[u8]
        ensures value { result.now ≡ self.now }
        ensures name { IsAnyName self.now }
    {
        self.bytes.as_slice()
    }
}

/// A `Name` has room for the names of each version.
pub fn names_have_room()
    ensures { (v : Version) (name : List ℕ) → IsName v name → IsAnyName name }
{}

ghost use Rattle.std.specs.List.{list_all};
ghost use Rattle.fs_layout.specs.Name.{is_name_byte};

fn are_name_bytes(bytes: &[u8]) -> bool
    ensures { result ≡ list_all is_name_byte bytes.now }
{
    bytes.iter().all(|b| *b != 0 && *b != b'/')
}
