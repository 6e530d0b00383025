//! The files that an image is made with.

/// A file to be put into the root of a new image.
#[derive(Drop)]
pub struct NewFile {
    /// Its name: 1 to 14 bytes, in version 2 up to 30, none of them zero or '/'. It isn't "." or "..", and no two files of an image
    /// have one name.
    pub name: Vec<u8>,
    /// Its content: at most 274,432 bytes.
    pub content: Vec<u8>,
}
