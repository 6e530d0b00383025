//! The words of a program's command line.
use std::alloc::AllocError;
use std::env::{Env, FillError};
use std::fmt::{Display, Formatter, Write};
use std::{env, fmt, io, str};
use thiserror::Error;

/// The most bytes of a word that is no text which are read, to show it.
const MOST_SHOWN: usize = 4096;

/// A word that is no text, for the person who typed it: each byte that isn't a printed letter as `\x` and two digits.
#[derive(Debug, Drop)]
pub struct OddWord {
    // The program's name is word 0.
    place: usize,
    bytes: Vec<u8>,
}

impl Display for OddWord {
    fn fmt<W: Write>(&self, f: &mut Formatter<W>) -> fmt::Result {
        write!(f, "word {}: \"", self.place)?;
        for byte in self.bytes.as_slice() {
            match byte {
                b'"' | b'\\' => write!(f, "\\{}", char::from(*byte))?,
                b' '..=b'~' => write!(f, "{}", char::from(*byte))?,
                _ => write!(f, "\\x{byte:02x}")?,
            }
        }
        write!(f, "\"")
    }
}

/// Why the words aren't read.
#[derive(Debug, Drop, Error)]
pub enum WordsRefused {
    /// Names are UTF-8 text, as the toolchain's paths are.
    #[error("{0}: is no UTF-8 text, as names have to be")]
    NoText(OddWord),
    #[error("the command line: {0}")]
    Unread(io::Error),
    #[error("out of memory")]
    NoMemory,
}

impl From<AllocError> for WordsRefused {
    fn from(_error: AllocError) -> WordsRefused {
        WordsRefused::NoMemory
    }
}

// The first word that is no text. A very long one is passed over.
fn odd_word(rt: &HostRuntime) -> Result<Option<OddWord>, AllocError> {
    let mut buffer = vec![in rt.alloc(); 0; MOST_SHOWN]?;
    for place in 0..usize::MAX {
        match rt.arg(place, buffer.as_mut_slice()) {
            Ok(count) => {
                let word = buffer.as_slice().get(..count).unwrap_or(&[]);
                if str::from_utf8(word).is_err() {
                    let bytes = Vec::from_slice(rt.alloc(), word)?;
                    return Ok(Some(OddWord { place, bytes }));
                }
            }
            Err(FillError::TooLong) => {}
            Err(FillError::NotPresent) => break,
        }
    }
    Ok(None)
}

/// The command line's words, the program's name first. If a word is no text, the error names the first such word that
/// is short enough to show.
pub fn read_words(rt: &HostRuntime) -> Result<Vec<String>, WordsRefused> {
    match env::args(rt) {
        Ok(words) => Ok(words.collect(rt.alloc())?),
        Err(error) if error.kind() == io::ErrorKind::OutOfMemory => Err(WordsRefused::NoMemory),
        Err(error) => match odd_word(rt)? {
            Some(word) => Err(WordsRefused::NoText(word)),
            None => Err(WordsRefused::Unread(error)),
        },
    }
}
