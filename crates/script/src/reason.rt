//! Why a line is bad, for whoever wrote it.
use arrayvec::ArrayVec;
use std::fmt;
use std::fmt::{Display, Formatter, Write};

/// How many bytes of a word a reason shows.
const MOST_SHOWN: usize = 32;

/// A word of a script as a reason shows it: its first 32 bytes, those that aren't printed as `\x` and two digits.
#[derive(Debug, Clone, PartialEq, Drop)]
pub struct Shown {
    bytes: ArrayVec<u8, MOST_SHOWN>,
    is_cut: bool,
}

impl Shown {
    /// The word, or its first bytes.
    pub fn new(word: &[u8]) -> Shown {
        let mut bytes = ArrayVec::new();
        for byte in word.iter().take(MOST_SHOWN) {
            let _ = bytes.try_push(*byte);
        }
        Shown {
            bytes,
            is_cut: word.len() > MOST_SHOWN,
        }
    }
}

impl Display for Shown {
    fn fmt<W: Write>(&self, f: &mut Formatter<W>) -> fmt::Result {
        for byte in self.bytes.as_slice() {
            match byte {
                b'!'..=b'~' => write!(f, "{}", char::from(*byte))?,
                _ => write!(f, "\\x{byte:02x}")?,
            }
        }
        if self.is_cut {
            write!(f, "..")?;
        }
        Ok(())
    }
}

/// Why a line is no command.
#[derive(Debug, Clone, PartialEq, Drop)]
pub enum Reason {
    /// The line ends in a byte 0x0d, as those of some editors do.
    CarriageReturn,
    /// The line has no word.
    EmptyWord,
    /// The line begins with a space.
    SpaceBefore,
    /// The line ends with a space.
    SpaceBehind,
    /// Two spaces are beside one another.
    DoubledSpace,
    /// Spaces separate words, even between quotation marks.
    Quoted,
    /// The line begins with a call's word, and no hart.
    HartMissing(Shown),
    /// More words come after one that has a line of its own at a prompt.
    StandsAlone(Shown),
    /// The first word is neither the word of a command nor a number.
    NoSuchCommand(Shown),
    /// More words than any command has.
    TooManyWords,
    /// The line has fewer words than this, or more.
    Wanted(&'static str),
    /// The word after the hart is no call's.
    UnknownCall(Shown),
    /// This word is no number, or one that doesn't fit a u32.
    NumberWanted(&'static str),
    /// This word is no number from 0 to 255.
    HartWanted(&'static str),
    /// This word begins with `hex:`, and what follows isn't pairs of hexadecimal digits.
    PairsWanted(&'static str),
    /// The word is no kind of step.
    UnknownKind(Shown),
}

impl Display for Reason {
    fn fmt<W: Write>(&self, f: &mut Formatter<W>) -> fmt::Result {
        match self {
            Reason::CarriageReturn => write!(f, "ends in a carriage return"),
            Reason::EmptyWord => write!(f, "no word"),
            Reason::SpaceBefore => write!(
                f,
                "begins with a space: a single one between words, and none at an end"
            ),
            Reason::SpaceBehind => write!(
                f,
                "ends with a space: a single one between words, and none at an end"
            ),
            Reason::DoubledSpace => write!(
                f,
                "two spaces beside one another: a single one between words, and none at an end"
            ),
            Reason::Quoted => write!(
                f,
                "quotation marks don't keep words together: bytes with a space among them are written as hex: and pairs of digits, hex:2f612062 for /a b"
            ),
            Reason::HartMissing(word) => write!(
                f,
                "a call wants a hart before it, from 0 to 7: 0 {word} .."
            ),
            Reason::StandsAlone(word) => write!(f, "no more words stand behind {word}"),
            Reason::NoSuchCommand(word) => write!(
                f,
                "no such command: {word} (do, step, upto, end, all, or a hart's number; at a prompt also state, help, quit)"
            ),
            Reason::TooManyWords => write!(f, "more words than a command has"),
            Reason::Wanted(words) => write!(f, "wanted: {words}"),
            Reason::UnknownCall(word) => write!(
                f,
                "unknown call: {word} (open, read, write, fill, link, unlink, mkdir, chdir, dup, fstat, close, inherit)"
            ),
            Reason::NumberWanted(word) => write!(
                f,
                "a number from 0 to 4294967295 is wanted: {word}"
            ),
            Reason::HartWanted(word) => write!(f, "a number from 0 to 255 is wanted: {word}"),
            Reason::PairsWanted(word) => write!(
                f,
                "pairs of hexadecimal digits are wanted after hex: {word}"
            ),
            Reason::UnknownKind(word) => write!(
                f,
                "unknown kind of step: {word} (lock, unlock, get, read, put, join, leave, commit, up, down, slot, reply)"
            ),
        }
    }
}
