//! What ends the program.
use crate::new_file::NewFileRefused;
use damage_places::Place;
use image_reports::ReportFault;
use mkfs::{ImageRefused, WordsRefused};
use std::alloc::AllocError;
use std::io;
use thiserror::Error;

/// Why the program didn't do what it was asked.
#[derive(Debug, Drop, Error)]
pub enum Fault<'a> {
    /// The command line has a word that is no text.
    #[error("{0}")]
    Words(WordsRefused),
    /// The path is no path.
    #[error("error: invalid value '{0}' for '<PATH>': pairs of hexadecimal digits are wanted after hex:")]
    NoDigits(&'a str),
    /// There is no such part.
    #[error("error: invalid value '{0}' for '<PART>': superblock, log, inode NUMBER or directory NUMBER is wanted")]
    NoPart(&'a str),
    /// The image's file can't be read, or is too large.
    #[error("{0:?}: {1}")]
    Image(&'a str, ImageRefused),
    /// The image isn't taken.
    #[error("{0:?}: {1}")]
    Refused(&'a str, ReportFault),
    /// The image is damaged, at this place.
    #[error("{0:?}: {1}: {2}")]
    Damaged(&'a str, ReportFault, Place),
    /// There is no such path in the image.
    #[error("{0:?}: {1:?}: {2}")]
    Path(&'a str, &'a str, ReportFault),
    /// The report can't be written.
    #[error("{0}")]
    Report(ReportFault),
    /// The new file can't be written.
    #[error("{0:?}: {1}")]
    File(&'a str, NewFileRefused),
    #[error("no memory")]
    Memory,
}

impl<'a> From<AllocError> for Fault<'a> {
    fn from(_error: AllocError) -> Fault<'a> {
        Fault::Memory
    }
}

impl<'a> Fault<'a> {
    /// What came of reading the words of the command line.
    pub fn of_words(refused: WordsRefused) -> Fault<'a> {
        match refused {
            WordsRefused::NoMemory => Fault::Memory,
            refused => Fault::Words(refused),
        }
    }

    /// What came of reading the image's file.
    pub fn of_image(image: &'a str, refused: ImageRefused) -> Fault<'a> {
        match refused {
            ImageRefused::NoMemory => Fault::Memory,
            refused => Fault::Image(image, refused),
        }
    }

    /// What came of writing answers.
    pub fn of_answers(error: io::Error) -> Fault<'a> {
        if error.kind() == io::ErrorKind::OutOfMemory {
            return Fault::Memory;
        }
        Fault::Report(ReportFault::Write(error))
    }

    /// What came of a report.
    pub fn of_report(image: &'a str, path: &'a str, fault: ReportFault) -> Fault<'a> {
        match fault {
            ReportFault::Memory => Fault::Memory,
            ReportFault::NoPath
            | ReportFault::NoFile
            | ReportFault::NoInode
            | ReportFault::NoDirectory => Fault::Path(image, path, fault),
            ReportFault::Write(error) => Fault::of_answers(error),
            ReportFault::TooLong => Fault::Report(fault),
            fault => Fault::Refused(image, fault),
        }
    }

    /// What came of writing a new file.
    pub fn of_file(path: &'a str, refused: NewFileRefused) -> Fault<'a> {
        match refused {
            NewFileRefused::NoMemory => Fault::Memory,
            refused => Fault::File(path, refused),
        }
    }

    /// The program's exit status.
    pub fn status(&self) -> u8 {
        match self {
            Fault::Words(_) | Fault::NoDigits(_) | Fault::NoPart(_) => 2,
            Fault::Memory => 3,
            _ => 1,
        }
    }
}
