//! `console [IMAGE] [--schedule listed|round] [--prompt] [--threads] [--last N] [--timeline] [--explain] [--check] [--save FILE]`: runs a script from standard input on a file system, and prints its answers;
//! with `--prompt` each line is answered when it is typed.
//!
//! Faults are reported in this order:
//! - the command line (status 2);
//! - an IMAGE file that can't be read, a FILE that can't be written, an image that isn't taken (status 1);
//! - the script (status 1 or 2);
//! - what only writing FILE shows (status 1).
//!
//! Want of memory is reported when it comes (status 3). After the line of a damaged image, one on standard error says
//! where the damage is.
#![tactic(auto)]

use clap::ArgMatches;
use clap::error::ErrorKind;
use clap::parser::ValueSource;
use console::{ConsoleFault, run_prompt, run_script, status};
use console_threads::{ThreadsFault, run_threads};
use damage_places::{Place, find_place_in};
use mkfs::{ImageRefused, SaveRefused, WordsRefused, read_image, read_words, save, try_to_save};
use script::{
    EXPLAIN, IMAGE, LAST, Mode, PROMPT, SAVE, SCHEDULE, Schedule, THREADS, TIMELINE, has_prompt,
    has_threads, mode_of, options,
};
use std::alloc::{AllocError, Global};
use std::io;
use std::io::{BufWriter, Write};
use std::process::ExitCode;
use std::sync::Wait;
use std::thread::Threads;
use thiserror::Error;

/// Why the console didn't reach its end.
#[derive(Debug, Drop, Error)]
enum Fault<'a> {
    /// The command line has a word that is no text.
    #[error("{0}")]
    Words(WordsRefused),
    /// The command line names a schedule that there isn't.
    #[error("error: invalid value for '--schedule <SCHEDULE>': listed or round is wanted")]
    Schedule,
    /// An image that is only examined isn't changed, so there is nothing to be saved.
    #[error("error: '--check' examines the image, and has nothing for '--save <FILE>' to write")]
    CheckAndSave,
    /// No script is run on an image that is only examined.
    #[error("error: '--check' examines the image, and runs no script: '--{0}' says how to run one")]
    CheckAndRun(&'static str),
    /// What is asked for goes by a whole script, and typed lines are none.
    #[error("error: '--prompt' answers each line when it is typed, and goes with no '--threads' or '--schedule round'")]
    Prompt,
    /// The image's file can't be read, or is too large.
    #[error("{0:?}: {1}")]
    Image(&'a str, ImageRefused),
    #[error("{0}")]
    Run(ConsoleFault),
    /// The image is damaged, and where.
    #[error("{0}")]
    Damaged(ConsoleFault, Place),
    /// What there is by threads alone.
    #[error("{0}")]
    Threads(ThreadsFault),
    /// The image can't be saved.
    #[error("{0}")]
    Save(SaveRefused),
}

impl<'a> From<AllocError> for Fault<'a> {
    fn from(_error: AllocError) -> Fault<'a> {
        Fault::Run(ConsoleFault::Memory)
    }
}

impl<'a> From<ConsoleFault> for Fault<'a> {
    fn from(fault: ConsoleFault) -> Fault<'a> {
        Fault::Run(fault)
    }
}

impl<'a> From<ThreadsFault> for Fault<'a> {
    fn from(fault: ThreadsFault) -> Fault<'a> {
        match fault {
            ThreadsFault::Console(fault) => Fault::Run(fault),
            fault => Fault::Threads(fault),
        }
    }
}

impl<'a> From<SaveRefused> for Fault<'a> {
    fn from(refused: SaveRefused) -> Fault<'a> {
        match refused {
            SaveRefused::NoMemory => Fault::Run(ConsoleFault::Memory),
            refused => Fault::Save(refused),
        }
    }
}

impl<'a> Fault<'a> {
    // What came of reading the words of the command line.
    fn of_words(refused: WordsRefused) -> Fault<'a> {
        match refused {
            WordsRefused::NoMemory => Fault::Run(ConsoleFault::Memory),
            refused => Fault::Words(refused),
        }
    }

    // What came of reading the image's file.
    fn of_image(path: &'a str, refused: ImageRefused) -> Fault<'a> {
        match refused {
            ImageRefused::NoMemory => Fault::Run(ConsoleFault::Memory),
            refused => Fault::Image(path, refused),
        }
    }

    // What came of writing answers.
    fn of_answers(error: io::Error) -> Fault<'a> {
        if error.kind() == io::ErrorKind::OutOfMemory {
            return Fault::Run(ConsoleFault::Memory);
        }
        Fault::Run(ConsoleFault::Write(error))
    }

    // The program's exit status.
    fn status(&self) -> u8 {
        match self {
            Fault::Words(_)
            | Fault::Schedule
            | Fault::CheckAndSave
            | Fault::CheckAndRun(_)
            | Fault::Prompt => 2,
            Fault::Image(..) | Fault::Save(_) => 1,
            Fault::Run(fault) | Fault::Damaged(fault, _) => status(fault),
            Fault::Threads(fault) => console_threads::status(fault),
        }
    }
}

// A refused image is reported on standard output, and on standard error where it is damaged; after a stop its line is
// there already.
fn tell(rt: &HostRuntime, fault: &Fault) -> io::Result<()> {
    match fault {
        Fault::Run(ConsoleFault::Image(_)) => println!(rt; "{fault}"),
        Fault::Damaged(_, place) => {
            println!(rt; "{fault}")?;
            eprintln!(rt; "{place}")
        }
        Fault::Run(ConsoleFault::Stopped(_)) => Ok(()),
        _ => eprintln!(rt; "{fault}"),
    }
}

// The command line's words.
fn words(rt: &HostRuntime) -> Result<Vec<String>, Fault<'static>> {
    read_words(rt).map_err(|refused| Fault::of_words(refused))
}

// The options that say how a script is run.
const RUNNING: [&str; 6] = [SCHEDULE, THREADS, PROMPT, LAST, TIMELINE, EXPLAIN];

// The first of them that the words give.
fn running_option(matches: &ArgMatches) -> Option<&'static str> {
    RUNNING
        .iter()
        .find(|id| matches.value_source(**id) == Some(ValueSource::CommandLine))
        .copied()
}

// How to run, if what is asked for goes together.
fn mode_in(matches: &ArgMatches) -> Result<Mode, Fault<'static>> {
    let Some(mode) = mode_of(matches) else {
        return Err(Fault::Schedule);
    };
    if mode.check && matches.get_str(SAVE).is_some() {
        return Err(Fault::CheckAndSave);
    }
    if mode.check {
        return match running_option(matches) {
            Some(id) => Err(Fault::CheckAndRun(id)),
            None => Ok(mode),
        };
    }
    if has_prompt(matches) && (has_threads(matches) || mode.schedule == Schedule::Round) {
        return Err(Fault::Prompt);
    }
    Ok(mode)
}

// A copy of the image's bytes; none if memory was refused.
fn copy_of(alloc: Global, image: Option<&Vec<u8>>) -> Option<Vec<u8>> {
    Vec::from_slice(alloc, image?.as_slice()).ok()
}

// The fault, with the place at which the image is damaged, if that is why it isn't taken.
fn with_place<'a>(alloc: Global, fault: Fault<'a>, image: Option<Vec<u8>>) -> Fault<'a> {
    match (fault, image) {
        (Fault::Run(ConsoleFault::Image(refused)), Some(image)) => {
            let fault = ConsoleFault::Image(refused);
            match find_place_in(alloc, image) {
                Ok(Some(place)) => Fault::Damaged(fault, place),
                _ => Fault::Run(fault),
            }
        }
        (fault, _) => fault,
    }
}

// Runs what the command line asks for. What was answered before a fault is printed.
fn run<'a, R: Threads + Wait + Sync>(
    rt: &HostRuntime,
    threads: &R,
    matches: &'a ArgMatches,
) -> Result<(), Fault<'a>> {
    let mode = mode_in(matches)?;
    let place = matches.get_str(SAVE);
    let (image, rest) = match matches.get_str(IMAGE) {
        Some(path) => {
            let file = read_image(rt, path).map_err(|refused| Fault::of_image(path, refused))?;
            (Some(file.bytes), Some(file.rest))
        }
        None => (None, None),
    };
    if let Some(path) = place {
        try_to_save(rt, path)?;
    }
    let mut out = BufWriter::new(rt.alloc(), io::writer(rt)).map_err(|error| Fault::of_answers(
        error,
    ))?;
    let copy = copy_of(rt.alloc(), image.as_ref());
    let ran = if has_threads(matches) && !mode.check {
        run_threads(threads, rt.alloc(), image, mode, rt.reader(), &mut out)
    } else if has_prompt(matches) {
        run_prompt(rt.alloc(), image, mode, &mut rt.reader(), &mut out).map_err(
            ThreadsFault::Console,
        )
    } else {
        run_script(rt.alloc(), image, mode, rt.reader(), &mut out).map_err(ThreadsFault::Console)
    };
    out.flush().map_err(|error| Fault::of_answers(error))?;
    let disk = match ran {
        Ok(disk) => disk,
        Err(fault) => return Err(with_place(rt.alloc(), Fault::from(fault), copy)),
    };
    if let Some(path) = place {
        let bytes = disk.into_bytes();
        save(rt, path, bytes.as_slice(), rest)?;
    }
    Ok(())
}

fn main(rt: HostRuntime) -> anyhow::Result<ExitCode> {
    let words = match words(&rt) {
        Ok(words) => words,
        Err(fault) => {
            tell(&rt, &fault)?;
            return Ok(ExitCode::from(fault.status()));
        }
    };
    let matches = match options(rt.alloc(), words.as_slice()) {
        Ok(matches) => matches,
        Err(error) if error.kind() == ErrorKind::OutOfMemory => {
            let fault = Fault::Run(ConsoleFault::Memory);
            tell(&rt, &fault)?;
            return Ok(ExitCode::from(fault.status()));
        }
        Err(error) => {
            error.print(&rt)?;
            return Ok(ExitCode::from(error.exit_code() as u8));
        }
    };
    match run(&rt, &rt, &matches) {
        Ok(()) => Ok(ExitCode::SUCCESS),
        Err(fault) => {
            tell(&rt, &fault)?;
            Ok(ExitCode::from(fault.status()))
        }
    }
}
