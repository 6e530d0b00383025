//! What harts call, and what they are answered. To call it again takes no memory, because each reply hands its call
//! back.
use crate::workload::WorkloadError;
use plain_tree::{Answer, Bytes, Call, Cause, NodeType, Stat};
use std::alloc::{AllocError, Global};

// The descriptor that a first open gives.
const FIRST: u32 = 0;

/// An open's flag: to write.
pub const WRITE: u32 = 1;

/// An open's flag: the file is made if there is none.
pub const CREATE: u32 = 0x200;

/// An open's flag: the file is emptied.
pub const TRUNCATE: u32 = 0x400;

/// A call of a hart, whose number comes after each path.
#[derive(Clone, Copy)]
pub enum Ask {
    Open(&'static [u8], u32),
    /// An open of a name that isn't there.
    Miss(&'static [u8]),
    /// The state of an empty file, which has this number for hart 0, and the next ones for the others.
    Fstat(u16),
    /// The state of a descriptor that isn't open.
    Stray,
    Read(u32),
    Write(u32),
    Close,
    /// From the first path to the second.
    Link(&'static [u8], &'static [u8]),
    Unlink(&'static [u8]),
    Mkdir(&'static [u8]),
    Chdir(&'static [u8]),
}

/// A hart's call, and what it is answered.
#[derive(Drop)]
pub struct Row {
    pub hart: u8,
    pub call: Call,
    pub wanted: Answer,
}

/// Calls of several harts, `times` times one after the other.
#[derive(Drop)]
pub struct Wave {
    pub rows: Vec<Row>,
    pub times: u32,
}

fn path(alloc: Global, stem: &[u8], hart: u8) -> Result<Bytes, AllocError> {
    let mut path = Vec::from_slice(alloc, stem)?;
    path.extend_from_slice(&[b'0'.saturating_add(hart)])?;
    Ok(Bytes::new(path))
}

fn bytes(alloc: Global, count: u32) -> Result<Bytes, AllocError> {
    Ok(Bytes::new(vec![in alloc; b'y'; count as usize]?))
}

/// The call, with this hart's number after each path.
pub fn call(alloc: Global, ask: Ask, hart: u8) -> Result<Call, AllocError> {
    match ask {
        Ask::Open(stem, flags) => {
            let path = path(alloc, stem, hart)?;
            Ok(Call::Open { path, flags })
        }
        Ask::Miss(stem) => {
            let path = path(alloc, stem, hart)?;
            Ok(Call::Open { path, flags: 0 })
        }
        Ask::Fstat(_) | Ask::Stray => Ok(Call::Fstat { fd: FIRST }),
        Ask::Read(count) => {
            let buf = bytes(alloc, count)?;
            Ok(Call::Read { fd: FIRST, buf })
        }
        Ask::Write(count) => {
            let bytes = bytes(alloc, count)?;
            Ok(Call::Write { fd: FIRST, bytes })
        }
        Ask::Close => Ok(Call::Close { fd: FIRST }),
        Ask::Link(old, new) => {
            let old = path(alloc, old, hart)?;
            let new = path(alloc, new, hart)?;
            Ok(Call::Link { old, new })
        }
        Ask::Unlink(stem) => {
            let path = path(alloc, stem, hart)?;
            Ok(Call::Unlink { path })
        }
        Ask::Mkdir(stem) => {
            let path = path(alloc, stem, hart)?;
            Ok(Call::Mkdir { path })
        }
        Ask::Chdir(stem) => {
            let path = path(alloc, stem, hart)?;
            Ok(Call::Chdir { path })
        }
    }
}

fn answer(ask: Ask, hart: u8) -> Answer {
    match ask {
        Ask::Open(_, _) => Answer::Fd(FIRST),
        Ask::Miss(_) => Answer::Failed(Cause::NoEntry),
        Ask::Fstat(inode) => Answer::Stat(Stat {
            device: 1,
            inode: inode.saturating_add(u16::from(hart)),
            kind: NodeType::File,
            nlink: 1,
            size: 0,
        }),
        Ask::Stray => Answer::Failed(Cause::BadDescriptor),
        Ask::Read(count) | Ask::Write(count) => Answer::Count(count),
        Ask::Close | Ask::Link(_, _) | Ask::Unlink(_) | Ask::Mkdir(_) | Ask::Chdir(_) => {
            Answer::Done
        }
    }
}

fn make_row(alloc: Global, hart: u8, ask: Ask) -> Result<Row, WorkloadError> {
    Ok(Row {
        hart,
        call: call(alloc, ask, hart)?,
        wanted: answer(ask, hart),
    })
}

fn rows(alloc: Global, harts: u8, ask: Ask) -> Result<Vec<Row>, WorkloadError> {
    let mut rows = Vec::new(alloc);
    for hart in 0..harts {
        rows.push(make_row(alloc, hart, ask)?)?;
    }
    Ok(rows)
}

/// The calls of one hart, one after the other.
pub fn plan(alloc: Global, hart: u8, asks: &[Ask]) -> Result<Vec<Row>, WorkloadError> {
    let mut rows = Vec::new(alloc);
    for ask in asks.iter().copied() {
        rows.push(make_row(alloc, hart, ask)?)?;
    }
    Ok(rows)
}

/// The calls of the first `harts` harts. Each of them makes the first call as often as its count says, then the
/// second one, and so on.
pub fn waves(alloc: Global, harts: u8, asks: &[(u32, Ask)]) -> Result<Vec<Wave>, WorkloadError> {
    let mut waves = Vec::new(alloc);
    for (times, ask) in asks.iter().copied() {
        let rows = rows(alloc, harts, ask)?;
        waves.push(Wave { rows, times })?;
    }
    Ok(waves)
}
