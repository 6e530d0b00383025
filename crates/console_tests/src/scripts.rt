//! Scripts, as the tests run them.
use block_device::MemoryDisk;
use console::{ConsoleFault, run_script};
use mkfs::{MakeRefused, NewFile, make};
use script::Mode;
use std::alloc::{AllocError, Global};
use std::io;
use std::test::Fail;

// An image of these sizes without files.
pub fn disk(alloc: Global, size: u32, ninodes: u32) -> Result<MemoryDisk, Fail> {
    made(alloc, size, ninodes, &[])
}

// An image of these sizes with the file `/f`, which has these bytes.
pub fn disk_with_f(
    alloc: Global,
    size: u32,
    ninodes: u32,
    bytes: &[u8],
) -> Result<MemoryDisk, Fail> {
    let file = NewFile {
        name: Vec::from_slice(alloc, b"f")?,
        content: Vec::from_slice(alloc, bytes)?,
    };
    made(alloc, size, ninodes, &[file])
}

fn made(alloc: Global, size: u32, ninodes: u32, files: &[NewFile]) -> Result<MemoryDisk, Fail> {
    match make(alloc, size, ninodes, files) {
        Ok(disk) => Ok(disk),
        Err(MakeRefused::NoMemory) => Err(Fail::from(AllocError)),
        Err(_) => Err(Fail::new("no disk")),
    }
}

// Runs a script once. Gives what it printed, and the fault that it ended with.
fn run_once(
    alloc: Global,
    image: Option<&[u8]>,
    mode: Mode,
    script: &[u8],
) -> Result<(Vec<u8>, Option<ConsoleFault>), AllocError> {
    let image = match image {
        Some(bytes) => Some(Vec::from_slice(alloc, bytes)?),
        None => None,
    };
    let mut out = Vec::new(alloc);
    let fault = run_script(alloc, image, mode, script, &mut out).err();
    Ok((out, fault))
}

pub fn is_refused_memory(fault: &ConsoleFault) -> bool {
    match fault {
        ConsoleFault::Memory => true,
        ConsoleFault::Write(error) => error.kind() == io::ErrorKind::OutOfMemory,
        _ => false,
    }
}

// Runs a script, once more if memory was refused.
pub fn run(
    alloc: Global,
    image: Option<&[u8]>,
    script: &[u8],
) -> Result<(Vec<u8>, Option<ConsoleFault>), AllocError> {
    run_in(alloc, image, Mode::default(), script)
}

// The image after a script on it.
pub fn image_after(alloc: Global, image: &[u8], script: &[u8]) -> Result<Vec<u8>, Fail> {
    let image = Vec::from_slice(alloc, image)?;
    let mut out = Vec::new(alloc);
    match run_script(alloc, Some(image), Mode::default(), script, &mut out) {
        Ok(disk) => Ok(disk.into_bytes()),
        Err(fault) => {
            if is_refused_memory(&fault) {
                return Err(Fail::from(AllocError));
            }
            Err(Fail::new("the script doesn't come to its end"))
        }
    }
}

pub fn run_in(
    alloc: Global,
    image: Option<&[u8]>,
    mode: Mode,
    script: &[u8],
) -> Result<(Vec<u8>, Option<ConsoleFault>), AllocError> {
    let (out, fault) = run_once(alloc, image, mode, script)?;
    let is_short = match &fault {
        Some(fault) => is_refused_memory(fault),
        None => false,
    };
    if is_short {
        return run_once(alloc, image, mode, script);
    }
    Ok((out, fault))
}

/// Whether a script prints these lines on an image.
pub fn prints(alloc: Global, image: &[u8], script: &str, lines: &str) -> Result<bool, AllocError> {
    let (out, fault) = run(alloc, Some(image), script.as_bytes())?;
    Ok(fault.is_none() && out.as_slice() == lines.as_bytes())
}
