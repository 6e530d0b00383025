//! `hostile_images COUNT [SEED]` examines COUNT damaged images, and compares each answer with that of a second
//! program. That one is slow: it makes the checks of docs/FORMATS.md one after the other. It prints how often each
//! answer came. On standard error it prints the longest time of an examination, and the most memory that the program
//! has had. The image of number k, from 0, is drawn from SEED + k, and SEED is 1 unless it is given. So one image can
//! be seen alone.
#![tactic(auto)]

mod damage;
mod sight;
mod slow;

use crate::damage::{damaged, whole};
use crate::slow::{Found, judge};
use anyhow::anyhow;
use block_device::MemoryDisk;
use image_tree::{MountFault, Shape, examine};
use image_versions::Version;
use std::alloc::{AllocError, Global};
use std::time::Instant;
use std::{env, fs};

// The number and the name of each answer, in the order of the checks.
const ANSWERS: [(u8, &str); 13] = [
    (0, "clean"),
    (51, "TooShort"),
    (52, "BadSuper"),
    (53, "BadLog"),
    (54, "BadType"),
    (62, "NoRoot"),
    (55, "BlockRange"),
    (56, "BlockShared"),
    (57, "BlockUnmarked"),
    (58, "BadSize"),
    (59, "BadEntry"),
    (60, "NotATree"),
    (61, "LinkCount"),
];

// What an examination answers, as the slow program says it.
fn as_found(answer: &Result<Shape, MountFault>) -> Found {
    match answer {
        Ok(shape) => Found {
            damage: 0,
            live: shape.live,
            orphans: shape.orphans,
            blocks: shape.blocks,
        },
        Err(fault) => Found {
            damage: fault.number(),
            live: 0,
            orphans: 0,
            blocks: 0,
        },
    }
}

// The results of all images.
#[derive(Drop)]
struct Tally {
    // how often each answer came
    counts: Vec<u64>,
    // the first image whose answers differ, with both
    differs: Option<(u64, Found, Found)>,
    // the longest time of an examination, in nanoseconds, and its image
    longest: (u128, u64),
}

impl Tally {
    fn note(&mut self, seed: u64, told: Found, judged: Found, nanoseconds: u128) {
        let place = ANSWERS
            .iter()
            .position(|answer| answer.0 == judged.damage)
            .unwrap_or(0);
        if let Some(count) = self.counts.get_mut(place) {
            *count = count.saturating_add(1);
        }
        if told != judged && self.differs.is_none() {
            self.differs = Some((seed, told, judged));
        }
        if self.longest.0 < nanoseconds {
            self.longest = (nanoseconds, seed);
        }
    }
}

fn try_images(rt: &HostRuntime, alloc: Global, count: u64, seed: u64) -> anyhow::Result<Tally> {
    let whole = whole(alloc)?;
    let mut tally = Tally {
        counts: vec![in alloc; 0u64; ANSWERS.len()]?,
        differs: None,
        longest: (0, seed),
    };
    for k in 0..count {
        let seed = seed.wrapping_add(k);
        let image = damaged(&whole, seed)?;
        let judged = judge(alloc, image.as_slice())?;
        let mut disk = MemoryDisk::new(image);
        let start = Instant::now(rt)?;
        let answer = examine(alloc, &mut disk, Version::One);
        let took = start.elapsed(rt)?.as_nanos();
        tally.note(seed, as_found(&answer), judged, took);
    }
    Ok(tally)
}

// The file in which the system reports what memory a program has had, and how the line with it begins.
const STATUS: &str = "/proc/self/status";

const MOST_MEMORY: &str = "VmHWM:";

// The most memory that the program has had, if the system reports it.
fn most_memory(rt: &HostRuntime) -> Option<String> {
    let text = fs::read_to_string(rt, STATUS).ok()?;
    let line = text
        .as_str()
        .lines()
        .find(|line| line.starts_with(MOST_MEMORY))?;
    String::from_str(rt.alloc(), line.strip_prefix(MOST_MEMORY)?.trim()).ok()
}

fn number(words: &[String], place: usize) -> Option<u64> {
    words.get(place)?.as_str().parse::<u64>().ok()
}

fn main(rt: HostRuntime) -> anyhow::Result<()> {
    let words: Vec<String> = env::args(&rt)?.collect(rt.alloc())?;
    let Some(count) = number(words.as_slice(), 1) else {
        return Err(anyhow!("wanted: COUNT [SEED]"));
    };
    let seed = number(words.as_slice(), 2).unwrap_or(1);
    let tally = try_images(&rt, rt.alloc(), count, seed)?;
    println!(rt; "images {count} from seed {seed}")?;
    for ((number, name), count) in ANSWERS.iter().zip(tally.counts.iter()) {
        println!(rt; "{number} {name} {count}")?;
    }
    let (nanoseconds, slowest) = tally.longest;
    eprintln!(rt; "longest examination: {nanoseconds} ns, of seed {slowest}")?;
    if let Some(memory) = most_memory(&rt) {
        eprintln!(rt; "most memory: {memory}")?;
    }
    match tally.differs {
        None => println!(rt; "no answer differs")?,
        Some((seed, told, judged)) => {
            return Err(anyhow!("of seed {seed} {told:?} is told, and {judged:?} is so"));
        }
    }
    Ok(())
}
