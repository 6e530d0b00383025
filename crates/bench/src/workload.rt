//! What is measured.
use crate::threads::Crew;
use crate::worlds::Line;
use crate::{
    buffers, checks, devices, histories, images, locks, logs, records, tables, threads, trees,
    worlds,
};
use block_device::Fault;
use std::alloc::{AllocError, Global};
use std::sync::Wait;
use std::thread::Threads;
use thiserror::Error;

/// Why a workload did not run to its end.
#[derive(Debug, Drop, Error)]
pub enum WorkloadError {
    #[error("no memory")]
    Memory(#[from(alloc)] AllocError),
    #[error("the device failed")]
    Device,
    #[error("an operation gave a wrong result")]
    Wrong,
}

impl From<Fault> for WorkloadError {
    fn from(_fault: Fault) -> WorkloadError {
        WorkloadError::Device
    }
}

#[derive(Clone, Copy)]
pub enum Workload {
    DeviceRead,
    InodeRead,
    InodeWrite,
    DirentRead,
    DirentWrite,
    BitSet,
    BitTest,
    LastBlock,
    LockUnlock,
    InodeLock(u32),
    ReferenceUp(u32),
    BufferGet,
    BufferGetMostRecent,
    RecordBlock,
    CommitThree,
    ExamineFresh,
    ExamineFull,
    MakeImage,
    TreeStep,
    CheckEntry,
    World(Line),
    Threads(Crew),
    ExplainEvent,
}

/// All of them with their names, in the order in which they run.
pub const ALL: [(&str, Workload); 37] = [
    ("device_read_block", Workload::DeviceRead),
    ("inode_read", Workload::InodeRead),
    ("inode_write", Workload::InodeWrite),
    ("dirent_read", Workload::DirentRead),
    ("dirent_write", Workload::DirentWrite),
    ("bit_set", Workload::BitSet),
    ("bit_test", Workload::BitTest),
    ("last_free_block_of_8191", Workload::LastBlock),
    ("lock_and_unlock", Workload::LockUnlock),
    ("inode_lock_and_unlock", Workload::InodeLock(tables::LAST)),
    ("root_lock_and_unlock", Workload::InodeLock(tables::ROOT)),
    ("reference_up_and_down", Workload::ReferenceUp(tables::LAST)),
    ("root_up_and_down", Workload::ReferenceUp(tables::ROOT)),
    ("buffer_get_and_release", Workload::BufferGet),
    ("buffer_get_most_recent", Workload::BufferGetMostRecent),
    ("block_fetch_change_record", Workload::RecordBlock),
    ("commit_three_blocks", Workload::CommitThree),
    ("examine_fresh_image", Workload::ExamineFresh),
    ("examine_full_image", Workload::ExamineFull),
    ("make_image", Workload::MakeImage),
    ("tree_step", Workload::TreeStep),
    ("check_entry", Workload::CheckEntry),
    ("world_event", Workload::World(worlds::EVENT)),
    ("open_fstat_close", Workload::World(worlds::VISIT)),
    (
        "open_fstat_close_of_version_2",
        Workload::World(worlds::VISIT_OF_VERSION_2),
    ),
    (
        "open_fstat_close_depth_16",
        Workload::World(worlds::DEEP_VISIT),
    ),
    (
        "open_fstat_close_of_8_harts",
        Workload::World(worlds::TURNS),
    ),
    ("open_missing_of_1000", Workload::World(worlds::MISS)),
    (
        "open_missing_of_1000_of_version_2",
        Workload::World(worlds::MISS_OF_VERSION_2),
    ),
    ("read_none", Workload::World(worlds::READ_NONE)),
    ("read_4096", Workload::World(worlds::READ)),
    ("write_3072_over", Workload::World(worlds::REWRITE)),
    ("write_274432_anew", Workload::World(worlds::WRITE_ANEW)),
    ("make_write_remove", Workload::World(worlds::REMOVE)),
    (
        "make_write_remove_under_the_lock",
        Workload::Threads(Crew::One),
    ),
    (
        "make_write_remove_over_4_threads",
        Workload::Threads(Crew::Four),
    ),
    ("explain_event", Workload::ExplainEvent),
];

impl Workload {
    /// Runs it, and says how many operations that were.
    pub fn run<R: Threads + Wait + Sync>(
        self,
        rt: &R,
        alloc: Global,
    ) -> Result<u64, WorkloadError> {
        match self {
            Workload::DeviceRead => devices::read_blocks(alloc),
            Workload::InodeRead => records::read_inodes(),
            Workload::InodeWrite => records::write_inodes(),
            Workload::DirentRead => records::read_dirents(),
            Workload::DirentWrite => records::write_dirents(),
            Workload::BitSet => records::set_bits(),
            Workload::BitTest => records::test_bits(),
            Workload::LastBlock => records::take_last_block(),
            Workload::LockUnlock => locks::lock_and_unlock(alloc),
            Workload::InodeLock(number) => tables::lock_and_unlock(alloc, number),
            Workload::ReferenceUp(number) => tables::up_and_down(alloc, number),
            Workload::BufferGet => buffers::get_and_release(alloc),
            Workload::BufferGetMostRecent => buffers::get_most_recent(alloc),
            Workload::RecordBlock => logs::record_cached(alloc),
            Workload::CommitThree => logs::commit_three_blocks(alloc),
            Workload::ExamineFresh => images::examine_fresh(alloc),
            Workload::ExamineFull => images::examine_full(alloc),
            Workload::MakeImage => images::make_image(alloc),
            Workload::TreeStep => trees::apply_steps(alloc),
            Workload::CheckEntry => checks::check_entries(alloc),
            Workload::World(line) => worlds::run(alloc, line),
            Workload::Threads(crew) => threads::make_write_remove(rt, alloc, crew),
            Workload::ExplainEvent => histories::explain_events(alloc),
        }
    }
}
