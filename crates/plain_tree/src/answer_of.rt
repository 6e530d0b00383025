//! What a step that isn't refused answers.
ghost use Rattle.std.specs.Prelude.{◌≡◌, ◌+◌, ◌^◌, ◌<◌, IfOk, length, take, drop};
ghost use Rattle.plain_tree.specs.Code.{EndsWithin, ReadsWithin, read_count, with_name};
ghost use Rattle.plain_tree.specs.Steps.{answer_with, opened, size_of, opens_file, part, stat_answer, stat_of, type_of};
ghost use Rattle.plain_tree.specs.Tree.{and_then, look, tree_of};

use crate::answer::{Full, NodeType, Stat};
use crate::bytes::Bytes;
use crate::look::Found;
use crate::node::NodeKind;
use crate::refusal::has_flag;
use crate::refused::Attempt;
use crate::slots::{entries, slots_size};
use crate::step::{Action, StepAnswer};
use crate::tree::{OpenFile, Tree};
use crate::widths::{CREATE, DESCRIPTOR_COUNT, ROOT_DEVICE};
use image_versions::Version;
use std::alloc::Global;

/// At most `count` bytes from the offset on, as far as there are any.
fn cut_out(alloc: Global, bytes: &[u8], offset: u64, count: usize) -> Attempt<Vec<u8>>
    ensures bytes { IfOk result (λ v. v.items ≡ take count (drop offset bytes.now)) }
    ensures within { IfOk result (λ v. offset + length v.items < 2 ^ 64) }
{
    let start = if offset < bytes.len() as u64 {
        offset as usize
    } else {
        bytes.len()
    };
    let rest = &bytes[start..];
    let end = if count < rest.len() {
        count
    } else {
        rest.len()
    };
    Ok(Vec::from_slice(alloc, &rest[..end])?)
}

fn node_type(kind: &NodeKind) -> NodeType
    ensures { result ≡ type_of kind.now }
{
    match kind {
        NodeKind::Directory { .. } => NodeType::Directory,
        NodeKind::File { .. } => NodeType::File,
        NodeKind::Device { .. } => NodeType::Device,
    }
}

fn size(version: Version, kind: &NodeKind) -> u64
    ensures { result ≡ size_of version kind.now }
{
    match kind {
        NodeKind::Directory { slots } => slots_size(version, slots.as_slice()),
        NodeKind::File { bytes } => bytes.as_slice().len() as u64,
        NodeKind::Device { size, .. } => u64::from(*size),
    }
}

/// The number of bytes that a read's answer has.
pub(crate) fn bytes_read(answer: &StepAnswer) -> u64
    ensures { result ≡ read_count answer.now }
{
    match answer {
        StepAnswer::Bytes { bytes } => bytes.as_slice().len() as u64,
        _ => 0,
    }
}

impl Tree {
    fn part(
        &self,
        alloc: Global,
        version: Version,
        file: Option<OpenFile>,
        count: usize,
    ) -> Attempt<Vec<u8>>
        ensures bytes { IfOk result (λ v. v.items ≡ part version (tree_of self.now) file count) }
        ensures within { IfOk result (λ v. EndsWithin file (length v.items)) }
    {
        let Some(file) = file else {
            return Ok(Vec::new(alloc));
        };
        match self.node(usize::from(file.number)) {
            None => cut_out(alloc, &[], file.offset, count),
            Some(node) => match &node.kind {
                NodeKind::Directory { slots } => {
                    let content = entries(alloc, version, slots.as_slice())?;
                    cut_out(alloc, &content, file.offset, count)
                }
                NodeKind::File { bytes } => cut_out(alloc, bytes.as_slice(), file.offset, count),
                NodeKind::Device { .. } => cut_out(alloc, &[], file.offset, count),
            },
        }
    }

    fn stat(&self, version: Version, file: Option<OpenFile>) -> StepAnswer
        ensures { result ≡ stat_answer version (tree_of self.now) file }
    {
        let Some(file) = file else {
            return StepAnswer::Done;
        };
        let (kind, nlink, size) = match self.node(usize::from(file.number)) {
            Some(node) => (node_type(&node.kind), node.count, size(version, &node.kind)),
            None => (NodeType::File, 0, 0),
        };
        StepAnswer::Stat {
            stat: Stat {
                device: ROOT_DEVICE,
                inode: file.number,
                kind,
                nlink,
                size,
            },
        }
    }

    fn opens_file(&self, number: Option<u16>) -> bool
        ensures { result ≡ opens_file (tree_of self.now) number }
    {
        match number {
            Some(number) => self.is_file(number),
            None => true,
        }
    }

    fn opened(&self, hart: u8, id: usize, number: Option<u16>) -> StepAnswer
        ensures { result ≡ opened (tree_of self.now) hart id number }
    {
        let fd = self.lowest(hart);
        if fd < DESCRIPTOR_COUNT {
            let is_file = self.opens_file(number);
            StepAnswer::Opened {
                fd: fd as u32,
                id,
                is_file,
            }
        } else {
            StepAnswer::Full {
                full: Full::Descriptors,
            }
        }
    }

    /// What an open finds under the name.
    fn look_in(&self, parent: Option<u16>, name: &[u8]) -> Option<u16>
        ensures { result ≡ and_then (with_name parent name.now) (λ q. look (tree_of self.now).nodes q.0 q.1) }
    {
        let directory = parent?;
        self.look(directory, name)
    }

    /// The answer of the action, if it isn't refused.
    #[tactic(auto, unfolding(crate::specs::Steps::answer_with))]
    pub(crate) fn answer(
        &self,
        alloc: Global,
        version: Version,
        hart: u8,
        action: &Action,
        found: &Found,
        id: usize,
    ) -> Attempt<StepAnswer>
        ensures answer { let parent = with_name found.now.parent found.now.name.now in
            IfOk result (λ a. a ≡ answer_with version (tree_of self.now) hart action.now found.now.node parent id) }
        ensures within { IfOk result (λ a. ReadsWithin (tree_of self.now) hart action.now a) }
    {
        match action {
            Action::Open { flags, .. } if has_flag(*flags, CREATE) => Ok(self.opened(
                hart,
                id,
                self.look_in(found.parent, found.name),
            )),
            Action::Open { .. } => Ok(self.opened(hart, id, found.node)),
            Action::Read { fd, count } => {
                let bytes = Bytes::new(self.part(alloc, version, self.file_at(hart, *fd), *count)?);
                Ok(StepAnswer::Bytes { bytes })
            }
            Action::Dup { .. } => Ok(StepAnswer::Fd {
                fd: self.lowest(hart) as u32,
            }),
            Action::Fstat { fd } => Ok(self.stat(version, self.file_at(hart, *fd))),
            _ => Ok(StepAnswer::Done),
        }
    }
}
