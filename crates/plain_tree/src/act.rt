//! What a step that isn't refused changes, before the nodes that nothing keeps are removed.
ghost use Rattle.std.specs.Prelude.{◌≡◌, ◌<◌, ◌||◌, length, true, not, IfOk, IfSome, MatchResult};
ghost use Rattle.plain_tree.specs.Code.{Advances, HasFiles, ReadsWithin, is_open, with_name};
ghost use Rattle.plain_tree.specs.Steps.{IsNewNode, answer_with, at_dir, at_hold, bump_refusal, closed, drop_hold, effect_with, enter_hold, entered, file_at, has, has_room, held, is_absent, lowered, lowest, made, makes_node, mkdir_refusal, moved, new_directory, new_file, node_at, opened_at, opened_in, opened_new, place_of, raise_hold, raised, read_write, refusal_with, removed, truncated, with_file, with_nodes, write_only, write_refusal, wrote};
ghost use Rattle.plain_tree.specs.Tree.{file_in, live_directory, look, put, tree_of};

use crate::answer_of::bytes_read;
use crate::bytes::Bytes;
use crate::look::Found;
use crate::node::{Node, NodeKind, Slot, Slots};
use crate::refusal::has_flag;
use crate::refused::Attempt;
use crate::step::{Action, StepAnswer};
use crate::tree::{Hold, OpenFile, OpenFileEntry, Tree};
use crate::widths::{CREATE, DOT, DOTDOT, HARTS, READ_WRITE, WRITE_ONLY};
use image_versions::Version;
use std::alloc::Global;

/// A file as it is when it is opened.
fn just_opened(number: u16, flags: u32) -> OpenFile
    ensures { result ≡ record {
      number = number;
      offset = 0;
      readable = not (has flags write_only);
      writable = has flags write_only
          || has flags read_write;
    } }
{
    OpenFile {
        number,
        offset: 0,
        readable: !has_flag(flags, WRITE_ONLY),
        writable: has_flag(flags, WRITE_ONLY) || has_flag(flags, READ_WRITE),
    }
}

/// A slot with this name.
pub(crate) fn slot(alloc: Global, name: &[u8], number: u16) -> Attempt<Option<Slot>>
    ensures { IfOk result (λ s. s ≡ Some (record { name = name.now; number = number })) }
{
    let name = Bytes::new(Vec::from_slice(alloc, name)?);
    Ok(Some(Slot { name, number }))
}

/// A directory with no entries but "." and "..".
fn new_directory(alloc: Global, number: u16, parent: u16) -> Attempt<Node>
    ensures { IfOk result (λ v. v ≡ new_directory number parent) }
{
    let mut slots = Vec::new(alloc);
    slots.push(slot(alloc, &DOT, number)?)?;
    slots.push(slot(alloc, &DOTDOT, parent)?)?;
    let slots = Slots::new(slots);
    Ok(Node {
        count: 1,
        kind: NodeKind::Directory { slots },
    })
}

impl Tree {
    /// Gives the open file that was added to the hart's lowest descriptor.
    fn give_file(&mut self, hart: u8, files: Vec<OpenFileEntry>, id: usize)
        requires hart { hart < HARTS }
        requires room { has_room ((tree_of self.old).fds hart) ≡ true }
        ensures { tree_of self.new
            ≡ record (tree_of self.old) {
              files = λ k. file_in files.items k;
              fds = put (tree_of self.old).fds hart (put ((tree_of self.old).fds hart) (lowest ((tree_of self.old).fds hart)) (Some id));
            } }
    {
        let fd = self.lowest(hart);
        self.set_descriptor(hart, fd, Some(id));
        self.set_files(files);
    }

    /// Opens the node, if the hart has a free descriptor.
    fn open_node(&mut self, alloc: Global, hart: u8, number: u16, flags: u32, id: usize) -> Attempt
        requires hart { hart < HARTS }
        requires unused { (tree_of self.old).files id ≡ None }
        ensures { MatchResult result (λ _. tree_of self.new ≡ with_file (tree_of self.old) hart id number flags)
            (λ _. self.new ≡ self.old) }
    {
        if self.has_room(hart) {
            let files = self.files_with(alloc, id, just_opened(number, flags))?;
            self.give_file(hart, files, id);
        }
        Ok(())
    }

    /// Puts a node into the tree, under a name in a live directory.
    fn add_node(
        &mut self,
        alloc: Global,
        directory: u16,
        name: Bytes,
        number: u16,
        node: Node,
    ) -> Attempt
        requires live { live_directory ((tree_of self.old).nodes directory) ≡ true }
        requires range { number < (tree_of self.old).ninodes }
        ensures tree { MatchResult result
            (λ _. tree_of self.new ≡ with_nodes (tree_of self.old)
            (put (entered (tree_of self.old) directory name number).nodes number (Some node))) (λ _. self.new ≡ self.old) }
        ensures table { length self.new.nodes ≡ length self.old.nodes }
    {
        self.enter(alloc, usize::from(directory), name, number)?;
        self.set_node(usize::from(number), node);
        Ok(())
    }

    /// Puts an empty file into the tree.
    fn add_file_node(&mut self, alloc: Global, directory: u16, name: &[u8], number: u16) -> Attempt
        requires live { live_directory ((tree_of self.old).nodes directory) ≡ true }
        requires range { number < (tree_of self.old).ninodes }
        ensures { MatchResult result
            (λ _. tree_of self.new ≡ with_nodes (tree_of self.old)
            (put (entered (tree_of self.old) directory name.now number).nodes number (Some new_file))) (λ _. self.new ≡ self.old) }
    {
        let name = Bytes::new(Vec::from_slice(alloc, name)?);
        let bytes = Bytes::new(Vec::new(alloc));
        let node = Node {
            count: 1,
            kind: NodeKind::File { bytes },
        };
        self.add_node(alloc, directory, name, number, node)
    }

    /// Makes an empty file under a name that isn't there, and opens it.
    fn create(
        &mut self,
        alloc: Global,
        hart: u8,
        directory: u16,
        name: &[u8],
        flags: u32,
        number: u16,
        id: usize,
    ) -> Attempt
        requires hart { hart < HARTS }
        requires live { live_directory ((tree_of self.old).nodes directory) ≡ true }
        requires range { number < (tree_of self.old).ninodes }
        requires unused { (tree_of self.old).files id ≡ None }
        ensures { MatchResult result (λ _. tree_of self.new ≡ opened_in (tree_of self.old) hart id flags directory name.now None number)
            (λ _. self.new ≡ self.old) }
    {
        if self.has_room(hart) {
            let files = self.files_with(alloc, id, just_opened(number, flags))?;
            self.add_file_node(alloc, directory, name, number)?;
            self.give_file(hart, files, id);
        } else {
            self.add_file_node(alloc, directory, name, number)?;
        }
        Ok(())
    }

    fn open_named(
        &mut self,
        alloc: Global,
        hart: u8,
        parent: Option<u16>,
        name: &[u8],
        flags: u32,
        number: u16,
        id: usize,
    ) -> Attempt
        requires hart { hart < HARTS }
        requires live { IfSome parent (λ d. live_directory ((tree_of self.old).nodes d) ≡ true) }
        requires new { is_absent (tree_of self.old) (with_name parent name.now) ≡ true → IsNewNode (tree_of self.old) number }
        requires unused { (tree_of self.old).files id ≡ None }
        ensures { MatchResult result
            (λ _. tree_of self.new ≡ opened_new (tree_of self.old) hart id flags (with_name parent name.now) number)
            (λ _. self.new ≡ self.old) }
    {
        let Some(directory) = parent else {
            return Ok(());
        };
        match self.look(directory, name) {
            Some(old) => self.open_node(alloc, hart, old, flags, id),
            None => self.create(alloc, hart, directory, name, flags, number, id),
        }
    }

    fn open_found(
        &mut self,
        alloc: Global,
        hart: u8,
        found: Option<u16>,
        flags: u32,
        number: u16,
        id: usize,
    ) -> Attempt
        requires hart { hart < HARTS }
        requires unused { (tree_of self.old).files id ≡ None }
        ensures { MatchResult result (λ _. tree_of self.new ≡ opened_at (tree_of self.old) hart id flags found number)
            (λ _. self.new ≡ self.old) }
    {
        match found {
            Some(old) => self.open_node(alloc, hart, old, flags, id),
            None => Ok(()),
        }
    }

    fn write_part(
        &mut self,
        alloc: Global,
        version: Version,
        hart: u8,
        fd: u32,
        bytes: &[u8],
    ) -> Attempt
        requires { write_refusal version (tree_of self.old) bytes.now (file_at (tree_of self.old) hart fd) ≡ None }
        ensures { MatchResult result (λ _. tree_of self.new ≡ wrote (tree_of self.old) hart fd bytes.now) (λ _. self.new ≡ self.old) }
    {
        if bytes.is_empty() {
            return Ok(());
        }
        let id = self.descriptor(hart, fd as usize);
        if let Some(file) = self.file_at(hart, fd) {
            self.overwrite(alloc, usize::from(file.number), file.offset, bytes)?;
        }
        self.advance(id, bytes.len() as u64);
        Ok(())
    }

    fn truncate(&mut self, alloc: Global, hart: u8, fd: u32) -> Attempt
        ensures { MatchResult result (λ _. tree_of self.new ≡ truncated (tree_of self.old) (file_at (tree_of self.old) hart fd))
            (λ _. self.new ≡ self.old) }
    {
        let Some(file) = self.file_at(hart, fd) else {
            return Ok(());
        };
        let number = usize::from(file.number);
        self.reach(number)?;
        self.empty(alloc, number);
        Ok(())
    }

    /// Makes a directory under a name that isn't there.
    fn mkdir(&mut self, alloc: Global, parent: Option<u16>, name: &[u8], number: u16) -> Attempt
        requires live { IfSome parent (λ d. live_directory ((tree_of self.old).nodes d) ≡ true) }
        requires none { mkdir_refusal (tree_of self.old) (with_name parent name.now) ≡ None }
        requires new { IsNewNode (tree_of self.old) number }
        ensures { MatchResult result (λ _. tree_of self.new ≡ made (tree_of self.old) (with_name parent name.now) number)
            (λ _. self.new ≡ self.old) }
    {
        let Some(directory) = parent else {
            return Ok(());
        };
        let name = Bytes::new(Vec::from_slice(alloc, name)?);
        let node = new_directory(alloc, number, directory)?;
        self.add_node(alloc, directory, name, number, node)?;
        self.raise(alloc, usize::from(directory));
        Ok(())
    }

    /// Takes the name out of the directory, and lowers the count of the node that it named.
    fn unlink(&mut self, alloc: Global, parent: Option<u16>, name: &[u8]) -> Attempt
        requires { IfSome parent (λ d. live_directory ((tree_of self.old).nodes d) ≡ true) }
        ensures { MatchResult result (λ _. tree_of self.new ≡ removed (tree_of self.old) (with_name parent name.now))
            (λ _. self.new ≡ self.old) }
    {
        let Some(directory) = parent else {
            return Ok(());
        };
        let Some(number) = self.look(directory, name) else {
            return Ok(());
        };
        let number_at = usize::from(number);
        self.reach(number_at)?;
        let lowers = self.is_directory(number);
        self.clear(alloc, usize::from(directory), name, lowers);
        self.lower(alloc, number_at);
        Ok(())
    }

    fn find(&mut self, hart: u8, found: Option<u16>)
        requires { hart < HARTS }
        ensures { tree_of self.new ≡ held (tree_of self.old) hart found }
    {
        if let Some(number) = found {
            self.set_hold(
                hart,
                Some(Hold {
                    number,
                    raised: false,
                }),
            );
        }
    }

    fn bump(&mut self, alloc: Global, hart: u8) -> Attempt
        requires hart { hart < HARTS }
        requires none { bump_refusal (tree_of self.old) ((tree_of self.old).holds hart) ≡ None }
        ensures { MatchResult result
            (λ _. tree_of self.new ≡ record
            (at_hold (tree_of self.old) ((tree_of self.old).holds hart) raised) {
              holds = put (tree_of self.old).holds hart
                  (raise_hold ((tree_of self.old).holds hart));
            }) (λ _. self.new ≡ self.old) }
    {
        let Some(hold) = self.hold(hart) else {
            self.set_hold(hart, None);
            return Ok(());
        };
        let number = usize::from(hold.number);
        self.reach(number)?;
        self.raise(alloc, number);
        self.set_hold(
            hart,
            Some(Hold {
                number: hold.number,
                raised: true,
            }),
        );
        Ok(())
    }

    fn enter_held(&mut self, alloc: Global, hart: u8, parent: Option<u16>, name: &[u8]) -> Attempt
        requires hart { hart < HARTS }
        requires live { IfSome parent (λ d. live_directory ((tree_of self.old).nodes d) ≡ true) }
        ensures { MatchResult result
            (λ _. tree_of self.new ≡ drop_hold
            (enter_hold (tree_of self.old) (with_name parent name.now) ((tree_of self.old).holds hart)) hart) (λ _. self.new ≡ self.old) }
    {
        if let Some(directory) = parent {
            if let Some(hold) = self.hold(hart) {
                let name = Bytes::new(Vec::from_slice(alloc, name)?);
                self.enter(alloc, usize::from(directory), name, hold.number)?;
            }
        }
        self.set_hold(hart, None);
        Ok(())
    }

    fn unbump(&mut self, alloc: Global, hart: u8) -> Attempt
        requires { hart < HARTS }
        ensures { MatchResult result
            (λ _. tree_of self.new ≡ drop_hold (at_hold (tree_of self.old) ((tree_of self.old).holds hart) lowered) hart)
            (λ _. self.new ≡ self.old) }
    {
        if let Some(hold) = self.hold(hart) {
            let number = usize::from(hold.number);
            self.reach(number)?;
            self.lower(alloc, number);
        }
        self.set_hold(hart, None);
        Ok(())
    }

    fn chdir(&mut self, hart: u8, found: Option<u16>)
        requires { hart < HARTS }
        ensures { tree_of self.new ≡ at_dir (tree_of self.old) hart found }
    {
        if let Some(number) = found {
            self.set_directory(hart, number);
        }
    }

    fn dup(&mut self, hart: u8, fd: u32)
        requires hart { hart < HARTS }
        requires room { has_room ((tree_of self.old).fds hart) ≡ true }
        ensures { tree_of self.new
            ≡ record (tree_of self.old) {
              fds = put (tree_of self.old).fds hart
                  (put ((tree_of self.old).fds hart) (lowest ((tree_of self.old).fds hart)) ((tree_of self.old).fds hart fd));
            } }
    {
        let free = self.lowest(hart);
        let id = self.descriptor(hart, fd as usize);
        self.set_descriptor(hart, free, id);
    }

    fn close(&mut self, hart: u8, fd: u32)
        requires hart { hart < HARTS }
        requires fd { fd < 16 }
        ensures { tree_of self.new
            ≡ closed (record (tree_of self.old) { fds = put (tree_of self.old).fds hart (put ((tree_of self.old).fds hart) fd None) }) }
    {
        self.set_descriptor(hart, fd as usize, None);
        self.close_orphans();
    }

    fn read(&mut self, hart: u8, fd: u32, count: u64)
        requires { Advances (tree_of self.old) ((tree_of self.old).fds hart fd) count }
        ensures { tree_of self.new ≡ moved (tree_of self.old) ((tree_of self.old).fds hart fd) count }
    {
        let id = self.descriptor(hart, fd as usize);
        self.advance(id, count);
    }

    /// The change that the action makes, if it is in its place and isn't refused. `answer` is its answer.
    #[tactic(auto, unfolding(crate::specs::Steps::effect_with))]
    pub(crate) fn act(
        &mut self,
        alloc: Global,
        version: Version,
        hart: u8,
        action: &Action,
        found: &Found,
        number: u16,
        id: usize,
        answer: &StepAnswer,
    ) -> Attempt
        requires hart { hart < HARTS }
        requires live { IfSome found.now.parent (λ d. live_directory ((tree_of self.old).nodes d) ≡ true) }
        requires none { refusal_with version (tree_of self.old) hart action.now found.now.node
            (with_name found.now.parent found.now.name.now) ≡ None }
        requires place { place_of (tree_of self.old) hart action.now ≡ true }
        requires new { makes_node (tree_of self.old) action.now (with_name found.now.parent found.now.name.now) ≡ true
            → IsNewNode (tree_of self.old) number }
        requires unused { is_open action.now ≡ true → (tree_of self.old).files id ≡ None }
        requires answer { answer.now
            ≡ answer_with version (tree_of self.old) hart action.now found.now.node (with_name found.now.parent found.now.name.now) id }
        requires fits { ReadsWithin (tree_of self.old) hart action.now answer.now }
        ensures { MatchResult result
            (λ _. tree_of self.new ≡ effect_with version (tree_of self.old) hart action.now found.now.node
            (with_name found.now.parent found.now.name.now) number id) (λ _. self.new ≡ self.old) }
    {
        match action {
            Action::Open { flags, .. } if has_flag(*flags, CREATE) => self.open_named(
                alloc,
                hart,
                found.parent,
                found.name,
                *flags,
                number,
                id,
            ),
            Action::Open { flags, .. } => self.open_found(
                alloc, hart, found.node, *flags, number, id,
            ),
            Action::Truncate { fd } => self.truncate(alloc, hart, *fd),
            Action::Read { fd, .. } => {
                self.read(hart, *fd, bytes_read(answer));
                Ok(())
            }
            Action::WritePart { fd, bytes } => self.write_part(
                alloc,
                version,
                hart,
                *fd,
                bytes.as_slice(),
            ),
            Action::Find { .. } => {
                self.find(hart, found.node);
                Ok(())
            }
            Action::Bump => self.bump(alloc, hart),
            Action::Enter { .. } => self.enter_held(alloc, hart, found.parent, found.name),
            Action::Unbump => self.unbump(alloc, hart),
            Action::Unlink { .. } => self.unlink(alloc, found.parent, found.name),
            Action::Mkdir { .. } => self.mkdir(alloc, found.parent, found.name, number),
            Action::Chdir { .. } => {
                self.chdir(hart, found.node);
                Ok(())
            }
            Action::Dup { fd } => {
                self.dup(hart, *fd);
                Ok(())
            }
            Action::Close { fd } => {
                self.close(hart, *fd);
                Ok(())
            }
            Action::Fstat { .. } => Ok(()),
            Action::Inherit { child } => {
                self.inherit(hart, *child);
                Ok(())
            }
        }
    }
}
