//! The tree kept beside a run, and the list of the tree steps so far. Each event appends to it; no entry is changed.
ghost use Rattle.std.specs.Prelude.{◌≡◌, ◌-◌, ◌<◌, ◌^◌, ◌&&◌, ◌||◌, ℕ, false, length, not, true, List, None, Some, IfOk, IfSome, MatchOption, slice_index_or};
ghost use Rattle.plain_tree.specs.Code.{with_name};
ghost use Rattle.plain_tree.specs.Steps.{is_nothing, path_of};
ghost use Rattle.plain_tree.specs.Tree.{live_directory, look, tree_of};
ghost use Rattle.plain_tree.specs.Widths.{hart_count};
ghost use Rattle.plain_tree.specs.declared.answer.Reply.{Reply};
ghost use Rattle.tree_laws.specs.History.{History, passes, replies, starts};
ghost use Rattle.tree_laws.specs.Moves as moves;
ghost use Rattle.tree_laws.specs.Moves.{fail};
ghost use Rattle.tree_laws.specs.Runs.{lost_of};
ghost use Rattle.inode_machine.specs.Kept.{nothing_yet};
ghost use Rattle.path_walk.specs.Asks.{asks, op_in};
ghost use Rattle.whole_calls.specs.Wholes.{IsCall, WholeFits, action_in, call_in, whole_of};
ghost use Rattle.image_versions.specs.declared.version.Version.{Version};
ghost use Rattle.tree_histories.specs.Books.{IsBook};
ghost use Rattle.tree_histories.specs.Keeping.{HasHeard, HasStarted, Under, StandsFit, counted, ended, hart_in, is_lost, nothing_kept, passed, stage_of, with_hart, with_walk, written};
ghost use Rattle.tree_histories.specs.Moving.{HasRun, HaveFallen, IsActed, IsActedAlone, IsDeedOf, KeepsRest, MovesBy, NoneFalls, OnlyMoves, StaysFor, TellsOf, WereLost, spoils, told_in, tree_step};
ghost use Rattle.tree_histories.specs.Sights.{MarksBy, SeenFor, acts_first};
ghost use Rattle.tree_histories.specs.Walks.{IsNextWalk, LeadsBy, name_from, step_in, walk_of};

use crate::paths::rest_of;
use crate::sees::sight;
use crate::standing::{Standing, Walk};
use image_versions::Version;
use path_walk::{Ask, Heard, Locked, Mark};
use plain_tree::paths::next_element;
use plain_tree::{
    Action, ApplyRefused, Call, Cause, Found, HARTS, NoMemory, Placed, StepAnswer, Tree, TreeStep,
};
use std::alloc::Global;
use std::marker::Model;
use std::mem;

// A step with its answer, and the number that it may give a new node.
#[derive(Drop)]
pub(crate) struct Deed {
    action: Action,
    answer: StepAnswer,
    new: u16,
}

impl Model for Deed {
    ghost use Rattle.tree_laws.specs.Moves as moves;

    ghost Value = { moves.Deed };

    ghost view = { λ d. record { act = record { step = d.action; answer = d.answer }; new = d.new } };
}

/// The tree, the calls under way with their walks in it, and the list of steps, each with its answer, its call and its event.
///
/// It hears of each event of a run: a start, what a call heard in a step that ran, a reply, or that the event shows
/// nothing. A step of the tree is appended at the event at which the operation acts that makes it. After it, in order
/// of hart, come the failing steps of the walks that it loses, whose directory it removes. So a list is that of the
/// events before, with what is appended.
///
/// A contract sees the tree with the walks in it as the theory's stage, and the list as that of the theory's history (`IsBook`): a start, a
/// move, a reply and an event that shows nothing take both on as they take the theory's, where the hart may make the move (`MayMake`).
#[derive(Drop)]
pub struct Kept {
    version: Version,
    tree: Tree,
    list: Vec<Placed>,
    events: u64,
    calls: usize,
    harts: [Option<Standing>; HARTS as usize],
    /// A step of a call answered that there was no room, or a move shows it that can't be made.
    full: bool,
}

impl Model for Kept {
    ghost use Rattle.std.specs.Prelude.{◌≡◌, length};
    ghost use Rattle.tree_histories.specs.Keeping.{AllFit, KeptTree};

    ghost Value = { KeptTree };

    ghost view = { λ k. record {
      version = k.version;
      tree = k.tree;
      list = k.list.items;
      events = k.events;
      calls = k.calls;
      harts = k.harts;
      full = k.full;
    } };

    ghost invariant = { λ k. (length k.harts ≡ 8) × AllFit k.version k.harts };
}

// What the operation that was asked for answers when its lock is taken, as far as the tree shows it. What it finds
// there is read from the device later, and nobody changes it in between.
fn seen(version: Version, tree: &Tree, standing: &Standing) -> Heard
    ensures { (listed : List ℕ) → WholeFits version listed standing.now.whole
        → SeenFor version (tree_of tree.now) (asks (whole_of version listed standing.now.whole)) result }
{
    match standing.ask() {
        Ask::Take(number, query) => {
            let (path, second) = standing.paths();
            Heard::Saw(sight(version, tree, number, &query, path, second))
        }
        _ => Heard::Locked(Locked::Locks(0, 0)),
    }
}

// An operation that takes a lock acts in its first step; the others act in their last one.
fn acts_first(ask: &Ask) -> bool
    ensures { (text : List ℕ) → result ≡ acts_first (op_in text ask.now) }
{
    matches!(
        ask,
        Ask::Take(_, _) | Ask::StatFile(_) | Ask::LockFile(_) | Ask::LockOpen(_, _)
    )
}

// A node's number, as the tree has it.
fn node_number(new: u32) -> u16
    ensures { new < 2 ^ 16 → result ≡ new }
{
    match u16::try_from(new) {
        Ok(number) => number,
        Err(_) => 0,
    }
}

// The mark says that there was no room.
fn spoils(mark: Mark) -> bool
    ensures { result ≡ spoils mark }
{
    matches!(mark, Mark::PartOfPiece(_, _) | Mark::Mends | Mark::Fills)
}

// What a walk has found for its step: the node; and the directory that has the last element, with the place of that in the path.
#[derive(Clone, Copy)]
pub(crate) struct Lead {
    node: Option<u16>,
    parent: Option<u16>,
    from: usize,
}

// The next element from here on.
fn name_from(version: Version, path: &[u8], from: usize) -> &[u8]
    ensures { result.now ≡ name_from version from path.now }
{
    match next_element(version, rest_of(path, from)) {
        Some((name, _)) => name,
        None => &[],
    }
}

// The step of a walk, which finds no live directory to look in.
fn failed(action: Action) -> Deed
    ensures { result ≡ fail action }
{
    Deed {
        action,
        answer: StepAnswer::Failed {
            cause: Cause::NoEntry,
        },
        new: 0,
    }
}

impl Kept {
    /// Beside a run that begins with this tree, of an image of this version.
    pub fn new(alloc: Global, version: Version, tree: Tree) -> Kept
        ensures kept { result ≡ nothing_kept version tree }
        ensures book { IsBook result nothing_yet }
    {
        Kept {
            version,
            tree,
            list: Vec::new(alloc),
            events: 0,
            calls: 0,
            harts: [None, None, None, None, None, None, None, None],
            full: false,
        }
    }

    /// The event shows nothing more of calls.
    pub fn passes(&mut self)
        ensures kept { self.new ≡ passed self.old }
        ensures book { (b : History) → IsBook self.old b → IsBook self.new (passes b) }
    {
        self.events = self.events.saturating_add(1);
    }

    /// The event starts this call of a hart.
    pub fn starts(&mut self, alloc: Global, hart: u8, call: Call) -> Result<(), NoMemory>
        requires { IsCall self.old.version call }
        ensures kept { IfOk result (λ _. HasStarted self.old hart call self.new) }
        ensures book { IfOk result (λ _. (b : History) → hart < hart_count → self.old.calls < 2 ^ 64 - 1 → IsBook self.old b
            → IsBook self.new (starts b hart call)) }
    {
        let standing = Standing::new(alloc, self.next_id(), call)?;
        self.put(hart, Some(standing));
        self.count_call();
        self.passes();
        Ok(())
    }

    /// A step of the hart's call runs in this event; `heard` is what the call heard, if an operation ended there.
    pub fn runs(&mut self, alloc: Global, hart: u8, heard: Option<Heard>) -> Result<(), NoMemory>
        ensures { IfOk result (λ _. HasRun self.old hart heard self.new) }
    {
        let Some(mark) = self.mark(hart, heard) else {
            self.hears(hart, heard);
            return Ok(());
        };
        self.moves(alloc, hart, mark)?;
        self.hears(hart, heard);
        Ok(())
    }

    /// The event ends with the hart's reply.
    pub fn replies(&mut self, hart: u8)
        ensures kept { self.new ≡ passed (with_hart self.old hart None) }
        ensures book { (b : History) (r : Reply) → hart < hart_count → IsBook self.old b → IsBook self.new (replies b hart r) }
    {
        self.put(hart, None);
        self.passes();
    }

    /// The run has ended. `lacks_place`: a call under way has found no place for an inode that it claims, and hasn't
    /// heard so yet.
    pub fn ends(&mut self, lacks_place: bool)
        ensures { self.new ≡ ended lacks_place self.old }
    {
        self.full = self.full || lacks_place;
    }

    /// Whether a step of a call found no room: an operation was answered so, or a call makes a move that can't be made
    /// in the tree. No call makes such a move in a run in which each step found room. From then on no list of steps
    /// need explain the run.
    pub fn is_full(&self) -> bool
        ensures { result ≡ self.now.full }
    {
        self.full
    }

    /// The list so far.
    pub fn into_list(self) -> Vec<Placed>
        ensures { result.items ≡ self.list }
    {
        self.list
    }

    // The place in the trace of the next call that starts.
    fn next_id(&self) -> usize
        ensures { result ≡ self.now.calls }
    {
        self.calls
    }

    fn count_call(&mut self)
        ensures { self.new ≡ record self.old { calls = counted self.old.calls } }
    {
        self.calls = self.calls.saturating_add(1);
    }

    // The hart's current directory in the tree.
    fn directory(&self, hart: u8) -> u16
        ensures { result ≡ (tree_of self.now.tree).cwd hart }
    {
        self.tree.directory(hart)
    }

    fn standing(&self, hart: u8) -> Option<&Standing>
        ensures call { MatchOption result (hart_in self.now hart ≡ None) (λ s. hart_in self.now hart ≡ Some s.now) }
        ensures fits { IfSome result (λ s. WholeFits self.now.version s.now.listed s.now.whole) }
    {
        match self.harts.get(usize::from(hart)) {
            Some(Some(standing)) => Some(standing),
            _ => None,
        }
    }

    // The hart has this call under way, or none.
    fn put(&mut self, hart: u8, standing: Option<Standing>)
        requires { StandsFit self.old.version standing }
        ensures { self.new ≡ with_hart self.old hart standing }
    {
        let Some(_) = self.harts.get(usize::from(hart)) else {
            return;
        };
        self.harts[usize::from(hart)] = standing;
    }

    // Takes the hart's call out.
    fn take(&mut self, hart: u8) -> Option<Standing>
        ensures call { result ≡ hart_in self.old hart }
        ensures fits { StandsFit self.old.version result }
        ensures rest { self.new ≡ with_hart self.old hart None }
    {
        let Some(_) = self.harts.get(usize::from(hart)) else {
            return None;
        };
        mem::replace(&mut self.harts[usize::from(hart)], None)
    }

    // The move that is made in this step, if its operation acts here and makes one.
    fn mark(&self, hart: u8, heard: Option<Heard>) -> Option<Mark>
        ensures { MarksBy self.now.version (tree_of self.now.tree) (hart_in self.now hart) heard result }
    {
        let standing = self.standing(hart)?;
        let first = acts_first(&standing.ask());
        if first && standing.has_begun() {
            return None;
        }
        match heard {
            Some(heard) => standing.mark(self.version, &heard),
            None => {
                if !first {
                    return None;
                }
                let heard = seen(self.version, &self.tree, standing);
                standing.mark(self.version, &heard)
            }
        }
    }

    // The call goes on.
    fn hears(&mut self, hart: u8, heard: Option<Heard>)
        ensures { HasHeard self.old hart heard self.new }
    {
        let Some(standing) = self.take(hart) else {
            return;
        };
        match heard {
            Some(heard) => {
                let goes_on = standing.hear(self.version, &heard);
                self.put(hart, goes_on);
            }
            None => {
                let mut standing = standing;
                standing.begin();
                self.put(hart, Some(standing));
            }
        }
    }

    // Whether the hart's walk is in no live directory.
    fn is_lost(&self, hart: u8) -> bool
        ensures { result ≡ is_lost (stage_of self.now) hart }
    {
        let Some(standing) = self.standing(hart) else {
            return false;
        };
        match standing.walk() {
            Some(walk) => !self.tree.is_live_directory(walk.directory),
            None => false,
        }
    }

    fn lost(&self) -> [bool; HARTS as usize]
        ensures { WereLost result (stage_of self.now) }
    {
        let mut lost = [false; HARTS as usize];
        for hart in 0..HARTS {
            lost[usize::from(hart)] = self.is_lost(hart);
        }
        lost
    }

    // What the move tells is written, unless it was as the walk was lost; then the walks that it loses fail, in order of hart.
    fn moves(&mut self, alloc: Global, hart: u8, mark: Mark) -> Result<(), NoMemory>
        ensures { IfOk result (λ _. MovesBy self.old hart mark self.new) }
    {
        let before = self.lost();
        let was_lost = self.is_lost(hart);
        let told = self.told(alloc, hart, mark)?;
        self.tell(hart, mark, told, was_lost)?;
        self.fall(&before)
    }

    // What is reported is written, unless the walk was lost before; and whether the mark says that there was no room.
    fn tell(
        &mut self,
        hart: u8,
        mark: Mark,
        told: Option<Deed>,
        was_lost: bool,
    ) -> Result<(), NoMemory>
        ensures told { IfOk result (λ _. self.new ≡ told_in self.old hart mark told was_lost) }
        ensures harts { length self.old.harts ≡ hart_count }
    {
        self.full = self.full || spoils(mark);
        match told {
            Some(deed) => {
                if was_lost {
                    Ok(())
                } else {
                    self.write(hart, deed)
                }
            }
            None => Ok(()),
        }
    }

    // The hart's walk is lost by now and wasn't before.
    fn falls(&self, before: &[bool; HARTS as usize], hart: u8) -> bool
        requires { hart < HARTS }
        ensures { result ≡ (not (slice_index_or before.now hart false) && is_lost (stage_of self.now) hart) }
    {
        !before[usize::from(hart)] && self.is_lost(hart)
    }

    // The walks fail that are lost by now and weren't before, in order of hart.
    fn fall(&mut self, before: &[bool; HARTS as usize]) -> Result<(), NoMemory>
        ensures stage { IfOk result (λ _. stage_of self.new ≡ stage_of self.old) }
        ensures book { IfOk result (λ _. HaveFallen before.now self.old self.new) }
        ensures none { IfOk result (λ _. NoneFalls before.now self.old self.new) }
        ensures rest { IfOk result (λ _. KeepsRest self.old self.new) }
    {
        for hart in 0..HARTS {
            if self.falls(before, hart) {
                self.fails(hart)?;
            }
        }
        Ok(())
    }

    // What is reported of a tree step when this move is made. If there is no room, no list explains the run, and
    // nothing is reported.
    fn told(&mut self, alloc: Global, hart: u8, mark: Mark) -> Result<Option<Deed>, NoMemory>
        ensures only { IfOk result (λ _. OnlyMoves self.old self.new) }
        ensures tells { IfOk result (λ d. TellsOf self.old hart mark d self.new) }
        ensures stays { IfOk result (λ d. StaysFor self.old mark d self.new) }
    {
        match mark {
            Mark::Begin => self.begins(alloc, hart),
            Mark::Look(new) => self.looks(alloc, hart, new),
            Mark::GiveUpWalk => self.quits(alloc, hart),
            Mark::Own => self.acts_alone(alloc, hart, Mark::Own),
            Mark::Truncate(fd) => self.acts_alone(alloc, hart, Mark::Truncate(fd)),
            Mark::Bump => self.acts_alone(alloc, hart, Mark::Bump),
            Mark::Unbump => self.acts_alone(alloc, hart, Mark::Unbump),
            Mark::Piece(index) => self.acts_alone(alloc, hart, Mark::Piece(index)),
            Mark::PartOfPiece(_, _) => Ok(None),
            Mark::Frees(_) => Ok(None),
            Mark::Orphans(_) => Ok(None),
            Mark::Mends => Ok(None),
            Mark::Fills => Ok(None),
        }
    }

    // The tree can't make this move: some step found no room. Nothing is reported of it.
    fn cannot_move(&mut self) -> Option<Deed>
        ensures none { result ≡ None }
        ensures full { self.new ≡ record self.old { full = true } }
    {
        self.full = true;
        None
    }

    // The step with its answer, unless the tree refuses the number that it says.
    fn deed_of(
        &mut self,
        step: TreeStep,
        answer: Result<StepAnswer, ApplyRefused>,
    ) -> Result<Option<Deed>, NoMemory>
        ensures deed { IfOk result (λ d. IsDeedOf step answer d) }
        ensures full { IfOk result (λ d. self.new ≡ record self.old { full = is_nothing d || self.old.full }) }
    {
        let TreeStep { action, new, .. } = step;
        match answer {
            Ok(answer) => Ok(Some(Deed {
                action,
                answer,
                new,
            })),
            Err(ApplyRefused::BadChoice) => Ok(self.cannot_move()),
            Err(ApplyRefused::NoMemory) => Err(NoMemory),
        }
    }

    // The step of a walk acts on the tree, by what that has found, and the walk is over. One that the tree refuses is left out.
    fn acts(&mut self, alloc: Global, step: TreeStep, lead: Lead) -> Result<Option<Deed>, NoMemory>
        requires { IfSome lead.parent (λ d. live_directory ((tree_of self.old.tree).nodes d) ≡ true) }
        ensures { IfOk result (λ d. IsActed step lead.node
            (with_name lead.parent (name_from self.old.version lead.from (path_of step.action))) self.old d self.new) }
    {
        self.set_walk(step.hart, None);
        let found = Found {
            node: lead.node,
            parent: lead.parent,
            name: name_from(self.version, step.action.path(), lead.from),
        };
        let answer = self.tree.apply_found(alloc, self.version, &step, &found);
        self.deed_of(step, answer)
    }

    // The step that the mark is for acts; it follows no path.
    fn acts_alone(&mut self, alloc: Global, hart: u8, mark: Mark) -> Result<Option<Deed>, NoMemory>
        ensures only { IfOk result (λ _. OnlyMoves self.old self.new) }
        ensures acts { IfOk result (λ d. (u : Under) → hart_in self.old hart ≡ Some u
            → IsActedAlone self.old (tree_step hart 0 (step_in (action_in u.whole) mark)) d self.new) }
    {
        let Some(standing) = self.standing(hart) else {
            return Ok(None);
        };
        let action = standing.action(alloc, mark)?;
        self.set_walk(hart, None);
        let step = TreeStep {
            hart,
            new: 0,
            action,
        };
        let answer = self.tree.apply(alloc, self.version, &step);
        self.deed_of(step, answer)
    }

    // A walk is at the start of its path; a path without elements is found there.
    fn begins(&mut self, alloc: Global, hart: u8) -> Result<Option<Deed>, NoMemory>
        ensures only { IfOk result (λ _. OnlyMoves self.old self.new) }
        ensures tells { IfOk result (λ d. TellsOf self.old hart Mark.Begin d self.new) }
    {
        let version = self.version;
        let Some(standing) = self.standing(hart) else {
            return Ok(None);
        };
        match standing.start(version, self.directory(hart)) {
            Some(walk) => {
                self.set_walk(hart, Some(walk));
                Ok(None)
            }
            None => {
                let lead = Lead {
                    node: Some(standing.start_number(self.directory(hart))),
                    parent: None,
                    from: 0,
                };
                let action = standing.action(alloc, Mark::Begin)?;
                let step = TreeStep {
                    hart,
                    new: 0,
                    action,
                };
                self.acts(alloc, step, lead)
            }
        }
    }

    // The walk is in a live directory.
    fn is_live(&self, walk: Walk) -> bool
        ensures { result ≡ live_directory ((tree_of self.now.tree).nodes walk.directory) }
    {
        self.tree.is_live_directory(walk.directory)
    }

    // The walk's place when it has looked up its next element, if it found that and goes on.
    fn next_walk(&self, standing: &Standing, walk: Walk) -> Option<Walk>
        ensures { let before = walk_of self.now.version (call_in standing.now.whole) walk in
            IsNextWalk self.now.version (call_in standing.now.whole) result before
            (look (tree_of self.now.tree).nodes before.at before.next) }
    {
        let number = self
            .tree
            .look(walk.directory, standing.name(self.version, walk))?;
        standing.after(self.version, walk, number)
    }

    // What the walk's step acts by if it doesn't go on: what its directory has under the last element, or nothing.
    fn lead(&self, standing: &Standing, walk: Walk) -> Lead
        ensures { let before = walk_of self.now.version (call_in standing.now.whole) walk in
            LeadsBy result walk before.rest (look (tree_of self.now.tree).nodes before.at before.next) }
    {
        if !standing.is_last(self.version, walk) {
            return Lead {
                node: None,
                parent: None,
                from: 0,
            };
        }
        Lead {
            node: self
                .tree
                .look(walk.directory, standing.name(self.version, walk)),
            parent: Some(walk.directory),
            from: walk.from,
        }
    }

    // The next element is looked up: the step acts at the last one, or when nothing is found. Without a walk nothing
    // is looked up, and in a directory that isn't live nothing can be.
    fn looks(&mut self, alloc: Global, hart: u8, new: u32) -> Result<Option<Deed>, NoMemory>
        ensures only { IfOk result (λ _. OnlyMoves self.old self.new) }
        ensures tells { IfOk result (λ d. TellsOf self.old hart (Mark.Look new) d self.new) }
    {
        let Some(standing) = self.standing(hart) else {
            return Ok(None);
        };
        let Some(walk) = standing.walk() else {
            return Ok(None);
        };
        if !self.is_live(walk) {
            return Ok(self.cannot_move());
        }
        match self.next_walk(standing, walk) {
            Some(next) => {
                self.set_walk(hart, Some(next));
                Ok(None)
            }
            None => {
                let action = standing.step(walk)?;
                let lead = self.lead(standing, walk);
                let step = TreeStep {
                    hart,
                    new: node_number(new),
                    action,
                };
                self.acts(alloc, step, lead)
            }
        }
    }

    // The walk is given up: its step fails.
    fn quits(&mut self, alloc: Global, hart: u8) -> Result<Option<Deed>, NoMemory>
        ensures only { IfOk result (λ _. OnlyMoves self.old self.new) }
        ensures tells { IfOk result (λ d. TellsOf self.old hart Mark.GiveUpWalk d self.new) }
    {
        let Some(standing) = self.standing(hart) else {
            return Ok(None);
        };
        let action = standing.action(alloc, Mark::GiveUpWalk)?;
        self.set_walk(hart, None);
        Ok(Some(failed(action)))
    }

    fn set_walk(&mut self, hart: u8, walk: Option<Walk>)
        ensures { self.new ≡ with_walk self.old hart walk }
    {
        let Some(standing) = self.take(hart) else {
            return;
        };
        let mut standing = standing;
        standing.set_walk(walk);
        self.put(hart, Some(standing));
    }

    // An entry of the hart's call at this event.
    fn write(&mut self, hart: u8, deed: Deed) -> Result<(), NoMemory>
        ensures { IfOk result (λ _. self.new ≡ written self.old hart deed) }
    {
        let Some(standing) = self.standing(hart) else {
            return Ok(());
        };
        let call = standing.id();
        let Deed {
            action,
            answer,
            new,
        } = deed;
        self.list.push(Placed {
            event: self.events,
            call,
            step: TreeStep { hart, new, action },
            answer,
        })?;
        Ok(())
    }

    // The step of the hart's walk fails.
    fn fails(&mut self, hart: u8) -> Result<(), NoMemory>
        ensures { (d : moves.Deed) → lost_of (stage_of self.old) hart ≡ Some d
            → IfOk result (λ _. self.new ≡ written self.old hart d) }
    {
        let Some(standing) = self.standing(hart) else {
            return Ok(());
        };
        let Some(walk) = standing.walk() else {
            return Ok(());
        };
        let action = standing.step(walk)?;
        self.write(hart, failed(action))
    }
}
