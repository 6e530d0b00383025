//! chdir.
ghost use Rattle.std.specs.Prelude.{◌≡◌, ◌≢◌, ℕ, All, List, Option, Some, false};
ghost use Rattle.image_versions.specs.declared.version.Version.{Version};
ghost use Rattle.plain_tree.specs.declared.call.Call.TheVariants as calls;
ghost use Rattle.plain_tree.specs.declared.step.Action.TheVariants as steps;
ghost use Rattle.whole_calls.specs.Vocabulary.{asks, hears, mark_at, marked_as, op_in, stepped, IsNamed};
ghost use Rattle.whole_calls.specs.Calls.{chdir_of, chdir_stage, Fits};

use crate::dropping::Dropping;
use crate::ending::Ending;
use image_versions::Version;
use path_walk::{Ask, Goal, Heard, Mark, Numbers, Query, Walk, Walked, is_directory, stopped};
use plain_tree::{Answer, Cause};

/// The new directory first, then the old one's reference is dropped (xv6: `sys_chdir`).
#[derive(Clone, Copy)]
pub enum Chdir {
    Join,
    Walks(Walk),
    Look(u32),
    SetDirectory(u32),
    Ends(Ending),
}

impl Chdir {
    #[inline(always)]
    pub fn ask(&self, path: &[u8]) -> Ask
        ensures asks { (v : Version) (list : List ℕ) → asks (chdir_of v path.now list self.now) ≡ Some (op_in path.now result) }
        ensures named { (v : Version) (list : List ℕ) → Fits v path.now list (chdir_stage self.now) → IsNamed v path.now result }
    {
        match self {
            Chdir::Join => Ask::Join,
            Chdir::Walks(walk) => walk.ask(path),
            Chdir::Look(number) => Ask::Take(*number, Query::Nothing),
            Chdir::SetDirectory(number) => Ask::SetDirectory(*number),
            Chdir::Ends(ending) => ending.ask(),
        }
    }

    /// Goes on in its place with what it hears: true if it has ended, with its answer left in `says`.
    #[inline(always)]
    pub fn step(
        &mut self,
        version: Version,
        heard: &Heard,
        path: &[u8],
        list: &mut Numbers,
        says: &mut Answer,
    ) -> bool
        requires nonzero { All (λ b. b ≢ 0) path.now }
        requires fits { Fits version path.now list.old (chdir_stage self.old) }
        ensures goes { (text : List ℕ)
            → hears text (chdir_of version path.now list.old self.old) heard.now
            ≡ stepped (chdir_of version path.now list.new self.new) (calls.Chdir path.now) says.new result }
        ensures fits { result ≡ false → Fits version path.now list.new (chdir_stage self.new) }
    {
        match self {
            Chdir::Join => *self = Chdir::Walks(Walk::Start),
            Chdir::Walks(walk) => match walk.step(version, Goal::Inside, heard, path, list) {
                Walked::Walks => {}
                Walked::Reached(number, _) => *self = Chdir::Look(number),
                Walked::Lost(why) => *self = Chdir::Ends(Ending::Leaves(stopped(why))),
            },
            Chdir::Look(number) => {
                *self = if is_directory(&heard.sight()) {
                    Chdir::SetDirectory(*number)
                } else {
                    let answer = Answer::Failed(Cause::NotDirectory);
                    Chdir::Ends(Ending::Gives(Dropping::UnlockInode(*number), answer))
                };
            }
            Chdir::SetDirectory(_) => {
                let dropping = Dropping::Down(heard.old());
                *self = Chdir::Ends(Ending::Gives(dropping, Answer::Done));
            }
            Chdir::Ends(ending) => return ending.step(heard, list, says),
        }
        false
    }

    pub fn mark(&self, heard: &Heard) -> Option<Mark>
        ensures { (v : Version) (path list : List ℕ)
            → mark_at (chdir_of v path list self.now) heard.now ≡ marked_as (steps.Chdir path) result }
    {
        match self {
            Chdir::Walks(walk) => walk.mark(heard),
            Chdir::Ends(ending) => ending.mark(),
            _ => None,
        }
    }
}
