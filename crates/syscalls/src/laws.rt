//! Laws about calls over whole inodes, by what is in hand.
ghost use Rattle.std.specs.Prelude.{ℕ, List, []};
ghost use Rattle.syscalls.specs.Vocabulary.{Call, IsCall, path_of, RunsByParts, RunsAlone, Version};
ghost use Rattle.plain_tree.specs.declared.call.Call.TheVariants as calls;

/// Each operation of these calls finds in hand what it asks, whatever those before it answered, and at the end
/// nothing is in hand.
pub fn calls_find_what_they_ask()
    ensures close { (version : Version) (fd : ℕ) → RunsAlone version [] (calls.Close fd) }
    ensures inherit { (version : Version) (child : ℕ) → RunsAlone version [] (calls.Inherit child) }
    ensures fstat { (version : Version) (fd : ℕ) → RunsAlone version [] (calls.Fstat fd) }
    ensures dup { (version : Version) (fd : ℕ) → RunsAlone version [] (calls.Dup fd) }
    ensures read { (version : Version) (text : List ℕ) (fd : ℕ) (buffer : List ℕ) → RunsAlone version text (calls.Read fd buffer) }
    ensures write { (version : Version) (text : List ℕ) (fd : ℕ) (bytes : List ℕ) → RunsAlone version text (calls.Write fd bytes) }
    ensures chdir { (version : Version) (path : List ℕ) → RunsAlone version path (calls.Chdir path) }
    ensures opens { (version : Version) (path : List ℕ) (flags : ℕ) → RunsAlone version path (calls.Open path flags) }
    ensures mkdir { (version : Version) (path : List ℕ) → RunsAlone version path (calls.Mkdir path) }
    ensures link { (version : Version) (text old new : List ℕ) → RunsAlone version text (calls.Link old new) }
    ensures unlink { (version : Version) (path : List ℕ) → RunsAlone version path (calls.Unlink path) }
{}

/// So each call runs below by parts, that is as a start asks.
pub fn calls_run_by_parts()
    ensures { (version : Version) (call : Call) → IsCall version call → RunsByParts version (path_of call) call }
{}
