//! What the programs of the eleven calls ask for, operation by operation. It is said once for all that depends on it.
//! The functions do nothing: each carries a law.
#![tactic(auto)]

ghost use Rattle.image_versions.specs.declared.version.Version.{Version};
ghost use Rattle.inode_machine.specs.Budget.{TransactionsAreSmall};
ghost use Rattle.call_programs.specs.Asks.{CallsAskSo};

/// Whatever its operations answer, each call's program asks only for what may be asked. It names inodes that it has
/// in hand, or of which its transaction may still record. A name that it enters fits. What it writes is a piece of
/// the call's bytes, and a new inode is a file or a directory. An operation's mark says that there was no room
/// exactly when its answer does. The reply hands the call back, except for what was read. It says that there is no
/// room only if an operation has wanted that room. Then the operations have changed no more than the kind of room and
/// the call allow.
pub fn calls_ask_so()
    ensures { (version : Version) → CallsAskSo version }
{}

/// No transaction of a call records more than ten blocks, whatever the call's operations answer. These are the
/// bitmap, the blocks of contents that it writes, and the blocks with the records of the inodes that it changes or
/// frees. Each such inode is counted once.
pub fn transactions_are_small()
    ensures { (version : Version) → TransactionsAreSmall version }
{}
