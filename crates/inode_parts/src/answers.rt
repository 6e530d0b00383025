//! What the answers of operations below say of those on whole inodes.
ghost use Rattle.std.specs.Prelude.{◌≡◌};
ghost use Rattle.inode_parts.specs.Vocabulary.{doubled_by, given_by, joined_by, number_by, refused_by, shut_by, cause_if, cause_of, doubled_to, old_directory, shut_to};
ghost use Rattle.inode_parts.specs.OneSteps.{joining_heard, loan_heard};
ghost use Rattle.path_walk.specs.declared.asks.Heard.TheVariants as heard;

use fs_machine::{Answer, Doubled, ROOT, Refused};
use path_walk::{Joined, Loan};
use plain_tree::Cause;

/// Why a call fails whose descriptor was refused so.
pub(crate) fn cause(refused: Refused) -> Cause
    ensures { result ≡ cause_of refused }
{
    match refused {
        Refused::BadDescriptor => Cause::BadDescriptor,
        Refused::BadMode => Cause::BadMode,
        Refused::NoDriver => Cause::NoDriver,
    }
}

/// The number that was answered.
pub(crate) fn number_in(answer: &Answer) -> Option<u32>
    ensures { result ≡ number_by answer.now }
{
    match *answer {
        Answer::Number(number) => Some(number),
        _ => None,
    }
}

/// Why a descriptor was refused.
pub(crate) fn checked_in(answer: &Answer) -> Option<Cause>
    ensures { result ≡ cause_if (refused_by answer.now) }
{
    match *answer {
        Answer::Refused(why) => Some(cause(why)),
        _ => None,
    }
}

/// The inode for which a transaction was joined.
pub(crate) fn joined_in(answer: &Answer) -> Joined
    ensures { heard.Joined result ≡ joining_heard (joined_by answer.now) }
{
    match *answer {
        Answer::Refused(why) => Joined::Refused(cause(why)),
        Answer::Number(number) => Joined::For(number),
        _ => Joined::Refused(Cause::BadDescriptor),
    }
}

/// One descriptor more.
pub(crate) fn doubled_in(answer: &Answer) -> Option<Option<u32>>
    ensures { result ≡ doubled_to (doubled_by answer.now) }
{
    match *answer {
        Answer::Doubled(Doubled::BadDescriptor) => None,
        Answer::Doubled(Doubled::Gave(fd)) => Some(Some(u32::from(fd))),
        _ => Some(None),
    }
}

/// One descriptor less. If that was the last one, its inode has this number.
pub(crate) fn shut_in(answer: &Answer, number: u32) -> Option<Option<u32>>
    ensures { result ≡ shut_to (shut_by answer.now number) }
{
    match *answer {
        Answer::Is(true) => Some(Some(number)),
        Answer::Refused(_) => None,
        _ => Some(None),
    }
}

/// What was handed on; the child's directory had this number before.
pub(crate) fn loan_in(answer: &Answer, number: u32) -> Loan
    ensures { heard.Loan result ≡ loan_heard (given_by answer.now number) }
{
    match *answer {
        Answer::Given(fd, more) => Loan::Lent(fd, more),
        _ => Loan::Moved(number),
    }
}

/// The child's directory before, which had this number.
pub(crate) fn old_in(answer: &Answer, number: u32) -> u32
    ensures { result ≡ old_directory (given_by answer.now number) }
{
    match *answer {
        Answer::Given(_, _) => ROOT,
        _ => number,
    }
}
