//! The head of the log: its first block. docs/FORMATS.md has its table; the xv6 book, chapter 8, its
//! use.
ghost use Rattle.std.specs.Prelude.{◌≡◌, ◌+◌, ◌*◌, ◌≤◌, ◌<◌, ◌^◌, ℕ, List, Some, length};
ghost use Rattle.fs_layout.specs.Vocabulary.{AllByRecursion};
ghost use Rattle.fs_layout.specs.Bytes.{overwrite, u32s_at, IsBytes};
ghost use Rattle.fs_layout.specs.LogHead.{log_head, log_head_of, spell_log_head};
ghost use Rattle.fs_layout.specs.Widths.{log_head_count_at, log_head_len, log_head_numbers_at, number_len};

use crate::bytes::{put_u32, put_u32s, u32_in};
use crate::widths::{Block, LOG_HEAD_COUNT_AT, LOG_HEAD_LEN, LOG_HEAD_NUMBERS_AT, NUMBER_LEN};
use arrayvec::ArrayVec;

/// The home blocks of the logged blocks, in order: the copy of the first is the block right after the head, and so on
/// (xv6: `struct logheader`).
#[derive(Drop)]
pub struct LogHead {
    pub blocks: ArrayVec<u32, LOG_HEAD_LEN>,
}

/// The log's head that a block is; `None` if it says that it names more blocks than it has room for.
pub fn read_log_head(block: &Block) -> Option<LogHead>
    ensures { result ≡ log_head_of block.now }
{
    let n = u32_in(block, LOG_HEAD_COUNT_AT) as usize;
    if n > LOG_HEAD_LEN {
        return None;
    }
    Some(LogHead {
        blocks: first_numbers(block, n),
    })
}

/// Writes the log's head with these home blocks; with none of them the log is empty. The bytes after the head stay.
pub fn write_log_head(block: &mut Block, blocks: &[u32])
    requires { length blocks.now ≤ log_head_len }
    ensures bytes { block.new ≡ overwrite block.old log_head_count_at (spell_log_head blocks.now) }
    ensures reads_back { log_head_of block.new ≡ Some (log_head blocks.now) }
{
    put_u32(block, LOG_HEAD_COUNT_AT, blocks.len() as u32);
    put_u32s(block, LOG_HEAD_NUMBERS_AT, blocks);
}

/// A head and its bytes determine each other, and other bytes are none.
pub fn log_head_spelling()
    ensures reads_back { (blocks : List ℕ) → length blocks ≤ log_head_len → AllByRecursion (λ n. n < 2 ^ 32) blocks
        → log_head_of (spell_log_head blocks) ≡ Some (log_head blocks) }
    ensures only { (bytes blocks : List ℕ) → length bytes ≡ log_head_numbers_at + number_len * length blocks → IsBytes bytes
        → log_head_of bytes ≡ Some (log_head blocks) → spell_log_head blocks ≡ bytes }
{}

fn first_numbers(block: &Block, n: usize) -> ArrayVec<u32, LOG_HEAD_LEN>
    requires { n ≤ log_head_len }
    ensures { result.items ≡ u32s_at n block.now log_head_numbers_at }
{
    let mut numbers = ArrayVec::new();
    for i in 0..n {
        numbers.push(u32_in(block, LOG_HEAD_NUMBERS_AT + NUMBER_LEN * i));
    }
    numbers
}
