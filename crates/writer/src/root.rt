//! A whole file: the trees of its header, its declarations and its modules.
ghost use Rattle.std.specs.Prelude.{◌≡◌, ◌+◌, ◌*◌, ◌<◌, ◌≤◌, length};
ghost use Rattle.language.specs.Limits.{line_length, most_lines};
ghost use Rattle.text.specs.Frames.{frames_of};
ghost use Rattle.program.specs.Trees.{frame_at};
ghost use Rattle.drawing.specs.Drawings.{rank, ranks, numbered, drawing, laid_out};
ghost use Rattle.drawing.specs.Texts.{bytes_of};
ghost use Rattle.drawing.specs.Writings.{Writable};
ghost use Rattle.writer.specs.Inner.Placing.{with_lines, LineRoom, lines_at, root_at};

use crate::emit::emit;
use language::kind::Kind;
use language::limit::MOST_DEPTH;
use program::frames::frame_at;

// Ranks are numbers and no enum: `rank` and `roots_to` of drawing/specs/Drawings count them.
const HEADER_RANK: u8 = 0;

// After the declarations.
const MODULE_RANK: u8 = 4;

const RANKS: u8 = MODULE_RANK + 1;

// A module stands above its body.
const LEVELS: u8 = MOST_DEPTH + 1;

// In which turn a line comes that is no child.
fn rank_of(kind: Kind) -> u8
    ensures { result ≡ rank kind }
{
    match kind {
        Kind::Header => HEADER_RANK,
        Kind::Declared(d) => d.rank(),
        Kind::Module => MODULE_RANK,
        Kind::Statement(_) | Kind::Expression(_) | Kind::Unknown => RANKS,
    }
}

// Writes the tree of line i from line n on, if it is of the rank, and answers the next line's
// number.
fn lay_root(words: &[u64], i: usize, rank: u8, n: usize, out: &mut [u8]) -> usize
    requires { Writable (frames_of words.now) × (i < length words.now) × (rank < ranks)
        × LineRoom out.old n
        (length (lines_at words.now n (root_at rank i (frame_at (frames_of words.now) i)))) }
    ensures written { out.new
        ≡ with_lines out.old n (lines_at words.now n
        (root_at rank i (frame_at (frames_of words.now) i))) }
    ensures next { result
        ≡ n + length (lines_at words.now n
        (root_at rank i (frame_at (frames_of words.now) i))) }
{
    if rank_of(frame_at(words, i).kind) == rank {
        emit(words, i, n, LEVELS, out)
    } else {
        n
    }
}

// The same for all lines of the rank, in their order.
fn lay_rank(words: &[u64], rank: u8, n: usize, out: &mut [u8]) -> usize
    requires { Writable (frames_of words.now) × (rank < ranks)
        × LineRoom out.old n
        (length (lines_at words.now n (numbered rank 0 (frames_of words.now)))) }
    ensures written { out.new
        ≡ with_lines out.old n
        (lines_at words.now n (numbered rank 0 (frames_of words.now))) }
    ensures next { result
        ≡ n + length
        (lines_at words.now n (numbered rank 0 (frames_of words.now))) }
{
    let mut next = n;
    for i in 0..words.len() {
        next = lay_root(words, i, rank, next, out);
    }
    next
}

// Writes the whole file, rank by rank. The buffer is as long as the file's text.
pub(crate) fn lay_all(words: &[u64], out: &mut [u8])
    requires { Writable (frames_of words.now) × (length words.now ≤ most_lines)
        × (length out.old ≡ line_length * length words.now) }
    ensures { out.new ≡ bytes_of (laid_out (drawing words.now)) }
{
    let mut next: usize = 0;
    for rank in HEADER_RANK..RANKS {
        next = lay_rank(words, rank, next, out);
    }
}
