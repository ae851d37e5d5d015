//! Trees, written with their children before them.
ghost use Rattle.std.specs.Prelude.{◌≡◌, ◌+◌};
ghost use Rattle.drawing.specs.Drawings.{size, size_in, drawn, lined, lined_in};
ghost use Rattle.writer.specs.Inner.Fields.{field_by, placed_from};
ghost use Rattle.writer.specs.Inner.Placing.{with_lines, LineRoom, HasTree, FieldHasTree};

use crate::child::{Holds, child_fields, names_child};
use crate::line::{new_line, put_line};
use text::line::frame_of_word;

// Of a field whose child has been written: what the new line holds in it, and the next line's
// number.
#[derive(Clone, Copy, Debug, PartialEq, Eq)]
pub(crate) struct Placed {
    pub value: u16,
    pub next: usize,
}

// Writes the tree of line i, which has at most so many levels, from line n on, and answers the next
// line's number. The buffer and n are no struct: one that holds the `&mut` would owe a `ghost_name`
// clause in each function, and is no plainer.
#[cycle(emit_emit_field)]
pub(crate) fn emit(words: &[u64], i: usize, n: usize, levels: u8, out: &mut [u8]) -> usize
    requires { HasTree words.now levels i
        × LineRoom out.old n (size (drawn levels words.now i)) }
    ensures written { out.new
        ≡ with_lines out.old n (lined n (drawn levels words.now i)) }
    ensures next { result ≡ n + size (drawn levels words.now i) }
{
    let w = words[i];
    let f = frame_of_word(w);
    let holds = child_fields(f.kind);
    let below = levels - 1;
    let a = emit_field(words, holds.a, f.a, n, below, out);
    let b = emit_field(words, holds.b, f.b, a.next, below, out);
    let c = emit_field(words, holds.c, f.c, b.next, below, out);
    put_line(out, c.next, new_line(w, a.value, b.value, c.value));
    c.next + 1
}

// The same for the child that a field names, if it names one. A child is the last line of its tree.
#[cycle(emit_emit_field)]
fn emit_field(words: &[u64], holds: Holds, v: u16, n: usize, levels: u8, out: &mut [u8]) -> Placed
    requires { FieldHasTree words.now levels holds v
        × LineRoom out.old n (size_in (field_by (drawn levels words.now) holds v)) }
    ensures written { out.new
        ≡ with_lines out.old n
        (lined_in n (field_by (drawn levels words.now) holds v)) }
    ensures placed { result
        ≡ placed_from n (field_by (drawn levels words.now) holds v) }
{
    if names_child(holds, v) {
        let next = emit(words, usize::from(v), n, levels, out);
        Placed {
            value: (next - 1) as u16,
            next,
        }
    } else {
        Placed { value: v, next: n }
    }
}
