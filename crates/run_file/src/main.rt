//! Reads prog.txt and choices.txt in the folder it runs in, an absent file as empty, and prints the
//! listing of the run: the check's line, a line for each choice used, and how many were used. Where
//! one that is needed cannot be read, nothing.
#![tactic(auto)]

ghost use Rattle.std.specs.Prelude.{IfOk};
ghost use Rattle.io.specs.Counts.{IsPrefixLen};

use files::{print, read_file};
use language::limit::{MOST_BYTES, MOST_CHOICE_BYTES, MOST_LISTING_BYTES};
use layout::layout_verdict;
use machine::offset::STATE_LENGTH;
use runs::printing::run_listing;
use std::io;
use std::rt::Files;

// The bytes of choices.txt. A text that refusals 1 to 7 stop needs none, so there the file is not
// read.
fn choices_for(rt: &(impl Files + Eprint), text: &[u8], choices: &mut [u8]) -> io::Result<usize>
    ensures { IfOk result (λ n. IsPrefixLen n choices.new) }
{
    if layout_verdict(text).is_err() {
        return Ok(0);
    }
    read_file(rt, b"choices.txt", choices)
}

// Each file's buffer has one byte more than the longest that is read, so that a longer file is seen
// to be longer; no buffer is a `Vec`, whose memory can run out.
fn main(rt: HostRuntime) {
    let mut text = [0u8; MOST_BYTES + 1];
    let Ok(n) = read_file(&rt, b"prog.txt", &mut text) else {
        return;
    };
    let mut choices = [0u8; MOST_CHOICE_BYTES + 1];
    let Ok(m) = choices_for(&rt, &text[..n], &mut choices) else {
        return;
    };
    let mut state = [0u64; STATE_LENGTH];
    let mut out = [0u8; MOST_LISTING_BYTES];
    let listing = run_listing(&text[..n], &choices[..m], &mut state, &mut out);
    let _ = print(&rt, &out, listing.length);
}
