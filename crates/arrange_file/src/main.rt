//! Reads prog.txt in the folder it runs in, an absent file as empty, and prints its lines laid out,
//! or, where they cannot be, the number of the refusal and the frame, as `check` does. Of a file
//! that cannot be read, nothing.
#![tactic(auto)]

use files::{print, read_file};
use language::limit::{CHECK_LINE, MOST_BYTES};
use language::refusal::Verdict;
use listing::check_line;
use writer::arrange;

// The text's lines, laid out in the first bytes of the buffer. A text for which it is too short is
// refused whatever the buffer.
fn lay_into(text: &[u8], out: &mut [u8]) -> Verdict {
    let n = text.len().min(out.len());
    arrange(text, &mut out[..n])
}

// Both buffers have one byte more than the longest text, so that a longer one is seen to be longer;
// they are no `Vec`s, whose memory can run out.
fn main(rt: HostRuntime) {
    let mut text = [0u8; MOST_BYTES + 1];
    let Ok(n) = read_file(&rt, b"prog.txt", &mut text) else {
        return;
    };
    let mut out = [0u8; MOST_BYTES + 1];
    let _ = match lay_into(&text[..n], &mut out) {
        Ok(()) => print(&rt, &out, n as u32),
        Err(refusal) => print(&rt, &check_line(Err(refusal)), CHECK_LINE as u32),
    };
}
