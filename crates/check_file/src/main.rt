//! Reads prog.txt in the folder it runs in, an absent file as empty, and prints what the check
//! answers: the number of the refusal and the frame, 00 0000 where the file is accepted. Of a file
//! that cannot be read, nothing.
#![tactic(auto)]

use files::{print, read_file};
use language::limit::{CHECK_LINE, MOST_BYTES};

// One byte more than the longest text, so that a longer one is seen to be longer; no `Vec`, whose
// memory can run out.
fn main(rt: HostRuntime) {
    let mut text = [0u8; MOST_BYTES + 1];
    let Ok(n) = read_file(&rt, b"prog.txt", &mut text) else {
        return;
    };
    let line = listing::check_line(checker::check::check(&text[..n]));
    let _ = print(&rt, &line, CHECK_LINE as u32);
}
