//! Reads prog.txt in the folder it runs in, an absent file as empty, and prints a line that sums it
//! up, each number in four digits: how many lines from the start on are frames, up to the first
//! that is none; then, where the first line is one, A and B of that frame, in a header the allowance
//! and the schedulers. Of a file that cannot be read, nothing.
#![tactic(auto)]

use files::{print, read_file};
use language::frame::Frame;
use language::limit::MOST_BYTES;
use listing::digits::hex_digits;

// Prints the last four digits of a number.
fn print_number(rt: &(impl Print + Eprint), n: u64) {
    let _ = print(rt, &hex_digits::<4>(n), 4);
}

fn print_first(rt: &(impl Print + Eprint), first: Frame) {
    let _ = print(rt, b" ", 1);
    print_number(rt, u64::from(first.a));
    let _ = print(rt, b" ", 1);
    print_number(rt, u64::from(first.b));
}

// As many bytes as the longest text has; no `Vec`, whose memory can run out.
fn main(rt: HostRuntime) {
    let mut text = [0u8; MOST_BYTES];
    let Ok(n) = read_file(&rt, b"prog.txt", &mut text) else {
        return;
    };
    let frames = lines::leading_frames(&text[..n]);
    print_number(&rt, frames as u64);
    if let Some(first) = lines::first_frame(&text[..n]) {
        print_first(&rt, first);
    }
    let _ = print(&rt, b"\n", 1);
}
