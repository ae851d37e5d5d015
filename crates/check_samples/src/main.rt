//! The check on many files: the bench samples of document 01 that concern it, and its vectors. For
//! each of data/000 to data/297 it prints the file's name and the check's line; the report is
//! compared with the stored one.
#![tactic(auto)]

use files::{print, read_file};
use language::limit::{CHECK_LINE, MOST_BYTES};
use std::io::Write;
use std::rt::Files;

// The name of the sample: its number in three digits.
fn name(i: usize) -> [u8; 3] {
    let mut name = [0u8; 3];
    let _ = write!(&mut name[..], "{i:03}");
    name
}

fn report(rt: &(impl Files + Print + Eprint), i: usize) {
    let path = name(i);
    let mut text = [0u8; MOST_BYTES + 1];
    let Ok(n) = read_file(rt, &path, &mut text) else {
        return;
    };
    let line = listing::check_line(checker::check::check(&text[..n]));
    let _ = print(rt, &path, 3);
    let _ = print(rt, b" ", 1);
    let _ = print(rt, &line, CHECK_LINE as u32);
}

fn main(rt: HostRuntime) {
    for i in 0..298 {
        report(&rt, i);
    }
}
