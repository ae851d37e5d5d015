//! Runs of many files: the bench samples of document 01 that concern running, its vectors, and long
//! runs under several allowances. For each sample i it reads the text in data/iiip and the choices
//! in data/iiic, and prints the sample's name and the listing; the report is compared with the
//! stored one.
#![tactic(auto)]

use files::{print, read_file};
use language::limit::{MOST_BYTES, MOST_CHOICE_BYTES, MOST_LISTING_BYTES};
use machine::offset::STATE_LENGTH;
use runs::printing::run_listing;
use std::io::Write;
use std::rt::Files;

// The number of the sample in three digits, and the character after it: which of its two files, or
// the end of its line.
fn name(i: usize, after: char) -> [u8; 4] {
    let mut name = [0u8; 4];
    let _ = write!(&mut name[..], "{i:03}{after}");
    name
}

fn report(rt: &(impl Files + Print + Eprint), i: usize) {
    let mut text = [0u8; MOST_BYTES + 1];
    let Ok(n) = read_file(rt, &name(i, 'p'), &mut text) else {
        return;
    };
    let mut choices = [0u8; MOST_CHOICE_BYTES + 1];
    let Ok(m) = read_file(rt, &name(i, 'c'), &mut choices) else {
        return;
    };
    let mut state = [0u64; STATE_LENGTH];
    let mut out = [0u8; MOST_LISTING_BYTES];
    let listing = run_listing(&text[..n], &choices[..m], &mut state, &mut out);
    let _ = print(rt, &name(i, '\n'), 4);
    let _ = print(rt, &out, listing.length);
}

fn main(rt: HostRuntime) {
    for i in 0..298 {
        report(&rt, i);
    }
}
