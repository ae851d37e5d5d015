//! Frames: the lines of a text.
use crate::kind::Kind;

/// K, S, A, B and C of a line.
#[derive(Clone, Copy, Debug, PartialEq, Eq)]
pub struct Frame {
    pub kind: Kind,
    pub s: u8,
    pub a: u16,
    pub b: u16,
    pub c: u16,
}
