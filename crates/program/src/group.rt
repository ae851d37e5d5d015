//! The schedulers in step, by the links of a file, and declarations told by a line's K alone.
ghost use Rattle.std.specs.Prelude.{◌≡◌, [], ◌≤◌, length, drop, true, false};
ghost use Rattle.language.specs.Kinds.{declares};
ghost use Rattle.language.specs.Inner.Labels.{labels_of};
ghost use Rattle.text.specs.Frames.{frame_of_word, frames_of};
ghost use Rattle.program.specs.Programs.{links_of};
ghost use Rattle.program.specs.Inner.Links.{kind_number, LinkPlaced, LinksPlaced};
ghost use Rattle.program.specs.Inner.Links.{with_line};

use language::Place;
use language::group::{Labels, link, own_labels};
use language::kind::DeclarationKind;
use text::line::{KIND_UNIT, frame_of_word};

// The K of a declaration.
fn kind_number(d: DeclarationKind) -> u64
    ensures { result ≡ kind_number d }
{
    match d {
        DeclarationKind::Shared => 0x01,
        DeclarationKind::Event => 0x03,
        DeclarationKind::Link => 0x04,
    }
}

/// Whether a line is that declaration.
// By its first two digits alone, since each line is asked.
#[tactic(auto, using(crate::proofs::LinkLaws::declared_line))]
pub fn line_declares(d: DeclarationKind, line: u64) -> bool
    ensures { result ≡ declares d (frame_of_word line).kind }
{
    line / KIND_UNIT == kind_number(d)
}

// The labels with the link that a line declares, if it declares one.
#[tactic(auto, using(crate::proofs::LinkLaws::take_laws))]
fn take_link(labels: &mut Labels, line: u64)
    requires { LinkPlaced (frame_of_word line) }
    ensures { labels.new ≡ with_line labels.old (frame_of_word line) }
{
    if !line_declares(DeclarationKind::Link, line) {
        return;
    }
    let f = frame_of_word(line);
    link(
        labels,
        Place::known(u64::from(f.s)),
        Place::known(u64::from(f.a)),
    );
}

// The least line of a statement or an expression, K 10: no line from there on is the header or a
// declaration.
const FIRST_STATEMENT: u64 = 0x10 * KIND_UNIT;

// Where the header and the declarations end: no link stands after that.
fn declarations_end(frames: &[u64]) -> usize
    requires { LinksPlaced (frames_of frames.now) }
    ensures short { result ≤ length frames.now }
    ensures none { links_of (drop result (frames_of frames.now)) ≡ [] }
{
    frames
        .iter()
        .position(|line| FIRST_STATEMENT <= *line)
        .unwrap_or(frames.len())
}

/// The labels of a file's schedulers: those with one label are in step. The links are taken from
/// the last to the first.
pub fn labels_of(frames: &[u64]) -> Labels
    requires { LinksPlaced (frames_of frames.now) }
    ensures { result ≡ labels_of (links_of (frames_of frames.now)) }
{
    let mut labels = own_labels();
    for k in (0..declarations_end(frames)).rev() {
        take_link(&mut labels, frames[k]);
    }
    labels
}
