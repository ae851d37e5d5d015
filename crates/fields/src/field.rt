//! Refusals 4 and 5: the header, and the kind and the fields of each frame.
ghost use Rattle.std.specs.Prelude.{◌≡◌, true, not, ◌&&◌, ◌||◌, [], ◌+◌, ◌<◌, ◌≤◌, ltb, leb, eqb, length, take};
ghost use Rattle.basics.specs.If.{when◌then◌else◌};
ghost use Rattle.language.specs.declared.kind.DeclarationKind.TheVariants.{Shared, Event, Link};
ghost use Rattle.language.specs.declared.kind.StatementKind.{StatementKind};
ghost use Rattle.language.specs.declared.kind.ExpressionKind.{ExpressionKind};
ghost use Rattle.language.specs.declared.kind.Kind.TheVariants.{Declared, Module};
ghost use Rattle.language.specs.Kinds.{declaration_uses, statement_uses, expression_uses, is_event};
ghost use Rattle.language.specs.Places.{has_scheduler};
ghost use Rattle.language.specs.Types.{type_word};
ghost use Rattle.language.specs.Limits.{most_lines, most_shared};
ghost use Rattle.text.specs.Frames.{frames_of};
ghost use Rattle.fields.specs.Fields.{count_of, schedulers_of, frame_fine};
ghost use Rattle.fields.specs.Inner.Scans.{header_alone, header_fault, field_fault};
ghost use Rattle.fields.specs.Inner.Scans.{fields_fine, fine_at, HeaderWords};
ghost use Rattle.fields.specs.Inner.Tallies.{tally_of};

use crate::lines::Lines;
use crate::tally::Tally;
use language::Place;
use language::frame::Frame;
use language::kind::{DeclarationKind, ExpressionKind, Kind, StatementKind};
use language::limit::{MOST_EVENTS, MOST_MODULES, MOST_PARAMETERS, MOST_SCHEDULERS, MOST_SHARED};
use language::type_word::{is_content_word, is_type_word};
use program::frames::frame_at;
use program::group::line_declares;
use program::shared::shared_type;

// Whether a header is right, but for the count of the events.
#[tactic(auto, unfolding(crate::specs::Inner::Scans::header_alone))]
fn header_fine(f: Frame) -> bool
    ensures { result ≡ header_alone f }
{
    f.kind.is_header() && f.s == 1 && 1 <= f.b && f.b <= MOST_SCHEDULERS && f.c <= MOST_EVENTS
}

// How many events the file declares, bad and misplaced ones too.
fn count_events(words: &[u64]) -> usize
    ensures { result ≡ count_of is_event (frames_of words.now) }
{
    let mut n: usize = 0;
    for line in words {
        if line_declares(DeclarationKind::Event, *line) {
            n += 1;
        }
    }
    n
}

/// The frame with the fault 4, which is 0; `None` where the header is right.
pub fn header(words: &[u64]) -> Option<u16>
    requires { 0 < length words.now }
    ensures { result ≡ header_fault (frames_of words.now) }
{
    let f = frame_at(words, 0);
    if header_fine(f) && count_events(words) == usize::from(f.c) {
        None
    } else {
        Some(0)
    }
}

// How many schedulers the file has.
#[tactic(auto, using(crate::proofs::FieldLaws::schedulers_are))]
fn schedulers_in(words: &[u64]) -> u8
    requires { HeaderWords words.now }
    ensures { result ≡ schedulers_of (frames_of words.now) }
{
    let f = frame_at(words, 0);
    (f.b % 256) as u8
}

// A scheduler below s.
fn lower_fine(schedulers: u8, s: u8, v: u16) -> bool
    ensures { result ≡ (has_scheduler schedulers v && ltb v s) }
{
    Place::is_scheduler_in_file(u64::from(v), schedulers) && v < u16::from(s)
}

// The second argument needs the first.
fn further_fine(a: u16, v: u16) -> bool
    ensures { result ≡ (eqb v 0 || not (eqb a 0)) }
{
    v == 0 || a != 0
}

// The type of the parameter `n`, of s parameters.
#[tactic(auto, using(crate::proofs::FieldLaws::type_laws))]
fn type_fine(schedulers: u8, n: u8, s: u8, v: u16) -> bool
    ensures { result ≡ (when leb n s then type_word schedulers v else eqb v 0) }
{
    if s < n {
        v == 0
    } else {
        is_type_word(schedulers, v)
    }
}

// Which fields of a statement or of an expression are in use: the others are 0. Each contract names
// one of the kinds that use them so. Five functions, as one for all is no plainer: each is a single
// condition over the fields that its kinds leave 0.
fn none_used(f: Frame) -> bool
    ensures { result ≡ fields_fine [] 0 f (statement_uses StatementKind.Nothing) }
{
    f.s == 0 && f.a == 0 && f.b == 0 && f.c == 0
}

fn s_used(f: Frame) -> bool
    ensures { result ≡ fields_fine [] 0 f (expression_uses ExpressionKind.Variable) }
{
    f.a == 0 && f.b == 0 && f.c == 0
}

fn a_used(f: Frame) -> bool
    ensures { result ≡ fields_fine [] 0 f (expression_uses ExpressionKind.Number) }
{
    f.s == 0 && f.b == 0 && f.c == 0
}

fn a_b_used(f: Frame) -> bool
    ensures { result ≡ fields_fine [] 0 f (statement_uses StatementKind.Then) }
{
    f.s == 0 && f.c == 0
}

fn a_b_c_used(f: Frame) -> bool
    ensures { result ≡ fields_fine [] 0 f (statement_uses StatementKind.If) }
{
    f.s == 0
}

// A truth.
fn truth_fine(f: Frame) -> bool
    ensures { result ≡ fields_fine [] 0 f (expression_uses ExpressionKind.Truth) }
{
    f.s <= 1 && s_used(f)
}

// The arguments of a start.
fn arguments_fine(f: Frame) -> bool
    ensures { result ≡ fields_fine [] 0 f (statement_uses StatementKind.Start) }
{
    further_fine(f.a, f.b) && f.c == 0
}

// A place in S, a child in A.
fn placed_fine(lines: Lines, f: Frame) -> bool
    ensures { result
        ≡ fields_fine (frames_of lines.entry.words.now) 0 f
        (statement_uses StatementKind.DoAt) }
{
    Place::is_in_file(u64::from(f.s), lines.schedulers) && f.b == 0 && f.c == 0
}

// No field of a statement or of an expression asks for the frame's number: it is 0 here.
fn statement_fine(lines: Lines, f: Frame, k: StatementKind) -> bool
    ensures { result
        ≡ fields_fine (frames_of lines.entry.words.now) 0 f (statement_uses k) }
{
    match k {
        StatementKind::Nothing => none_used(f),
        StatementKind::Then => a_b_used(f),
        StatementKind::DoAt => placed_fine(lines, f),
        StatementKind::Start => arguments_fine(f),
        StatementKind::StartWait => arguments_fine(f),
        StatementKind::Cooperate => none_used(f),
        StatementKind::Let => a_b_used(f),
        StatementKind::Store => a_b_used(f),
        StatementKind::If => a_b_c_used(f),
        StatementKind::While => a_b_used(f),
        StatementKind::Generate => s_used(f),
        StatementKind::Await => s_used(f),
    }
}

fn expression_fine(lines: Lines, f: Frame, k: ExpressionKind) -> bool
    ensures { result
        ≡ fields_fine (frames_of lines.entry.words.now) 0 f (expression_uses k) }
{
    match k {
        ExpressionKind::Number => a_used(f),
        ExpressionKind::Truth => truth_fine(f),
        ExpressionKind::Variable => s_used(f),
        ExpressionKind::SharedCell => s_used(f),
        ExpressionKind::NewCell => placed_fine(lines, f),
        ExpressionKind::Content => a_used(f),
        ExpressionKind::Sum => a_b_used(f),
        ExpressionKind::Less => a_b_used(f),
        ExpressionKind::Choose => a_b_c_used(f),
    }
}

// Whether one shared cell more is no 17th.
fn room_for_cell(cells: usize) -> bool
    ensures { result ≡ ltb cells most_shared }
{
    cells < MOST_SHARED
}

// The shared cell f, which has the number i.
#[tactic(auto, using(crate::proofs::FieldsByKind::cell_split))]
fn shared_fine(lines: Lines, i: usize, f: Frame, t: &Tally) -> bool
    requires { (t.now ≡ tally_of (take i (frames_of lines.words.now)))
        × (f.kind ≡ Declared Shared) }
    ensures { result ≡ frame_fine (frames_of lines.entry.words.now) i f }
{
    room_for_cell(t.cells())
        && Place::is_scheduler_in_file(u64::from(f.s), lines.schedulers)
        && is_content_word(lines.schedulers, f.a)
        && t.is_first_content(f.a, f.b)
        && f.c == 0
}

// The event f: its owner in S, and nothing more.
fn event_fine(lines: Lines, f: Frame) -> bool
    ensures { result
        ≡ fields_fine (frames_of lines.entry.words.now) 0 f (declaration_uses Event) }
{
    Place::is_scheduler_in_file(u64::from(f.s), lines.schedulers) && s_used(f)
}

// The link f: a scheduler in S, a lower one in A, and nothing more.
fn link_fine(lines: Lines, f: Frame) -> bool
    ensures { result
        ≡ fields_fine (frames_of lines.entry.words.now) 0 f (declaration_uses Link) }
{
    Place::is_scheduler_in_file(u64::from(f.s), lines.schedulers)
        && lower_fine(lines.schedulers, f.s, f.a)
        && f.b == 0
        && f.c == 0
}

// The module f, which has the number i.
#[tactic(auto, using(crate::proofs::FieldsByKind::module_split))]
fn module_fine(lines: Lines, i: usize, f: Frame, t: &Tally) -> bool
    requires { (t.now ≡ tally_of (take i (frames_of lines.words.now)))
        × (f.kind ≡ Module) }
    ensures { result ≡ frame_fine (frames_of lines.entry.words.now) i f }
{
    t.modules() < MOST_MODULES
        && f.s <= MOST_PARAMETERS
        && type_fine(lines.schedulers, 1, f.s, f.b)
        && type_fine(lines.schedulers, 2, f.s, f.c)
}

// Whether 5 does not name frame i: no later header, no 17th shared cell or module, and the fields
// that its kind has. By kind, without the table of uses: this is asked of each line.
fn frame_fine(lines: Lines, i: usize, t: &Tally) -> bool
    requires { (i < length lines.words.now)
        × (t.now ≡ tally_of (take i (frames_of lines.words.now))) }
    ensures { result ≡ fine_at (frames_of lines.entry.words.now) i }
{
    let f = frame_at(lines.words, i);
    match f.kind {
        Kind::Header => i == 0,
        Kind::Declared(DeclarationKind::Shared) => shared_fine(lines, i, f, t),
        Kind::Declared(DeclarationKind::Event) => event_fine(lines, f),
        Kind::Declared(DeclarationKind::Link) => link_fine(lines, f),
        Kind::Module => module_fine(lines, i, f, t),
        Kind::Statement(k) => statement_fine(lines, f, k),
        Kind::Expression(k) => expression_fine(lines, f, k),
        Kind::Unknown => false,
    }
}

// Counts frame i, which has no fault 5.
fn count(lines: Lines, i: usize, t: &mut Tally)
    requires { (i < length lines.words.now)
        × (t.old ≡ tally_of (take i (frames_of lines.words.now)))
        × (fine_at (frames_of lines.words.now) i ≡ true) }
    ensures { t.new ≡ tally_of (take (i + 1) (frames_of lines.entry.words.now)) }
{
    let f = frame_at(lines.words, i);
    if f.kind.declares(DeclarationKind::Shared) {
        t.add_cell(shared_type(f));
    } else if f.kind.is_module() {
        t.add_module();
    }
}

/// The lowest frame with the fault 5; `None` where no frame has it. It stops there, so that no 17th
/// cell is counted. With a right header there are at most 8 schedulers, and a place is one of the
/// nine.
#[tactic(auto, using(crate::proofs::FramePass::pass_laws))]
pub fn fields(words: &[u64]) -> Option<u16>
    requires { HeaderWords words.now × (length words.now ≤ most_lines) }
    ensures { result ≡ field_fault (frames_of words.now) }
{
    let lines = Lines {
        words,
        schedulers: schedulers_in(words),
    };
    let mut t = Tally::new();
    for i in 0..words.len() {
        if !frame_fine(lines, i, &t) {
            return Some(i as u16);
        }
        count(lines, i, &mut t);
    }
    None
}
