//! What `run` prints, whole, in a lent buffer.
ghost use Rattle.std.specs.Prelude.{◌≡◌, [], ◌≤◌, min, length, Err};
ghost use Rattle.language.specs.Limits.{most_choices};
ghost use Rattle.language.specs.declared.refusal.Rule.TheVariants.{WrongState};
ghost use Rattle.text.specs.Frames.{frames_of};
ghost use Rattle.program.specs.Programs.{program_of};
ghost use Rattle.rules.specs.Inner.Checking.{rules_of};
ghost use Rattle.stepper.specs.Inner.Files.{FileWords};
ghost use Rattle.stepper.specs.Answers.{done, refused};
ghost use Rattle.listing.specs.Listing.{check_line, run_lines, choices_listing};
ghost use Rattle.runs.specs.Listings.{final_state, not_run, choices_run, with_buffers};
ghost use Rattle.runs.specs.Listings.{whole_listing, no_listing, list_text};
ghost use Rattle.runs.specs.Inner.Parts.{choices_of, listed_after, listed_rejected};

use crate::lines::step_lines;
use checker::check::rules_of;
use language::limit::{CHECK_LINE, CHOICE_LINE, LAST_LINE, MOST_LINES, MOST_LISTING_BYTES};
use language::refusal::{Refusal, Rule};
use layout::lay_into;
use listing::buffer::put;
use listing::check_line;
use listing::choices::judge;
use listing::line::last_line;
use machine::offset::{STATE_LENGTH, State};
use states::fresh::write_fresh;
use stepper::answer::{Answer, CallRefusal, Done};
use stepper::file::file_of;

/// What a call of `run_listing` answers.
// A length beside the answer, and no `Result` of both: a refused text has a listing too, its line.
#[derive(Clone, Copy, Debug, PartialEq, Eq)]
pub struct ListingAnswer {
    /// The text's refusal 1 to 7, else 14, else done.
    pub answer: Answer,
    /// How many bytes of the buffer hold the listing.
    pub length: u32,
    /// How many choices were used.
    pub used: usize,
}

// The bytes in which a listing is gathered: so many as the longest has.
type Listing = [u8; MOST_LISTING_BYTES];

// The first line and the last; the lines of a refused text or list of choices.
const ENDS: usize = CHECK_LINE + LAST_LINE;

const ONE_LINE: u32 = CHECK_LINE as u32;

const TWO_LINES: u32 = 2 * CHECK_LINE as u32;

// How many of n choices a run uses.
fn used_of(n: usize, allowance: u16) -> usize
    ensures { result ≡ min n allowance }
{
    n.min(usize::from(allowance))
}

// The n choices of choices.txt, as far as the allowance goes: a line for each, and the last.
fn list_run(
    frames: &[u64],
    bytes: &[u8],
    n: usize,
    state: &mut State,
    out: &mut Listing,
) -> ListingAnswer
    requires { FileWords frames.now × (n ≡ length (choices_of bytes.now)) × (n ≤ most_choices) }
    ensures { with_buffers result state.new out.new
        ≡ listed_after
        (final_state (program_of (frames_of frames.now)) (choices_of bytes.now))
        (run_lines (program_of (frames_of frames.now)) (choices_of bytes.now))
        out.old }
{
    let file = file_of(frames);
    let used = used_of(n, file.allowance);
    write_fresh(frames, state);
    step_lines(frames, &file, bytes, used, state, out);
    let line = last_line(used as u16);
    put(out, CHECK_LINE + CHOICE_LINE * used, &line);
    ListingAnswer {
        answer: Ok(Done {
            thread: 0,
            accesses: 0,
        }),
        length: (ENDS + CHOICE_LINE * used) as u32,
        used,
    }
}

// Why no choice is stepped: the line of what is refused of choices.txt.
fn list_refusal(refusal: Refusal, out: &mut Listing) -> ListingAnswer
    ensures { with_buffers result [] out.new
        ≡ listed_after (not_run []) (check_line (Err refusal)) out.old }
{
    let line = check_line(Err(refusal));
    put(out, CHECK_LINE, &line);
    ListingAnswer {
        answer: Ok(Done {
            thread: 0,
            accesses: 0,
        }),
        length: TWO_LINES,
        used: 0,
    }
}

// After the check's line: choices.txt is judged whole before any step.
fn list_choices(frames: &[u64], bytes: &[u8], state: &mut State, out: &mut Listing) -> ListingAnswer
    requires { FileWords frames.now }
    ensures { with_buffers result state.new out.new
        ≡ listed_after
        (choices_run (program_of (frames_of frames.now)) state.old bytes.now)
        (choices_listing (program_of (frames_of frames.now)) bytes.now)
        out.old }
{
    match judge(bytes) {
        Ok(n) => list_run(frames, bytes, n, state, out),
        Err(refusal) => list_refusal(refusal, out),
    }
}

// A file that passes refusals 1 to 7 runs, whatever its rules say.
fn list_frames(frames: &[u64], bytes: &[u8], state: &mut State, out: &mut Listing) -> ListingAnswer
    requires { FileWords frames.now }
    ensures { with_buffers result state.new out.new
        ≡ whole_listing (done 0 0) (rules_of (program_of (frames_of frames.now)))
        (frames_of frames.now) bytes.now state.old
        out.old }
{
    let line = check_line(rules_of(frames));
    put(out, 0, &line);
    list_choices(frames, bytes, state, out)
}

// A text that one of 1 to 7 stops: the refusal is the answer, and its line is the listing. Bytes of
// another length cannot take the line.
fn list_rejected(refusal: Refusal, out: &mut [u8]) -> ListingAnswer
    ensures { with_buffers result [] out.new ≡ listed_rejected refusal [] out.old }
{
    if out.len() != MOST_LISTING_BYTES {
        return ListingAnswer {
            answer: Err(CallRefusal::Text(refusal)),
            length: 0,
            used: 0,
        };
    }
    let line = check_line(Err(refusal));
    put(out, 0, &line);
    ListingAnswer {
        answer: Err(CallRefusal::Text(refusal)),
        length: ONE_LINE,
        used: 0,
    }
}

// A lent buffer has another length than the listing needs: nothing is written.
fn wrong_length() -> ListingAnswer
    ensures { with_buffers result [] [] ≡ no_listing (refused WrongState 0) [] [] }
{
    ListingAnswer {
        answer: Err(CallRefusal::Call {
            rule: Rule::WrongState,
            thread: 0,
        }),
        length: 0,
        used: 0,
    }
}

/// The listing of any text and of the bytes of choices.txt, and the state after it. The answer is
/// the text's refusal 1 to 7 whatever the lengths, else 14 where a buffer has another length than
/// the listing needs, else done. With 14 nothing is written, nor for a refused text where `out` has
/// another length. The longest listing has 8 + 19 * 16,384 + 5 bytes.
pub fn run_listing(text: &[u8], choices: &[u8], state: &mut [u64], out: &mut [u8]) -> ListingAnswer
    ensures { with_buffers result state.new out.new
        ≡ list_text text.now choices.now state.old
        out.old }
{
    let mut words = [0u64; MOST_LINES];
    let n = match lay_into(text, &mut words) {
        Ok(n) => n,
        Err(refusal) => return list_rejected(refusal, out),
    };
    let Some(state) = state.as_mut_array::<STATE_LENGTH>() else {
        return wrong_length();
    };
    let Some(out) = out.as_mut_array::<MOST_LISTING_BYTES>() else {
        return wrong_length();
    };
    list_frames(&words[..n], choices, state, out)
}
