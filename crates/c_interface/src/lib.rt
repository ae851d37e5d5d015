//! The interface for C and Rust: functions on numbers and on pointers with lengths. None has a
//! `requires`.
#![tactic(auto)]

ghost use Rattle.std.specs.Prelude.{◌≡◌, Err};
ghost use Rattle.language.specs.Limits.{most_listing_bytes};
ghost use Rattle.checker.specs.Verdict.{verdict};
ghost use Rattle.drawing.specs.Answers.{writing};
ghost use Rattle.machine.specs.Offsets.{state_length};
ghost use Rattle.stepper.specs.Answers.{answer_accesses, fresh_text, said, step_text};
ghost use Rattle.stepper.specs.Answers.{steps_text};
ghost use Rattle.runs.specs.Listings.{list_text};
ghost use Rattle.c_interface.specs.Codes.{code_of, CheckedCode, answer_code, coded, coded_of};
ghost use Rattle.c_interface.specs.Codes.{step_answer_code, coded_step_of};
ghost use Rattle.c_interface.specs.Codes.{coded_out, coded_batch_of, listing_code};
ghost use Rattle.c_interface.specs.Codes.{coded_listing_of, coded_writing_of, AnsweredCode};

use checker::check::check;
use language::limit::MOST_LISTING_BYTES;
use language::refusal::Verdict;
use runs::printing::run_listing;
use stepper::answer::{Answer, CallRefusal};
use stepper::batch::steps;
use stepper::step::{fresh, state_length, step};
use writer::arrange;

// The codes are functions and no `From`: verdicts, answers and numbers are types of other crates.

// A verdict as one number.
fn code_of(verdict: Verdict) -> u32
    ensures { result ≡ code_of verdict }
{
    match verdict {
        Ok(()) => 0,
        Err(refusal) => u32::from(refusal.rule.number()) * 0x0001_0000 + u32::from(refusal.frame),
    }
}

/// What the check answers on `length` bytes: the number of the refusal above 16 bits, the frame in
/// them; 0 where it accepts. It is the code of the one verdict that the rules give.
#[unsafe(no_mangle)]
pub extern "C" fn purkvaldi_check(text: &[u8]) -> u32
    ensures computed { result ≡ code_of (verdict text.now) }
    ensures promised { CheckedCode text.now result }
{
    code_of(check(text))
}

/// A text's lines laid out into `out`: 0 where they are written, else the number of the refusal
/// above 16 bits, the frame in them. A refusal writes nothing. It is the code of the one answer
/// that the rules give.
#[unsafe(no_mangle)]
pub extern "C" fn purkvaldi_arrange(text: &[u8], out: &mut [u8]) -> u32
    ensures computed { coded result out.new
        ≡ coded_writing_of (writing text.now out.old) }
    ensures promised { AnsweredCode text.now out.old
        (coded result out.new) }
{
    code_of(arrange(text, out))
}

// What refuses a call as one number.
fn refusal_code(refusal: CallRefusal) -> u32
    ensures { result ≡ answer_code (said (Err refusal)) }
{
    match refusal {
        CallRefusal::Text(refusal) => code_of(Err(refusal)),
        CallRefusal::Call { rule, thread } => {
            u32::from(rule.number()) * 0x0001_0000 + u32::from(thread)
        }
    }
}

// An answer as one number, without its accesses.
fn answer_code(answer: Answer) -> u32
    ensures { result ≡ answer_code (said answer) }
{
    match answer {
        Ok(done) => u32::from(done.thread),
        Err(refusal) => refusal_code(refusal),
    }
}

fn accesses_of(answer: Answer) -> u16
    ensures { result ≡ answer_accesses (said answer) }
{
    match answer {
        Ok(done) => done.accesses,
        Err(_) => 0,
    }
}

// A step's, with how many accesses it made above 32 bits.
fn step_code(answer: Answer) -> u64
    ensures { result ≡ step_answer_code (said answer) }
{
    u64::from(accesses_of(answer)) * 0x0000_0001_0000_0000 + u64::from(answer_code(answer))
}

/// How many words of 64 bits a state is.
#[unsafe(no_mangle)]
pub extern "C" fn purkvaldi_state_length() -> usize
    ensures { result ≡ state_length }
{
    state_length()
}

/// The fresh state of a text: 0, or the number of the refusal above 16 bits, the frame of a refusal
/// 1 to 7 in them. A refusal writes nothing.
#[unsafe(no_mangle)]
pub extern "C" fn purkvaldi_fresh(text: &[u8], state: &mut [u64]) -> u32
    ensures { coded result state.new
        ≡ coded_of (fresh_text text.now state.old) }
{
    answer_code(fresh(text, state))
}

/// One choice: the acting thread where it is done, 0 where none acts, and above 32 bits how many
/// cells it read, stored in and made; else the number of the refusal above 16 bits, and in them the
/// frame of a refusal 1 to 7 or the acting thread of one above. A refusal leaves every word as it
/// was.
#[unsafe(no_mangle)]
pub extern "C" fn purkvaldi_step(text: &[u8], state: &mut [u64], choice: u64) -> u64
    ensures { coded result state.new
        ≡ coded_step_of (step_text text.now state.old choice) }
{
    step_code(step(text, state, choice))
}

/// Many choices, a byte each: 0 where all are stepped, and the code of each, as `purkvaldi_step`
/// gives it, is in its place in `answers`; else the code of the text's refusal 1 to 7, or of 14,
/// and nothing is written.
#[unsafe(no_mangle)]
pub extern "C" fn purkvaldi_steps(
    text: &[u8],
    state: &mut [u64],
    choices: &[u8],
    answers: &mut [u64],
) -> u32
    ensures { coded_out result state.new answers.new
        ≡ coded_batch_of
        (steps_text text.now state.old choices.now answers.old) }
{
    answer_code(steps(text, state, choices, answers))
}

/// How many bytes a listing's buffer has: the longest listing.
#[unsafe(no_mangle)]
pub extern "C" fn purkvaldi_listing_length() -> usize
    ensures { result ≡ most_listing_bytes }
{
    MOST_LISTING_BYTES
}

// A listing's answer above 32 bits, its length in them.
fn listing_code(answer: Answer, length: u32) -> u64
    ensures { result ≡ listing_code (said answer) length }
{
    u64::from(answer_code(answer)) * 0x0000_0001_0000_0000 + u64::from(length)
}

/// The listing of a run, in the first bytes of `out`: in the low 32 bits how many they are, 0 where
/// nothing is written; above them the code of the text's refusal 1 to 7, whatever the lengths, else
/// of 14 where a buffer has another length than the listing needs, else 0. The line of a refusal 1
/// to 7 is in `out` where `out` has its length. `choices` are the bytes of choices.txt; where
/// the listing's last line counts those used, `state` is the state after them, be there none.
#[unsafe(no_mangle)]
pub extern "C" fn purkvaldi_run(
    text: &[u8],
    choices: &[u8],
    state: &mut [u64],
    out: &mut [u8],
) -> u64
    ensures { coded_out result state.new out.new
        ≡ coded_listing_of
        (list_text text.now choices.now state.old out.old) }
{
    let listing = run_listing(text, choices, state, out);
    listing_code(listing.answer, listing.length)
}
