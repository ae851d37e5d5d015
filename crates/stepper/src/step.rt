//! The calls: any text, any words, any choice.
ghost use Rattle.std.specs.Prelude.{◌≡◌};
ghost use Rattle.text.specs.Frames.{frames_of};
ghost use Rattle.machine.specs.Offsets.{state_length};
ghost use Rattle.machine.specs.Calls.{step_call};
ghost use Rattle.stepper.specs.Inner.Files.{FileWords};
ghost use Rattle.stepper.specs.Answers.{text_result, as_text_result, fresh_text, step_text};

use crate::answer::{Answer, CallRefusal, Done, answer_of};
use crate::file::file_of;
use crate::valid::step_valid;
use language::limit::MOST_LINES;
use layout::lay_into;
use machine::offset::STATE_LENGTH;
use ranges::range::in_range;
use states::fresh::write_fresh;

/// How many words a state is.
pub fn state_length() -> usize
    ensures { result ≡ state_length }
{
    STATE_LENGTH
}

/// The fresh state of a text that passes refusals 1 to 7; a buffer of another length is 14, and
/// stays as it was, as with any refusal.
pub fn fresh(text: &[u8], state: &mut [u64]) -> Answer
    ensures { text_result result state.new
        ≡ fresh_text text.now state.old }
{
    let mut words = [0u64; MOST_LINES];
    let n = lay_into(text, &mut words)?;
    let Some(state) = state.as_mut_array::<STATE_LENGTH>() else {
        return Err(CallRefusal::WRONG_STATE);
    };
    write_fresh(&words[..n], state);
    Ok(Done::NOTHING)
}

/// A step of a file that passes refusals 1 to 7, on words that may be anything.
fn step_frames(frames: &[u64], state: &mut [u64], choice: u64) -> Answer
    requires { FileWords frames.now }
    ensures { text_result result state.new
        ≡ as_text_result (step_call (frames_of frames.now) state.old choice) }
{
    let file = file_of(frames);
    if !in_range(frames, file.schedulers.count, state) {
        return Err(CallRefusal::WRONG_STATE);
    }
    // Words in range have that length.
    let Some(words) = state.as_mut_array::<STATE_LENGTH>() else {
        return Err(CallRefusal::WRONG_STATE);
    };
    let s = step_valid(frames, &file, words, choice);
    answer_of(s)
}

/// One choice on any text, any words: 1 to 7, then 14, then 15 to 20, or the step. A refusal leaves
/// the words as they were.
pub fn step(text: &[u8], state: &mut [u64], choice: u64) -> Answer
    ensures { text_result result state.new
        ≡ step_text text.now state.old choice }
{
    let mut words = [0u64; MOST_LINES];
    let n = lay_into(text, &mut words)?;
    step_frames(&words[..n], state, choice)
}
