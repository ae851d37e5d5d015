//! Many choices in one call: the text is read and the state validated once.
ghost use Rattle.std.specs.Prelude.{◌≡◌, map, length};
ghost use Rattle.text.specs.Frames.{frames_of};
ghost use Rattle.program.specs.Programs.{program_of};
ghost use Rattle.machine.specs.Calls.{calls_from, words_from};
ghost use Rattle.stepper.specs.Inner.Files.{FileWords, StepWords, step_number, file_of};
ghost use Rattle.stepper.specs.Answers.{step_code, answer_word, batch_result, steps_call};
ghost use Rattle.stepper.specs.Answers.{steps_text};

use crate::answer::{Answer, CallRefusal, Done};
use crate::file::{File, file_of};
use crate::party::StepAnswer;
use crate::valid::step_valid;
use language::limit::MOST_LINES;
use language::refusal::Rule;
use layout::lay_into;
use machine::offset::{STATE_LENGTH, State};
use ranges::range::in_range;

/// The answer to one choice as a number: its accesses above 32 bits, 01's number above 16, and
/// below them the acting thread.
fn answer_word(s: StepAnswer) -> u64
    ensures { result ≡ step_code (step_number s.refusal) s.thread s.accesses }
{
    u64::from(s.accesses) * 0x0000_0001_0000_0000
        + u64::from(s.number()) * 0x0001_0000
        + u64::from(s.thread)
}

/// Every choice, one after the other, on a file and a state that are known to be good.
fn step_all(frames: &[u64], file: &File, state: &mut State, choices: &[u8], answers: &mut [u64])
    requires { StepWords frames.now file.now.shared state.old
        × (file.now ≡ file_of (program_of (frames_of frames.now)))
        × (length answers.old ≡ length choices.now) }
    ensures words { state.new
        ≡ words_from (frames_of frames.now) state.old choices.now }
    ensures answers { answers.new
        ≡ map answer_word
        (calls_from (frames_of frames.now) state.old choices.now) }
{
    for (k, choice) in choices.iter().enumerate() {
        let s = step_valid(frames, file, state, u64::from(*choice));
        answers[k] = answer_word(s);
    }
}

/// The choices on a file that passes refusals 1 to 7, on words that may be anything.
fn steps_frames(frames: &[u64], state: &mut [u64], choices: &[u8], answers: &mut [u64]) -> Answer
    requires { FileWords frames.now }
    ensures { batch_result result state.new answers.new
        ≡ steps_call (frames_of frames.now) state.old choices.now
        answers.old }
{
    if answers.len() != choices.len() {
        return Err(CallRefusal::WRONG_STATE);
    }
    let file = file_of(frames);
    if !in_range(frames, file.schedulers.count, state) {
        return Err(CallRefusal::WRONG_STATE);
    }
    // Words in range have that length.
    let Some(words) = state.as_mut_array::<STATE_LENGTH>() else {
        return Err(CallRefusal::WRONG_STATE);
    };
    step_all(frames, &file, words, choices, answers);
    Ok(Done::NOTHING)
}

/// Many choices on any text, any words: 1 to 7, then 14 where the words are no state of the file or
/// the answers are not as many as the choices; nothing is written then. Else each choice is stepped
/// as `step` does, and its answer stands in its place: refused ones leave the words as they were,
/// and the next choice follows. A choice is a byte: no party has a number above 80.
pub fn steps(text: &[u8], state: &mut [u64], choices: &[u8], answers: &mut [u64]) -> Answer
    ensures { batch_result result state.new answers.new
        ≡ steps_text text.now state.old choices.now
        answers.old }
{
    let mut words = [0u64; MOST_LINES];
    let n = lay_into(text, &mut words)?;
    steps_frames(&words[..n], state, choices, answers)
}
