//! Whether lent words are a state of the file (answer 14): by words, lists and blocks.
// No struct of `frames` and `schedulers`, which would be no plainer: the tests of words read one of
// the two, and those of a block hand both on to one call.
ghost use Rattle.std.specs.Prelude.{◌≡◌, ◌+◌, ◌≤◌, ◌<◌, slice_index, true};
ghost use Rattle.std.specs.List.{list_all};
ghost use Rattle.language.specs.Limits.{most_schedulers, most_threads, most_events, most_cells};
ghost use Rattle.text.specs.Frames.{frames_of};
ghost use Rattle.program.specs.Trees.{frame_at};
ghost use Rattle.machine.specs.Offsets.{state_length, cell_count_at, scheduler_length};
ghost use Rattle.machine.specs.Offsets.{thread_length};
ghost use Rattle.machine.specs.Inner.Ranges.{thread_in_range, value_in_range, item_in_range};
ghost use Rattle.machine.specs.Inner.Ranges.{entry_in_range, cell_in_range};
ghost use Rattle.machine.specs.Inner.Ranges.{scheduler_in_range, thread_word_in_range, all_below};
ghost use Rattle.machine.specs.Inner.Ranges.{in_range};
ghost use Rattle.machine.specs.Shapes.{is_statement, owner_in_range};
ghost use Rattle.ranges.specs.Inner.Passes.{is_zero, is_list, list_members};
ghost use Rattle.ranges.specs.Inner.Passes.{scheduler_block, thread_block, event_in_range};
ghost use Rattle.ranges.specs.Inner.Passes.{event_passes, cells_pass};

use language::Place;
use language::kind::Kind;
use language::limit::{
    MOST_CELLS, MOST_EVENTS, MOST_ITEMS, MOST_SCHEDULERS, MOST_THREADS, MOST_VARIABLES,
};
use machine::offset::{
    AWAITING_FROM, BACK_FROM, CELL_COUNT_AT, CELL_FROM, CELLS_AT, DROP_WORD, EVENTS_AT,
    ITEMS_FIELD, LIST_LENGTH, LIVES_FIELD, OWNER_FACTOR, SCHEDULER_LENGTH, SCHEDULERS_AT,
    STARTER_FIELD, STATE_LENGTH, State, THREAD_COUNT_AT, THREAD_LENGTH, THREAD_OWNER_FROM,
    THREADS_AT, TRUTH_FROM, VARIABLES_FIELD, WAITING_FACTOR,
};
use text::line::frame_of_word;

// The greatest words of a truth and of a cell.
const LAST_TRUTH: u64 = TRUTH_FROM + 1;

const LAST_CELL: u64 = CELL_FROM + MOST_CELLS as u64 - 1;

// As indices.
const SCHEDULERS: usize = MOST_SCHEDULERS as usize;

const EVENTS: usize = MOST_EVENTS as usize;

#[tactic(auto, unfolding(machine::specs::Inner::Ranges::thread_in_range))]
fn thread_in_range(t: u64) -> bool
    ensures { result ≡ thread_in_range t }
{
    1 <= t && t <= MOST_THREADS as u64
}

// As returns, since it is asked of each variable and cell: joined by `||`, or as one `if` with
// `else`, it takes 16 or 11 instructions a word and not 7 (callgrind).
#[tactic(auto, using(crate::proofs::RangeLaws::value_laws))]
fn value_in_range(w: u64) -> bool
    ensures { result ≡ value_in_range w }
{
    if w < TRUTH_FROM {
        return true;
    }
    if w < CELL_FROM {
        return w <= LAST_TRUTH;
    }
    w <= LAST_CELL
}

fn is_statement(k: Kind) -> bool
    ensures { result ≡ is_statement k }
{
    matches!(k, Kind::Statement(_))
}

// A frame past the end is none.
fn statement_at(frames: &[u64], i: usize) -> bool
    ensures { result ≡ is_statement (frame_at (frames_of frames.now) i).kind }
{
    i < frames.len() && is_statement(frame_of_word(frames[i]).kind)
}

#[tactic(auto, using(crate::proofs::RangeLaws::item_laws))]
fn item_in_range(frames: &[u64], schedulers: u8, w: u64) -> bool
    ensures { result ≡ item_in_range (frames_of frames.now) schedulers w }
{
    if w < BACK_FROM {
        statement_at(frames, w as usize)
    } else if w < DROP_WORD {
        Place::is_in_file(w - BACK_FROM, schedulers)
    } else {
        w == DROP_WORD
    }
}

// How many events the header counts: 0 where there is no header.
fn event_count(frames: &[u64]) -> u16
    ensures { result ≡ (frame_at (frames_of frames.now) 0).c }
{
    if frames.len() == 0 {
        return 0;
    }
    frame_of_word(frames[0]).c
}

#[tactic(auto, using(crate::proofs::RangeLaws::entry_laws))]
fn entry_in_range(events: u16, w: u64) -> bool
    ensures { result ≡ entry_in_range events w }
{
    if w < WAITING_FACTOR {
        thread_in_range(w)
    } else if w < AWAITING_FROM {
        thread_in_range(w % WAITING_FACTOR) && thread_in_range(w / WAITING_FACTOR)
    } else {
        thread_in_range(w % WAITING_FACTOR)
            && (w - AWAITING_FROM) / WAITING_FACTOR < u64::from(events)
    }
}

#[tactic(auto, unfolding(machine::specs::Shapes::owner_in_range, machine::specs::Inner::Ranges::thread_in_range))]
fn owner_in_range(schedulers: u8, o: u64) -> bool
    ensures { result ≡ owner_in_range schedulers o }
{
    Place::is_scheduler_in_file(o, schedulers)
        || THREAD_OWNER_FROM <= o && thread_in_range(o - THREAD_OWNER_FROM)
}

#[tactic(auto, unfolding(machine::specs::Inner::Ranges::cell_in_range))]
fn cell_in_range(schedulers: u8, w: u64) -> bool
    ensures { result ≡ cell_in_range schedulers w }
{
    owner_in_range(schedulers, w / OWNER_FACTOR) && value_in_range(w % OWNER_FACTOR)
}

// ---- the members of a list, and the cells: each of the words is in range. One chain each: a function
// over the test would have to say what any test gives, and be no plainer

fn are_threads(words: &[u64]) -> bool
    ensures { result ≡ list_all thread_in_range words.now }
{
    words.iter().all(|w| thread_in_range(*w))
}

fn are_entries(events: u16, words: &[u64]) -> bool
    ensures { result ≡ list_all (entry_in_range events) words.now }
{
    words.iter().all(|w| entry_in_range(events, *w))
}

fn are_items(frames: &[u64], schedulers: u8, words: &[u64]) -> bool
    ensures { result ≡ list_all (item_in_range (frames_of frames.now) schedulers) words.now }
{
    words.iter().all(|w| item_in_range(frames, schedulers, *w))
}

fn are_values(words: &[u64]) -> bool
    ensures { result ≡ list_all value_in_range words.now }
{
    words.iter().all(|w| value_in_range(*w))
}

fn are_cells(schedulers: u8, words: &[u64]) -> bool
    ensures { result ≡ list_all (cell_in_range schedulers) words.now }
{
    words.iter().all(|w| cell_in_range(schedulers, *w))
}

// All words are 0. All are looked at, whatever the first is: a loop without an exit takes several
// words at once.
fn are_zeros(words: &[u64]) -> bool
    ensures { result ≡ list_all is_zero words.now }
{
    words.iter().fold(0, |bits, w| bits | *w) == 0
}

// ---- lists

// The length of the list at that place is within its space, and 0 is in the rest of its space.
fn is_list(state: &State, at: usize, most: usize) -> bool
    requires { at + most < state_length }
    ensures value { result ≡ is_list most state.now at }
    ensures within { result ≡ true → slice_index state.now at ≤ most }
{
    let count = state[at];
    count <= most as u64 && are_zeros(&state[at + 1 + count as usize..at + 1 + most])
}

// Its members.
fn members(state: &State, at: usize) -> &[u64]
    requires { at + slice_index state.now at < state_length }
    ensures { result.now ≡ list_members state.now at }
{
    &state[at + 1..at + 1 + state[at] as usize]
}

// ---- the parts of a state

#[tactic(auto, using(crate::proofs::BlockLaws::scheduler_split))]
fn scheduler_in_range(events: u16, state: &State, at: usize) -> bool
    requires { at + scheduler_length ≤ state_length }
    ensures { result
        ≡ all_below scheduler_length (scheduler_in_range events state.now at) }
{
    let next = at + LIST_LENGTH;
    is_list(state, at, MOST_THREADS)
        && are_threads(members(state, at))
        && is_list(state, next, MOST_THREADS)
        && are_entries(events, members(state, next))
}

#[tactic(auto, using(crate::proofs::BlockLaws::scheduler_block_laws))]
fn scheduler_block_in_range(events: u16, schedulers: u8, state: &State, k: usize) -> bool
    requires { k < most_schedulers }
    ensures { result ≡ scheduler_block events schedulers state.now k }
{
    let at = SCHEDULERS_AT + SCHEDULER_LENGTH * k;
    if k < usize::from(schedulers) {
        scheduler_in_range(events, state, at)
    } else {
        are_zeros(&state[at..at + SCHEDULER_LENGTH])
    }
}

fn schedulers_in_range(events: u16, schedulers: u8, state: &State) -> bool
    ensures { result ≡ all_below most_schedulers (scheduler_block events schedulers state.now) }
{
    (0..SCHEDULERS).all(|k| scheduler_block_in_range(events, schedulers, state, k))
}

#[tactic(auto, using(crate::proofs::BlockLaws::thread_split))]
fn thread_words_in_range(frames: &[u64], schedulers: u8, state: &State, at: usize) -> bool
    requires { at + thread_length ≤ state_length }
    ensures { result ≡ all_below thread_length
        (thread_word_in_range (frames_of frames.now) schedulers state.now at) }
{
    let items = at + ITEMS_FIELD;
    let variables = at + VARIABLES_FIELD;
    Place::is_in_file(state[at], schedulers)
        && state[at + STARTER_FIELD] <= MOST_THREADS as u64
        && state[at + LIVES_FIELD] <= 1
        && is_list(state, items, MOST_ITEMS)
        && are_items(frames, schedulers, members(state, items))
        && is_list(state, variables, MOST_VARIABLES)
        && are_values(members(state, variables))
}

#[tactic(auto, using(crate::proofs::BlockLaws::thread_block_laws))]
fn thread_block_in_range(frames: &[u64], schedulers: u8, state: &State, k: usize) -> bool
    requires { k < most_threads }
    ensures { result
        ≡ thread_block (frames_of frames.now) schedulers state.now k }
{
    let at = THREADS_AT + THREAD_LENGTH * k;
    if (k as u64) < state[THREAD_COUNT_AT] {
        thread_words_in_range(frames, schedulers, state, at)
    } else {
        are_zeros(&state[at..at + THREAD_LENGTH])
    }
}

fn threads_in_range(frames: &[u64], schedulers: u8, state: &State) -> bool
    ensures { result ≡ all_below most_threads
        (thread_block (frames_of frames.now) schedulers state.now) }
{
    (0..MOST_THREADS).all(|k| thread_block_in_range(frames, schedulers, state, k))
}

// Word w of event e, in a file of that many events.
#[tactic(auto, using(crate::proofs::RangeLaws::event_laws))]
fn event_in_range(events: u16, e: usize, w: u64) -> bool
    ensures { result ≡ event_in_range events e w }
{
    if e < usize::from(events) {
        w <= 1
    } else {
        w == 0
    }
}

// The word of each event that the file has, and 0 in the rest of their space.
fn events_in_range(events: u16, state: &State) -> bool
    ensures { result ≡ all_below most_events (event_passes events state.now) }
{
    (0..EVENTS).all(|e| event_in_range(events, e, state[EVENTS_AT + e]))
}

// The cells that there are, and 0 in the rest of their space.
fn cells_in_range(schedulers: u8, state: &State) -> bool
    requires { slice_index state.now cell_count_at ≤ most_cells }
    ensures { result ≡ cells_pass schedulers state.now }
{
    let end = CELLS_AT + state[CELL_COUNT_AT] as usize;
    are_cells(schedulers, &state[CELLS_AT..end]) && are_zeros(&state[end..STATE_LENGTH])
}

// Each word is in its range; a word of unused space is 0.
#[tactic(auto, using(crate::proofs::BlockLaws::whole_split))]
fn words_in_range(frames: &[u64], schedulers: u8, state: &State) -> bool
    ensures { result
        ≡ in_range (frames_of frames.now) schedulers state.now }
{
    let events = event_count(frames);
    state[THREAD_COUNT_AT] <= MOST_THREADS as u64
        && state[CELL_COUNT_AT] <= MOST_CELLS as u64
        && schedulers_in_range(events, schedulers, state)
        && threads_in_range(frames, schedulers, state)
        && events_in_range(events, state)
        && cells_in_range(schedulers, state)
}

/// Whether the lent words are a state of the file with those frames, which has that many
/// schedulers: as many words as a state has, and each is in its range; a word of unused space is 0.
#[tactic(auto, using(crate::proofs::BlockLaws::wrong_length))]
pub fn in_range(frames: &[u64], schedulers: u8, state: &[u64]) -> bool
    ensures { result
        ≡ in_range (frames_of frames.now) schedulers state.now }
{
    match <&State>::try_from(state) {
        Ok(state) => words_in_range(frames, schedulers, state),
        Err(_) => false,
    }
}
