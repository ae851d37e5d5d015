//! Leaves and cells: what an expression without operands gives, and a cell made, read or stored in.
ghost use Rattle.std.specs.Prelude.{◌≡◌};
ghost use Rattle.operations.specs.Inner.Lent.{lent_count, lent_cells, lent_rest};
ghost use Rattle.operations.specs.Inner.Results.{result_in, and_then_in};
ghost use Rattle.operations.specs.Inner.ByWords.{own_in, new_owner_in, variable_in};
ghost use Rattle.operations.specs.Inner.ByWords.{shared_in, leaf_in, accessing_in};
ghost use Rattle.operations.specs.Inner.ByWords.{reading_in, make_in, using_in};
ghost use Rattle.operations.specs.Inner.ByWords.{store_in};

use crate::Who;
use crate::cell::{content_of, owner_of, value_of, with_content};
use crate::heap::{cells_in, with_access, with_cell};
use language::Place;
use language::limit::MOST_CELLS;
use machine::offset::{CELL_COUNT_AT, CELLS_AT, State, THREAD_OWNER_FROM};
use machine::value::{Outcome, Value};
use machine::word::{cell_word, value_word};
use program::node::{CellUse, Leaf};

// The same number at the width of a new cell's owner.
const NEW_THREAD_OWNER: u16 = THREAD_OWNER_FROM as u16;

// Whether an access to a cell of that owner is not foreign: the thread's own, or its scheduler's.
#[tactic(auto, unfolding(crate::specs::Inner::ByWords::own_in))]
fn is_own(who: Who, owner: u64) -> bool
    ensures { result ≡ own_in who owner }
{
    let p = who.place.word();
    owner == THREAD_OWNER_FROM + u64::from(who.thread) || Place::HOME.word() <= p && owner == p
}

// The owner of a new cell: S, or the thread itself where S is private.
#[tactic(auto, using(crate::proofs::Operations::owner_laws))]
fn new_owner(who: Who, s: Place) -> u16
    ensures { result ≡ new_owner_in who s.number }
{
    if s.is_private() {
        return NEW_THREAD_OWNER + u16::from(who.thread);
    }
    u16::from(s.number())
}

// 22
#[tactic(auto, using(crate::proofs::Operations::variable_laws))]
fn read_variable(variables: &[u64], s: u8) -> Outcome
    ensures { result ≡ variable_in variables.now s }
{
    let i = usize::from(s);
    if i < variables.len() {
        return Outcome::Is(value_of(variables[i]));
    }
    Outcome::Stuck
}

// 23
#[tactic(auto, using(crate::proofs::Operations::shared_laws))]
fn shared_cell(who: Who, s: u8) -> Outcome
    ensures { result ≡ shared_in who s }
{
    if usize::from(s) < who.shared {
        return Outcome::Is(Value::Cell(s));
    }
    Outcome::Stuck
}

/// 20 to 23: what a leaf gives; stuck where the variable or the cell is missing.
pub fn leaf(who: Who, variables: &[u64], l: Leaf) -> Outcome
    ensures { result ≡ leaf_in who variables.now l }
{
    match l {
        Leaf::Number(n) => Outcome::Is(Value::Number(u32::from(n))),
        Leaf::Truth(s) => Outcome::Is(Value::Truth(s == 1)),
        Leaf::Variable(s) => read_variable(variables, s),
        Leaf::SharedCell(s) => shared_cell(who, s),
    }
}

// 24: 19 is tested before 17.
fn make_cell(who: Who, s: Place, v: Value, state: &mut State) -> Outcome
    ensures found { result_in result state.new
        ≡ make_in who s.number v (lent_count state.old)
        (lent_cells state.old) }
    ensures rest { lent_rest state.new ≡ lent_rest state.old }
{
    let owner = new_owner(who, s);
    let count = state[CELL_COUNT_AT];
    if is_own(who, u64::from(owner)) {
        let used = cells_in(count);
        if used < MOST_CELLS {
            state[CELLS_AT + used] = cell_word(owner, value_word(v));
            state[CELL_COUNT_AT] = with_cell(count);
            return Outcome::Is(Value::Cell(used as u8));
        }
        state[CELL_COUNT_AT] = with_access(count);
        return Outcome::Spent;
    }
    state[CELL_COUNT_AT] = with_access(count);
    Outcome::Foreign
}

// An access to cell c, counted: v where the cell is in use and one's own. 20 is tested before 19.
fn access(who: Who, c: u8, v: Value, state: &mut State) -> Outcome
    ensures found { result_in result state.new ≡ accessing_in who c v
        (lent_count state.old) (lent_cells state.old) }
    ensures rest { lent_rest state.new ≡ lent_rest state.old }
{
    let j = usize::from(c);
    let count = state[CELL_COUNT_AT];
    if cells_in(count) <= j {
        return Outcome::Stuck;
    }
    let w = state[CELLS_AT + j];
    state[CELL_COUNT_AT] = with_access(count);
    if !is_own(who, owner_of(w)) {
        return Outcome::Foreign;
    }
    Outcome::Is(v)
}

// 25
fn read_cell(who: Who, v: Value, state: &mut State) -> Outcome
    ensures found { result_in result state.new
        ≡ reading_in who v (lent_count state.old) (lent_cells state.old) }
    ensures rest { lent_rest state.new ≡ lent_rest state.old }
{
    let Value::Cell(c) = v else {
        return Outcome::Stuck;
    };
    let content = content_of(state[CELLS_AT + usize::from(c)]);
    access(who, c, content, state)
}

// 17: the cell takes any value and keeps its owner.
fn store_cell(who: Who, v: Value, u: Value, state: &mut State) -> Outcome
    ensures found { result_in result state.new
        ≡ store_in who v u (lent_count state.old) (lent_cells state.old) }
    ensures rest { lent_rest state.new ≡ lent_rest state.old }
{
    let Value::Cell(c) = v else {
        return Outcome::Stuck;
    };
    let o = access(who, c, u, state);
    let Outcome::Is(x) = o else {
        return o;
    };
    let i = CELLS_AT + usize::from(c);
    let w = state[i];
    state[i] = with_content(w, x);
    Outcome::Is(x)
}

// ---- each of them after the evaluation of its last operand, whose refusal stands: `let .. else` in
// each, since a closure that writes to the lent state leaves its caller nothing to know of it

fn then_make(who: Who, s: Place, o: Outcome, state: &mut State) -> Outcome
    ensures found { result_in result state.new
        ≡ and_then_in (result_in o state.old) (make_in who s.number) }
    ensures rest { lent_rest state.new ≡ lent_rest state.old }
{
    let Outcome::Is(v) = o else {
        return o;
    };
    make_cell(who, s, v, state)
}

fn then_read(who: Who, o: Outcome, state: &mut State) -> Outcome
    ensures found { result_in result state.new
        ≡ and_then_in (result_in o state.old) (reading_in who) }
    ensures rest { lent_rest state.new ≡ lent_rest state.old }
{
    let Outcome::Is(v) = o else {
        return o;
    };
    read_cell(who, v, state)
}

/// 24 or 25, on what the operand gave, whose refusal stands.
pub fn then_use(u: CellUse, who: Who, o: Outcome, state: &mut State) -> Outcome
    ensures found { result_in result state.new
        ≡ and_then_in (result_in o state.old) (using_in who u) }
    ensures rest { lent_rest state.new ≡ lent_rest state.old }
{
    match u {
        CellUse::Make(s) => then_make(who, s, o, state),
        CellUse::Read => then_read(who, o, state),
    }
}

/// 17 in the cell v, on what the second operand gave, whose refusal stands.
pub fn then_store(who: Who, v: Value, o: Outcome, state: &mut State) -> Outcome
    ensures found { result_in result state.new
        ≡ and_then_in (result_in o state.old) (store_in who v) }
    ensures rest { lent_rest state.new ≡ lent_rest state.old }
{
    let Outcome::Is(u) = o else {
        return o;
    };
    store_cell(who, v, u, state)
}
