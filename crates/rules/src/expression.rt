//! One function for each rule of expressions: what a node is found to be, from what its children
//! were found to be. In each, `frame` is the node's, and a child's fault is handed on as it is,
//! before its own.
ghost use Rattle.std.specs.Prelude.{◌≡◌, true};
ghost use Rattle.language.specs.Places.{is_place};
ghost use Rattle.language.specs.Types.{owner_of};
ghost use Rattle.language.specs.Effects.{no_effect, with_owner};
ghost use Rattle.rules.specs.Inner.Findings.{typed};
ghost use Rattle.rules.specs.Inner.Checking.{named_rule, new_rule_of, content_rule_of};
ghost use Rattle.rules.specs.Inner.Checking.{numbers_rule_of, choose_rule_of};
ghost use Rattle.rules.specs.Inner.NodeRules.{leaf_rule, OwnerPlaced, cell_rule_of, made_by};

use crate::finding::{Fault, Typed, Typing, refused};
use language::Place;
use language::effect::Effect;
use language::refusal::Rule;
use language::type_word::{NUMBER, TRUTH, cell_type, content_of, is_cell, is_public, owner_of};
use program::node::{CellUse, Leaf, Operator};

// What has that type, and accesses nothing.
fn plain(type_word: u16) -> Typing
    ensures { result ≡ typed type_word no_effect }
{
    Ok(Typed {
        type_word,
        effect: Effect::none(),
    })
}

// 22 and 23: a variable or a shared cell, by its index in the types of those there are.
#[tactic(auto, unfolding(crate::specs::Inner::Checking::named_rule))]
fn named_rule(types: &[u16], name: u8, frame: u16) -> Typing
    ensures { result ≡ named_rule types.now name frame }
{
    match types.get(usize::from(name)) {
        Some(word) => plain(*word),
        None => refused(Rule::Unbound, frame),
    }
}

/// 20 to 23. Refused as unbound where there is no such variable or shared cell.
pub fn leaf_rule(cells: &[u16], scope: &[u16], leaf: Leaf, frame: u16) -> Typing
    ensures { result ≡ leaf_rule cells.now scope.now leaf frame }
{
    match leaf {
        Leaf::Number(_) => plain(NUMBER),
        Leaf::Truth(_) => plain(TRUTH),
        Leaf::Variable(name) => named_rule(scope, name, frame),
        Leaf::SharedCell(name) => named_rule(cells, name, frame),
    }
}

// 24: an owner is a place, as the layout has it, since no other fits a type word.
#[tactic(auto, using(crate::proofs::RuleLaws::read_laws), unfolding(crate::specs::Inner::Checking::new_rule_of))]
fn new_rule<E: Fault>(owner: Place, frame: u16, x: Typing<E>) -> Typing<E>
    requires { is_place owner.number ≡ true }
    ensures { result ≡ new_rule_of E.of_rule owner.number frame x }
{
    let x = x?;
    let Some(type_word) = cell_type(owner, x.type_word) else {
        return refused(Rule::IllTyped, frame);
    };
    if owner.is_private() {
        return Ok(Typed {
            type_word,
            effect: x.effect,
        });
    }
    if !is_public(x.type_word) {
        return refused(Rule::Escaping, frame);
    }
    Ok(Typed {
        type_word,
        effect: x.effect.with_owner(owner),
    })
}

// The effect with the owner of a cell's type added.
#[tactic(auto, using(crate::proofs::RuleLaws::owner_laws))]
pub(crate) fn with_owner_of(effect: Effect, type_word: u16) -> Effect
    ensures { result ≡ with_owner (owner_of type_word) effect }
{
    match owner_of(type_word) {
        Some(owner) => effect.with_owner(owner),
        None => effect,
    }
}

// 25
#[tactic(auto, unfolding(crate::specs::Inner::Checking::content_rule_of))]
fn content_rule<E: Fault>(frame: u16, x: Typing<E>) -> Typing<E>
    ensures { result ≡ content_rule_of E.of_rule frame x }
{
    let x = x?;
    if !is_cell(x.type_word) {
        return refused(Rule::IllTyped, frame);
    }
    Ok(Typed {
        type_word: content_of(x.type_word),
        effect: with_owner_of(x.effect, x.type_word),
    })
}

/// 24 and 25, by what becomes of the value: ill typed where the new cell is too deep or what is
/// read is no cell, escaping where a public cell is made around a private one.
pub fn cell_rule<E: Fault>(becomes: CellUse, frame: u16, x: Typing<E>) -> Typing<E>
    requires { OwnerPlaced becomes }
    ensures { result ≡ cell_rule_of E.of_rule becomes frame x }
{
    match becomes {
        CellUse::Make(owner) => new_rule(owner, frame, x),
        CellUse::Read => content_rule(frame, x),
    }
}

/// The type of what an operator makes.
pub fn made_by(op: Operator) -> u16
    ensures { result ≡ made_by op }
{
    match op {
        Operator::Sum => NUMBER,
        Operator::Less => TRUTH,
    }
}

/// 26 and 27: of two numbers, `made` is the type of what they make. Ill typed where one of the two
/// is no number.
#[tactic(auto, unfolding(crate::specs::Inner::Checking::numbers_rule_of))]
pub fn numbers_rule<E: Fault>(made: u16, frame: u16, x: Typing<E>, y: Typing<E>) -> Typing<E>
    ensures { result ≡ numbers_rule_of E.of_rule made frame x y }
{
    let x = x?;
    let y = y?;
    if x.type_word != NUMBER || y.type_word != NUMBER {
        return refused(Rule::IllTyped, frame);
    }
    Ok(Typed {
        type_word: made,
        effect: x.effect.joined(y.effect),
    })
}

/// 28: ill typed but for a truth and two numbers.
#[tactic(auto, unfolding(crate::specs::Inner::Checking::choose_rule_of))]
pub fn choose_rule<E: Fault>(frame: u16, x: Typing<E>, y: Typing<E>, z: Typing<E>) -> Typing<E>
    ensures { result ≡ choose_rule_of E.of_rule frame x y z }
{
    let x = x?;
    let y = y?;
    let z = z?;
    if x.type_word != TRUTH || y.type_word != NUMBER || z.type_word != NUMBER {
        return refused(Rule::IllTyped, frame);
    }
    Ok(Typed {
        type_word: NUMBER,
        effect: x.effect.joined(y.effect).joined(z.effect),
    })
}
