//! Starting a module, 13 and 14: the arguments, and what is known of the modules below.
ghost use Rattle.std.specs.Prelude.{◌≡◌, [], ◌∷◌, map, ◌≤◌, take};
ghost use Rattle.basics.specs.Members.{every};
ghost use Rattle.basics.specs.Inner.Searches.{same_numbers};
ghost use Rattle.language.specs.Types.{public};
ghost use Rattle.rules.specs.Inner.Checking.{listed, argue, start_rule_of};
ghost use Rattle.rules.specs.Inner.Standings.{standing};
ghost use Rattle.rules.specs.Inner.Signatures.{argued_of, no_arguments};
ghost use Rattle.rules.specs.Inner.Signatures.{signature_of, signature_word};

use crate::finding::{Ending, Fault, StatementEffect, Typed, Typing, refused};
use language::effect::Effect;
use language::refusal::Rule;
use language::type_word::is_public;

/// The arguments of a start: none, one, or the types of two and their effect.
#[derive(Clone, Copy, Debug, PartialEq, Eq)]
pub enum Arguments {
    Nothing,
    One(Typed),
    Two(u16, u16, Effect),
}

/// One argument, or the first fault in it.
#[tactic(auto, using(crate::proofs::StartLaws::with_none), unfolding(crate::specs::Inner::Checking::argue))]
pub fn one_argument<E>(x: Typing<E>) -> Result<Arguments, E>
    ensures { argued_of result ≡ argue x no_arguments }
{
    Ok(Arguments::One(x?))
}

/// Two arguments, or the first fault in them.
#[tactic(auto, using(crate::proofs::StartLaws::with_none), unfolding(crate::specs::Inner::Checking::argue))]
pub fn two_arguments<E: Drop>(x: Typing<E>, y: Typing<E>) -> Result<Arguments, E>
    ensures { argued_of result ≡ argue x (argue y no_arguments) }
{
    let x = x?;
    let y = y?;
    Ok(Arguments::Two(x.type_word, y.type_word, x.effect.joined(y.effect)))
}

// A word that keeps what is known of a module has fields of 16 bits, from the right: two types, the
// two sets of the effect, how many parameters. As multipliers: one field, two, three. A word and
// not a struct: the contract of `signature_word` says the number, and 16 words are 128 bytes of the
// check's stack.
const FIELD: u64 = 0x0001_0000;

const TWO_FIELDS: u64 = 0x0001_0000_0000;

const THREE_FIELDS: u64 = 0x0001_0000_0000_0000;
// A set of schedulers has 8 bits, a number of parameters is one of three.
const SETS: u64 = 0x0100;

const COUNTS: u64 = 3;

/// What is known of a module, in one word: how many parameters it has, at most 2, their types, and
/// its effect.
#[tactic(auto, unfolding(crate::specs::Inner::Signatures::signature_word))]
pub fn signature_word(count: u8, first: u16, second: u16, effect: Effect) -> u64
    ensures { result ≡ signature_word count first second effect }
{
    let low = u64::from(second) * FIELD + u64::from(first);
    let sets = u64::from(effect.events()) * SETS + u64::from(effect.cells());
    let high = u64::from(count) * FIELD + sets;
    high * TWO_FIELDS + low
}

// Whether the first `count` of two types are the types of a module's parameters.
#[tactic(auto, using(crate::proofs::StartLaws::same_types))]
fn same_types(count: u8, first: u16, second: u16, word: u64) -> bool
    requires { count ≤ 2 }
    ensures { result
        ≡ same_numbers (take count (first ∷ second ∷ [])) (signature_of word).types }
{
    u64::from(count) == word / THREE_FIELDS % COUNTS
        && (count == 0
            || u64::from(first) == word % FIELD
                && (count == 1 || u64::from(second) == word / FIELD % FIELD))
}

// Whether the first `count` of two types are public.
#[tactic(auto, using(crate::proofs::StartLaws::every_two))]
fn all_public(count: u8, first: u16, second: u16) -> bool
    requires { count ≤ 2 }
    ensures { result ≡ every public (take count (first ∷ second ∷ [])) }
{
    count == 0 || is_public(first) && (count == 1 || is_public(second))
}

#[tactic(auto, unfolding(crate::specs::Inner::Signatures::signature_of))]
fn signature_effect(word: u64) -> Effect
    ensures { result ≡ (signature_of word).effect }
{
    let sets = word / TWO_FIELDS;
    Effect::of_sets((sets % SETS) as u8, (sets / SETS % SETS) as u8)
}

// A start with the first `count` of two types.
#[tactic(auto, unfolding(crate::specs::Inner::Checking::start_rule_of))]
fn start_typed<E: Fault>(
    once: bool,
    below: &[u64],
    linked: bool,
    started: u8,
    frame: u16,
    count: u8,
    first: u16,
    second: u16,
    effect: Effect,
) -> StatementEffect<E>
    requires { count ≤ 2 }
    ensures { result
        ≡ start_rule_of E.of_rule once (map signature_of below.now) (standing linked) started frame
        (listed (take count (first ∷ second ∷ [])) effect) }
{
    let Some(word) = below.get(usize::from(started)) else {
        return refused(Rule::Unbound, frame);
    };
    if !same_types(count, first, second, *word) {
        return refused(Rule::IllTyped, frame);
    }
    if !all_public(count, first, second) {
        return refused(Rule::Escaping, frame);
    }
    if !linked {
        return refused(Rule::WhileUnlinked, frame);
    }
    Ok(Ending {
        effect: effect.joined(signature_effect(*word)),
        at_once: once,
    })
}

/// 13 and 14: `once` says whether it ends at once. Unbound where no module of that number stands
/// below, ill typed where the arguments are not of its parameters' types, escaping where one of
/// them is private; never while unlinked.
// `once` stays a flag: it is the rule's own parameter, since 13 and 14 differ in it alone
// (`start_rule` of specs/Inner/Checking), and no step is chosen by it.
#[tactic(auto, unfolding(crate::specs::Inner::Checking::start_rule_of))]
pub fn start_rule<E: Fault>(
    once: bool,
    below: &[u64],
    linked: bool,
    started: u8,
    frame: u16,
    arguments: Result<Arguments, E>,
) -> StatementEffect<E>
    ensures { result
        ≡ start_rule_of E.of_rule once (map signature_of below.now) (standing linked) started frame
        (argued_of arguments) }
{
    match arguments? {
        Arguments::Nothing => {
            start_typed(once, below, linked, started, frame, 0, 0, 0, Effect::none())
        }
        Arguments::One(x) => {
            start_typed(
                once,
                below,
                linked,
                started,
                frame,
                1,
                x.type_word,
                0,
                x.effect,
            )
        }
        Arguments::Two(first, second, effect) => {
            start_typed(
                once, below, linked, started, frame, 2, first, second, effect,
            )
        }
    }
}
