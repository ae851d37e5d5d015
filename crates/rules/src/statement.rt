//! One function for each rule of statements: what a node is found to be, from what its children
//! were found to be. In each, `frame` is the node's, and a child's fault is handed on as it is,
//! before its own.
ghost use Rattle.std.specs.Prelude.{◌≡◌};
ghost use Rattle.language.specs.Effects.{no_effect, with_event};
ghost use Rattle.language.specs.Inner.Labels.{within_in};
ghost use Rattle.rules.specs.Inner.Checking.{cooperate_rule, seq_rule, do_rule_of, join_rule};
ghost use Rattle.rules.specs.Inner.Checking.{store_rule_of, if_else_rule_of, while_rule_of};
ghost use Rattle.rules.specs.Inner.Checking.{signal_rule};
ghost use Rattle.rules.specs.Inner.Standings.{standing};

use crate::expression::with_owner_of;
use crate::finding::{Ending, Fault, StatementEffect, Typing, refused};
use language::Place;
use language::effect::Effect;
use language::group::Labels;
use language::refusal::Rule;
use language::type_word::{TRUTH, content_of, is_cell};

/// 15: never while unlinked.
#[tactic(auto, unfolding(crate::specs::Inner::Checking::cooperate_rule))]
pub fn cooperate_rule(linked: bool, frame: u16) -> StatementEffect
    ensures { result ≡ cooperate_rule (standing linked) frame }
{
    if !linked {
        return refused(Rule::WhileUnlinked, frame);
    }
    Ok(Ending {
        effect: Effect::none(),
        at_once: false,
    })
}

/// 11
#[tactic(auto, unfolding(crate::specs::Inner::Checking::seq_rule))]
pub fn seq_rule<E: Drop>(x: StatementEffect<E>, y: StatementEffect<E>) -> StatementEffect<E>
    ensures { result ≡ seq_rule x y }
{
    let x = x?;
    let y = y?;
    Ok(Ending {
        effect: x.effect.joined(y.effect),
        at_once: x.at_once && y.at_once,
    })
}

/// 12: a wrong effect where the place does not allow the body's; at a private place never while
/// unlinked.
#[tactic(auto, unfolding(crate::specs::Inner::Checking::do_rule_of))]
pub fn do_rule<E: Fault>(
    labels: &Labels,
    linked: bool,
    place: Place,
    frame: u16,
    x: StatementEffect<E>,
) -> StatementEffect<E>
    ensures { result
        ≡ do_rule_of E.of_rule (within_in labels.now) (standing linked) place.number frame x }
{
    let x = x?;
    if !x.effect.within(labels, place) {
        return refused(Rule::WrongEffect, frame);
    }
    if !linked && place.is_private() {
        return refused(Rule::WhileUnlinked, frame);
    }
    Ok(Ending {
        effect: Effect::none(),
        at_once: x.at_once,
    })
}

/// 16: the effect of what the variable is, joined to the body's.
#[tactic(auto, unfolding(crate::specs::Inner::Checking::join_rule))]
pub fn join_rule<E>(effect: Effect, x: StatementEffect<E>) -> StatementEffect<E>
    ensures { result ≡ join_rule effect x }
{
    let x = x?;
    Ok(Ending {
        effect: effect.joined(x.effect),
        at_once: x.at_once,
    })
}

/// 17: ill typed but for a cell and what has the type of its content.
#[tactic(auto, unfolding(crate::specs::Inner::Checking::store_rule_of))]
pub fn store_rule<E: Fault>(frame: u16, x: Typing<E>, y: Typing<E>) -> StatementEffect<E>
    ensures { result ≡ store_rule_of E.of_rule frame x y }
{
    let x = x?;
    let y = y?;
    if !is_cell(x.type_word) || y.type_word != content_of(x.type_word) {
        return refused(Rule::IllTyped, frame);
    }
    Ok(Ending {
        effect: with_owner_of(x.effect.joined(y.effect), x.type_word),
        at_once: true,
    })
}

/// 18: ill typed where the condition is no truth.
#[tactic(auto, unfolding(crate::specs::Inner::Checking::if_else_rule_of))]
pub fn if_else_rule<E: Fault>(
    frame: u16,
    x: Typing<E>,
    y: StatementEffect<E>,
    z: StatementEffect<E>,
) -> StatementEffect<E>
    ensures { result ≡ if_else_rule_of E.of_rule frame x y z }
{
    let x = x?;
    let y = y?;
    let z = z?;
    if x.type_word != TRUTH {
        return refused(Rule::IllTyped, frame);
    }
    Ok(Ending {
        effect: x.effect.joined(y.effect).joined(z.effect),
        at_once: y.at_once || z.at_once,
    })
}

/// 19: ill typed where the condition is no truth; an instant loop where the body can end at once.
#[tactic(auto, unfolding(crate::specs::Inner::Checking::while_rule_of))]
pub fn while_rule<E: Fault>(frame: u16, x: Typing<E>, y: StatementEffect<E>) -> StatementEffect<E>
    ensures { result ≡ while_rule_of E.of_rule frame x y }
{
    let x = x?;
    let y = y?;
    if x.type_word != TRUTH {
        return refused(Rule::IllTyped, frame);
    }
    if y.at_once {
        return refused(Rule::InstantLoop, frame);
    }
    Ok(Ending {
        effect: x.effect.joined(y.effect),
        at_once: true,
    })
}

// The effect of what is done with an event of that owner. In a laid-out file it is a scheduler.
#[tactic(auto, using(crate::proofs::RuleLaws::event_laws))]
fn event_effect(owner: u8) -> Effect
    ensures { result ≡ with_event owner no_effect }
{
    match Place::scheduler(u64::from(owner)) {
        Some(place) => Effect::none().with_event(place),
        None => Effect::none(),
    }
}

/// 1A and 1B, by the event's owner: unbound where the file has no such event.
#[tactic(auto, unfolding(crate::specs::Inner::Checking::signal_rule))]
pub fn signal_rule(owner: Option<u8>, frame: u16) -> StatementEffect
    ensures { result ≡ signal_rule owner frame }
{
    let Some(owner) = owner else {
        return refused(Rule::Unbound, frame);
    };
    Ok(Ending {
        effect: event_effect(owner),
        at_once: true,
    })
}
