//! The modules of a laid-out file in order, each with what is known of those before it.
ghost use Rattle.std.specs.Prelude.{◌≡◌, [], ◌∷◌, map, ◌<◌, ◌≤◌, length, take, drop};
ghost use Rattle.language.specs.Limits.{most_parameters};
ghost use Rattle.language.specs.Places.{linked};
ghost use Rattle.language.specs.Inner.Labels.{within_in};
ghost use Rattle.text.specs.Frames.{frames_of};
ghost use Rattle.program.specs.Trees.{statement_at};
ghost use Rattle.program.specs.Programs.{modules_from};
ghost use Rattle.layout.specs.Inner.Scope.{Room};
ghost use Rattle.rules.specs.Inner.Checking.{effect_in, main_rule, modules_in};
ghost use Rattle.rules.specs.Inner.Signatures.{signature_of, signature_with, signature_word};
ghost use Rattle.checker.specs.Inner.Settings.{setting_in, LabelsOf};
ghost use Rattle.checker.specs.Inner.Frames.{FileIn};

use crate::effect::effect_of;
use crate::scope::Scope;
use crate::setting::Setting;
use language::Place;
use language::effect::Effect;
use language::frame::Frame;
use language::group::Labels;
use language::limit::MOST_MODULES;
use language::refusal::{Rule, Verdict};
use program::frames::frame_at;
use rules::finding::{StatementEffect, refused};
use rules::start::signature_word;

/// What the body of the module f is found to be.
pub(crate) fn module_effect(setting: &Setting, f: Frame) -> StatementEffect
    requires { (f.a < length setting.now.frames.now)
        × Room (frames_of setting.now.frames.now) f.a f.s × (f.s ≤ most_parameters) }
    ensures { result
        ≡ effect_in (setting_in setting.now.frames.now setting.now.cells.now)
        (map signature_of setting.now.below.now) (take f.s (f.b ∷ f.c ∷ [])) linked
        (statement_at (frames_of setting.now.frames.now) f.a) }
{
    let mut scope = Scope::of(f.b, f.c, f.s);
    effect_of(setting, &mut scope, true, f.a)
}

// 'main has an effect within {2}'; an event's owner may be in step with 2.
pub(crate) fn main_rule(labels: &Labels, frame: u16, effect: Effect) -> Verdict
    ensures { result ≡ main_rule (within_in labels.now) frame effect }
{
    if !effect.within(labels, Place::HOME) {
        return refused(Rule::WrongEffect, frame);
    }
    Ok(())
}

// What is known of a module whose body has that effect.
fn module_signature(f: Frame, e: Effect) -> u64
    requires { f.s ≤ most_parameters }
    ensures kept { result ≡ signature_word f.s f.b f.c e }
    ensures says { signature_of result ≡ signature_with f.s f.b f.c e }
{
    signature_word(f.s, f.b, f.c, e)
}

// The first broken rule of a laid-out file, module after module; the last is main.
pub(crate) fn modules_rule(frames: &[u64], cells: &[u16], labels: &Labels) -> Verdict
    requires { FileIn frames.now × LabelsOf frames.now labels.now }
    ensures { result
        ≡ modules_in (setting_in frames.now cells.now) []
        (modules_from (frames_of frames.now) 0 (frames_of frames.now)) }
{
    // An array and a count: they are filled and lent in this function alone, so that a list type
    // would be no plainer.
    let mut below = [0u64; MOST_MODULES];
    let mut m: usize = 0;
    let last = frames.len() - 1;
    for i in 0..last {
        let f = frame_at(frames, i);
        if !f.kind.is_module() {
            continue;
        }
        let setting = Setting {
            frames,
            cells,
            labels,
            below: &below[..m],
        };
        let x = module_effect(&setting, f)?;
        below[m] = module_signature(f, x.effect);
        m += 1;
    }
    let f = frame_at(frames, last);
    let setting = Setting {
        frames,
        cells,
        labels,
        below: &below[..m],
    };
    let x = module_effect(&setting, f)?;
    main_rule(labels, last as u16, x.effect)
}
