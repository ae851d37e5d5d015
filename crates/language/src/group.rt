//! Schedulers in step: the labels of the eight, 2 to 9, in order. Those with one label are in step.
ghost use Rattle.std.specs.Prelude.{◌≡◌, true, []};
ghost use Rattle.language.specs.Places.{home, is_scheduler};
ghost use Rattle.language.specs.Limits.{most_schedulers};
ghost use Rattle.language.specs.Effects.{set_from};
ghost use Rattle.language.specs.Inner.Labels.{labels_of, label_at, same_label, with_label};
ghost use Rattle.language.specs.Inner.Labels.{in_group, relabelled};

use crate::Place;
use crate::limit::MOST_SCHEDULERS;

/// A label for each scheduler that a file may have.
pub const LABELS: usize = MOST_SCHEDULERS as usize;

/// The labels of the eight schedulers, the first one's first.
pub type Labels = [u8; LABELS];

/// The schedulers of a file: which are in step, and how many there are.
// What asks for the labels alone, or for the count alone, is lent these and not the whole.
#[derive(Clone, Copy, Debug, PartialEq, Eq)]
pub struct Schedulers {
    pub labels: Labels,
    pub count: u8,
}

/// Without links each has its own number.
pub fn own_labels() -> Labels
    ensures { result ≡ labels_of [] }
{
    [2, 3, 4, 5, 6, 7, 8, 9]
}

fn with_label(label: u8, old: u8, new: u8) -> u8
    ensures { result ≡ with_label old new label }
{
    if label == old { new } else { label }
}

/// Two are linked: those in step with the upper one take the label of the lower one.
pub fn link(labels: &mut Labels, upper: Place, lower: Place)
    requires { (is_scheduler upper.number ≡ true) × (is_scheduler lower.number ≡ true) }
    ensures { labels.new
        ≡ relabelled (label_at labels.old upper.number)
        (label_at labels.old lower.number) labels.old }
{
    let old = labels[upper.index()];
    let new = labels[lower.index()];
    for k in 0..LABELS {
        labels[k] = with_label(labels[k], old, new);
    }
}

/// Whether two are in step.
pub fn in_step(labels: &Labels, p: Place, q: Place) -> bool
    requires { (is_scheduler p.number ≡ true) × (is_scheduler q.number ≡ true) }
    ensures { result ≡ same_label labels.now p.number q.number }
{
    labels[p.index()] == labels[q.index()]
}

/// Whether a number names a scheduler in step with p. Without links that is p itself, told first.
pub fn is_member(labels: &Labels, p: Place, n: u8) -> bool
    requires { is_scheduler p.number ≡ true }
    ensures { result ≡ in_group labels.now p.number n }
{
    n == p.number()
        || match Place::scheduler(u64::from(n)) {
            Some(q) => in_step(labels, p, q),
            None => false,
        }
}

// The set of those in step with a scheduler, a bit for each: bit p - 2 is scheduler p's.
pub(crate) fn group_set(labels: &Labels, place: Place) -> u8
    requires { is_scheduler place.number ≡ true }
    ensures { result ≡ set_from (same_label labels.now place.number) home
        most_schedulers }
{
    let own = labels[place.index()];
    let mut set: u8 = 0;
    for k in (0..LABELS).rev() {
        if labels[k] == own {
            set |= 1u8 << k;
        }
    }
    set
}
