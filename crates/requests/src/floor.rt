//! Which pairs of key and annotation stand above a floor.
ghost use Rattle.std.specs.Prelude.{MatchBool};
ghost use Rattle.requests.specs.Floors.{AboveHeight, AboveRound};

use crate::annotation::{Annotation, Finalized};
use keys::Key;
use types::{Cutoff, Height};

// A key and an annotation, and no struct of both: it would be made for these two calls alone, of what `into_inner` gives apart.

/// Whether a pair is above a height floor: one that is bound to a height is if its height is higher, any other always is.
pub fn above_height_floor<D>(floor: Height, key: &Key<D>, annotation: &Annotation) -> bool
    ensures { MatchBool result (AboveHeight floor key.now annotation.now) (AboveHeight floor key.now annotation.now → ⊥) }
{
    match (key, annotation) {
        (Key::Finalized { height }, _)
        | (Key::Block(_), Annotation::Untrusted { height })
        | (Key::Block(_), Annotation::Certified { height })
        | (Key::Block(_), Annotation::Finalized(Finalized::ByHeight { height })) => *height > floor,
        _ => true,
    }
}

/// Whether a pair is above a cutoff: one that is bound to a round is if the cutoff does not cover its round, any other always is.
pub fn above_round_floor<D>(cutoff: Cutoff, key: &Key<D>, annotation: &Annotation) -> bool
    ensures { MatchBool result (AboveRound cutoff key.now annotation.now) (AboveRound cutoff key.now annotation.now → ⊥) }
{
    match (key, annotation) {
        (Key::Notarized { round }, _)
        | (Key::Block(_), Annotation::Finalized(Finalized::ByRound { round })) => {
            !cutoff.covers(*round)
        }
        _ => true,
    }
}
