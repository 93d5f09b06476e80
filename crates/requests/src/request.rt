//! Requests: a key and an annotation that fit each other.
ghost use Rattle.std.specs.Prelude.{◌≡◌, MatchBool};
ghost use Rattle.requests.specs.Floors.{AboveHeight, AboveRound};
ghost use Rattle.requests.specs.Requests.{key_of, annotation_of};

use crate::annotation::{Annotation, Finalized};
use keys::Key;
use types::{Cutoff, Height, Round};

#[derive(Clone, Copy)]
enum RequestKind<D> {
    Notarized { round: Round },
    Finalized { height: Height },
    Untrusted { commitment: D, height: Height },
    Certified { commitment: D, height: Height },
    FinalizedByHeight { commitment: D, height: Height },
    FinalizedByRound { commitment: D, round: Round },
}

/// A fetch whose key and annotation fit each other.
#[derive(Clone, Copy)]
pub struct Request<D> {
    kind: RequestKind<D>,
}

impl<D: Copy> Request<D> {
    /// The notarization of a round.
    pub fn notarized(round: Round) -> Request<D>
        ensures { (key_of result ≡ Key.Notarized round) × (annotation_of result ≡ Annotation.Notarization round) }
    {
        let kind = RequestKind::Notarized { round };
        Request { kind }
    }

    /// The finalization of a height.
    pub fn finalized(height: Height) -> Request<D>
        ensures { (key_of result ≡ Key.Finalized height) × (annotation_of result ≡ Annotation.Finalized (Finalized.ByHeight height)) }
    {
        let kind = RequestKind::Finalized { height };
        Request { kind }
    }

    /// A block by its digest, without evidence that it is certified.
    pub fn untrusted(commitment: D, height: Height) -> Request<D>
        ensures { (key_of result ≡ Key.Block commitment) × (annotation_of result ≡ Annotation.Untrusted height) }
    {
        let kind = RequestKind::Untrusted { commitment, height };
        Request { kind }
    }

    /// A block by its digest that this node certified, or an ancestor of one.
    pub fn certified(commitment: D, height: Height) -> Request<D>
        ensures { (key_of result ≡ Key.Block commitment) × (annotation_of result ≡ Annotation.Certified height) }
    {
        let kind = RequestKind::Certified { commitment, height };
        Request { kind }
    }

    /// A block of the finalized chain by its digest, where its height is known.
    pub fn finalized_by_height(commitment: D, height: Height) -> Request<D>
        ensures { (key_of result ≡ Key.Block commitment) × (annotation_of result ≡ Annotation.Finalized (Finalized.ByHeight height)) }
    {
        let kind = RequestKind::FinalizedByHeight { commitment, height };
        Request { kind }
    }

    /// A block of the finalized chain by its digest, where only the round of its finalization is known.
    pub fn finalized_by_round(commitment: D, round: Round) -> Request<D>
        ensures { (key_of result ≡ Key.Block commitment) × (annotation_of result ≡ Annotation.Finalized (Finalized.ByRound round)) }
    {
        let kind = RequestKind::FinalizedByRound { commitment, round };
        Request { kind }
    }

    /// The key and the annotation.
    pub fn into_inner(self) -> (Key<D>, Annotation)
        ensures { (result.0 ≡ key_of self) × (result.1 ≡ annotation_of self) }
    {
        match self.kind {
            RequestKind::Notarized { round } => {
                (Key::Notarized { round }, Annotation::Notarization { round })
            }
            RequestKind::Finalized { height } => (
                Key::Finalized { height },
                Annotation::Finalized(Finalized::ByHeight { height }),
            ),
            RequestKind::Untrusted { commitment, height } => {
                (Key::Block(commitment), Annotation::Untrusted { height })
            }
            RequestKind::Certified { commitment, height } => {
                (Key::Block(commitment), Annotation::Certified { height })
            }
            RequestKind::FinalizedByHeight { commitment, height } => (
                Key::Block(commitment),
                Annotation::Finalized(Finalized::ByHeight { height }),
            ),
            RequestKind::FinalizedByRound { commitment, round } => (
                Key::Block(commitment),
                Annotation::Finalized(Finalized::ByRound { round }),
            ),
        }
    }

    /// As the free `above_height_floor` of its key and annotation.
    pub fn above_height_floor(&self, floor: Height) -> bool
        ensures { MatchBool result (AboveHeight floor (key_of self.now) (annotation_of self.now)) (AboveHeight floor (key_of self.now) (annotation_of self.now) → ⊥) }
    {
        // Case by case and not by the pair: that would copy the digest to read a number.
        match self.kind {
            RequestKind::Finalized { height } => height > floor,
            RequestKind::Untrusted {
                commitment: _,
                height,
            }
            | RequestKind::Certified {
                commitment: _,
                height,
            }
            | RequestKind::FinalizedByHeight {
                commitment: _,
                height,
            } => height > floor,
            RequestKind::Notarized { round: _ }
            | RequestKind::FinalizedByRound {
                commitment: _,
                round: _,
            } => true,
        }
    }

    /// As the free `above_round_floor` of its key and annotation.
    pub fn above_round_floor(&self, cutoff: Cutoff) -> bool
        ensures { MatchBool result (AboveRound cutoff (key_of self.now) (annotation_of self.now)) (AboveRound cutoff (key_of self.now) (annotation_of self.now) → ⊥) }
    {
        match self.kind {
            RequestKind::Notarized { round } => !cutoff.covers(round),
            RequestKind::FinalizedByRound {
                commitment: _,
                round,
            } => !cutoff.covers(round),
            _ => true,
        }
    }
}
