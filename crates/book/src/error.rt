//! Why a pair was not entered.
ghost use Rattle.std.specs.Prelude.{◌≡◌};
ghost use Rattle.book.specs.Refusals.{refusal_of};

use refusals::Refusal;

/// Why a pair was not entered.
#[derive(Clone, Copy, Debug, PartialEq, Eq)]
pub enum BookError<P> {
    /// The book is full, and the pair is not in it.
    Full { pair: P },
}

impl<P> From<BookError<P>> for Refusal<P> {
    ghost from_gives = { λ e r. r ≡ refusal_of e };

    fn from(error: BookError<P>) -> Refusal<P> {
        let BookError::Full { pair } = error;
        Refusal {
            number: 12,
            values: pair,
        }
    }
}
