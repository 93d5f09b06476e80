//! How a refusal is told: by a number of its own, and by the values that it hands back.
#![tactic(auto)]

ghost use Rattle.std.specs.Prelude.{◌≡◌, ◌++◌, Some, codes, decimal};
ghost use Rattle.std.specs.Option.{option_map};
ghost use Rattle.refusals.specs.Refusals.{refusal_of};

use std::fmt;

/// What a caller is told of a refusal. For each error enum one definition gives every case this form:
/// `refusal_of` in specs/, and `From` in the code.
#[derive(Clone, Copy, Debug, PartialEq, Eq)]
pub struct Refusal<V> {
    // A number and no enum, since it is what a caller is told; the cases are those of the error enums.
    pub number: u8,
    pub values: V,
}

impl<V: fmt::Display> fmt::Display for Refusal<V> {
    ghost output = { λ x. option_map (λ text. codes "refusal " ++ (decimal x.number ++ (codes ": " ++ text))) (V.Display.output x.values) };

    fn fmt<W: fmt::Write>(&self, f: &mut fmt::Formatter<W>) -> fmt::Result {
        let number = self.number;
        let values = &self.values;
        write!(f, "refusal {number}: {values}")
    }
}

/// Why nothing was written.
#[derive(Clone, Copy, Debug, PartialEq, Eq)]
pub enum WriteError {
    /// The output has fewer bytes than what is to be written needs.
    OutputTooShort { needed: usize },
}

/// How many bytes an output needs.
#[derive(Clone, Copy, Debug, PartialEq, Eq)]
pub struct BytesNeeded(pub usize);

impl fmt::Display for BytesNeeded {
    ghost output = { λ x. Some (decimal x.0 ++ codes " bytes needed") };

    fn fmt<W: fmt::Write>(&self, f: &mut fmt::Formatter<W>) -> fmt::Result {
        let bytes = self.0;
        write!(f, "{bytes} bytes needed")
    }
}

impl From<WriteError> for Refusal<BytesNeeded> {
    ghost from_gives = { λ e r. r ≡ refusal_of e };

    fn from(e: WriteError) -> Refusal<BytesNeeded> {
        match e {
            WriteError::OutputTooShort { needed } => Refusal {
                number: 5,
                values: BytesNeeded(needed),
            },
        }
    }
}
