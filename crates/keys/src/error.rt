//! Why a key was not read.
ghost use Rattle.std.specs.Prelude.{◌≡◌, ◌+◌, ◌^◌, ◌<◌, Some};
ghost use Rattle.refusals.specs.Refusals.{refusal};
ghost use Rattle.leb128.specs.Refusals.{refusal_of as number_refusal_of};
ghost use Rattle.keys.specs.declared.error.Layer.TheVariants as layer;
ghost use Rattle.keys.specs.declared.error.Location.TheVariants.{InField};
ghost use Rattle.keys.specs.Refusals.{refusal_of};
ghost use Rattle.keys.specs.Texts.{layer_text, field_text, location_text};

use leb128::NumberError;
use refusals::Refusal;
use std::fmt;

/// The part of the format whose rule a byte breaks.
#[derive(Clone, Copy, Debug, PartialEq, Eq)]
pub enum Layer {
    /// The bytes of one number.
    Number,
    /// The tag and the digest.
    Key,
}

impl fmt::Display for Layer {
    ghost output = { λ x. Some (layer_text x) };

    fn fmt<W: fmt::Write>(&self, f: &mut fmt::Formatter<W>) -> fmt::Result {
        let name = match self {
            Layer::Number => "number",
            Layer::Key => "key",
        };
        write!(f, "{name}")
    }
}

#[derive(Clone, Copy, Debug, PartialEq, Eq)]
pub enum Field {
    Tag,
    Digest,
    Height,
    Epoch,
    View,
}

impl fmt::Display for Field {
    ghost output = { λ x. Some (field_text x) };

    fn fmt<W: fmt::Write>(&self, f: &mut fmt::Formatter<W>) -> fmt::Result {
        let name = match self {
            Field::Tag => "tag",
            Field::Digest => "digest",
            Field::Height => "height",
            Field::Epoch => "epoch",
            Field::View => "view",
        };
        write!(f, "{name}")
    }
}

// Layer, field and place stand in each case, and not in a struct of their own, since callers match on them by name.

/// Why no key was read. A place counts from 0 at the key's first byte, and is that of the offending or missing byte.
#[derive(Clone, Copy, Debug, PartialEq, Eq)]
pub enum ReadError {
    /// The bytes end inside a field.
    Truncated {
        layer: Layer,
        field: Field,
        place: usize,
    },
    /// The tenth byte of a number is above 1.
    TooLarge {
        layer: Layer,
        field: Field,
        place: usize,
    },
    /// A number of two or more bytes ends in byte 00.
    Padded {
        layer: Layer,
        field: Field,
        place: usize,
    },
    /// The tag is above 2.
    UnknownTag {
        layer: Layer,
        tag: u8,
        place: usize,
    },
}

/// What a refusal of reading hands back.
#[derive(Clone, Copy, Debug, PartialEq, Eq)]
pub enum Location {
    InField {
        layer: Layer,
        field: Field,
        place: usize,
    },
    AtTag {
        layer: Layer,
        tag: u8,
        place: usize,
    },
}

impl fmt::Display for Location {
    ghost output = { λ x. Some (location_text x) };

    fn fmt<W: fmt::Write>(&self, f: &mut fmt::Formatter<W>) -> fmt::Result {
        match *self {
            Location::InField {
                layer,
                field,
                place,
            } => write!(f, "layer {layer}, field {field}, place {place}"),
            Location::AtTag { layer, tag, place } => {
                write!(f, "layer {layer}, tag {tag}, place {place}")
            }
        }
    }
}

impl From<ReadError> for Refusal<Location> {
    ghost from_gives = { λ e r. r ≡ refusal_of e };

    fn from(error: ReadError) -> Refusal<Location> {
        let (number, layer, field, place) = match error {
            ReadError::Truncated {
                layer,
                field,
                place,
            } => (1, layer, field, place),
            ReadError::TooLarge {
                layer,
                field,
                place,
            } => (2, layer, field, place),
            ReadError::Padded {
                layer,
                field,
                place,
            } => (3, layer, field, place),
            ReadError::UnknownTag { layer, tag, place } => {
                let values = Location::AtTag { layer, tag, place };
                return Refusal { number: 4, values };
            }
        };
        let values = Location::InField {
            layer,
            field,
            place,
        };
        Refusal { number, values }
    }
}

impl ReadError {
    /// The fault of the number in `field`, whose first byte is the key's byte `start`.
    // No `From`: the field and the place where it begins are the caller's.
    pub(crate) fn in_number(field: Field, start: usize, fault: NumberError) -> ReadError
        requires { start + (number_refusal_of fault).values < 2 ^ 64 }
        ensures { refusal_of result ≡ refusal (number_refusal_of fault).number (InField layer.Number field (start + (number_refusal_of fault).values)) }
    {
        let layer = Layer::Number;
        match fault {
            NumberError::Truncated { place } => ReadError::Truncated {
                layer,
                field,
                place: start + place,
            },
            NumberError::TooLarge { place } => ReadError::TooLarge {
                layer,
                field,
                place: start + place,
            },
            NumberError::Padded { place } => ReadError::Padded {
                layer,
                field,
                place: start + place,
            },
        }
    }
}
