//! Resolver keys: read, written and compared.
#![tactic(auto)]

mod cursor;
mod error;
mod key;
mod key_ref;
mod reader;

pub use error::{Field, Layer, Location, ReadError};
pub use key::Key;
pub use key_ref::KeyRef;
pub use reader::Reader;
