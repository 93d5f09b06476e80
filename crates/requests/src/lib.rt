//! What the marshal fetches through the resolver, and which of it a floor leaves standing.
#![tactic(auto)]

mod annotation;
mod floor;
mod request;

pub use annotation::{Annotation, Finalized};
pub use floor::{above_height_floor, above_round_floor};
pub use request::Request;
