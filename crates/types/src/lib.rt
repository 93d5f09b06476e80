//! Epochs, heights, views, rounds and cutoffs.
#![tactic(auto)]

mod cutoff;
mod epoch;
mod height;
mod round;
mod view;

pub use cutoff::Cutoff;
pub use epoch::Epoch;
pub use height::Height;
pub use round::Round;
pub use view::View;
