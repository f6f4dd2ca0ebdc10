//! Sums, differences and products of lists of words in a ring, in place: eight words at a time by `std::simd`, with a plain loop for the rest.
//!
//! Each kernel is proved equal to its definition, element by element, at every length.
#![tactic(auto)]

mod cross;
mod kernels;
mod lanes;
mod over;

pub use kernels::LaneRing;
pub use lanes::RingLanes;
