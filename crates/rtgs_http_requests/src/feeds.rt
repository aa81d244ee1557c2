//! Input that comes in pieces of any sizes: the region of a request's head, and the body behind it. All room is made
//! before the first piece, and no result depends on how the input was cut.

mod body_feed;
mod body_step;
mod head_feed;
mod head_step;
pub mod laws;
pub mod limits;
mod truncated;

pub use crate::feeds::body_feed::BodyFeed;
pub use crate::feeds::body_step::BodyStep;
pub use crate::feeds::head_feed::HeadFeed;
pub use crate::feeds::head_step::HeadStep;
pub use crate::feeds::truncated::Truncated;
