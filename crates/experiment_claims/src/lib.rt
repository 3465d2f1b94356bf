//! Numbers that threads draw: each number below a count is drawn by exactly one seat, once.
//!
//! ```text
//! let (claims, mut seat) = Claims::new(alloc, 2)?;
//! claims.draw(&mut seat);  // Some(0)
//! claims.draw(&mut seat);  // Some(1)
//! claims.draw(&mut seat);  // None: the bound is reached
//! ```
#![tactic(auto)]

mod claims;
mod hand;
mod seats;

pub use hand::Hand;
pub use seats::{ClaimSeat, Claims};
