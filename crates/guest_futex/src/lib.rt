//! The harts that wait for an address (Linux, futex(2)), and lists of harts.
//!
//! ```text
//! let mut queue = Queue::new(alloc)?;
//! let mut woken = HartList::new();
//! queue.wait(0x1000, HartId(1));
//! queue.wait(0x1000, HartId(2));
//! queue.wake(0x1000, 1, &mut woken);
//! woken.harts();  // [HartId(1)], which has waited longest
//! ```
#![tactic(auto)]

mod hart_list;
mod queue;

pub use hart_list::HartList;
pub use queue::Queue;
