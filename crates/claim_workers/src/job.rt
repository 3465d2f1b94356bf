//! What a worker begins with, and what it ends with.
use crate::claimed::Claimed;
use experiment_claims::ClaimSeat;

/// A worker's number, its seat and its state.
#[derive(Drop)]
pub struct Job<T> {
    /// The number of the worker, from 0.
    pub worker: u32,
    /// The seat that it draws claims by.
    pub seat: ClaimSeat,
    /// The state of the worker.
    pub runner: T,
}

/// A worker's seat at its end, and what it did.
#[derive(Drop)]
pub struct Answer {
    /// The seat that it drew by.
    pub seat: ClaimSeat,
    /// The claims that it drew, with their summaries.
    pub done: Vec<Claimed>,
}
