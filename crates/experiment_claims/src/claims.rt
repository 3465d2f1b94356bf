//! The calls on claims and their seats: one step of the shared word each.
ghost use Rattle.std.specs.Prelude.{◌≡◌, ℕ, ◌+◌, ◌-◌, ◌<◌, ◌≤◌, ◌++◌, [], ◌∷◌, IfOk, length};
ghost use Rattle.experiment_claims.specs.Drawn.{first_hand, hand, times, once_below, owns_all};
ghost use Rattle.experiment_claims.specs.Seats.{hand_of, bound_of, IsSeatOf, Draws};

use crate::hand::{Draw, Give, Part, Together};
use crate::seats::{ClaimSeat, Claims};
use atomic_table::Table;
use std::alloc::{AllocError, Global};
use std::marker::Brand;

impl Claims {
    /// Claims of the numbers below a bound, and the first seat, which has 2^40
    /// turns and no numbers.
    pub fn new(alloc: Global, bound: u32) -> Result<(Claims, ClaimSeat), AllocError>
        ensures seat { IfOk result (λ made. IsSeatOf made.0 made.1) }
        ensures hand { IfOk result (λ made. hand_of made.1 ≡ first_hand) }
        ensures bound { IfOk result (λ made. bound_of made.0 ≡ bound) }
    {
        let (table, seat) = Table::of_words(alloc, &[0], &())?;
        Ok((Claims { table, bound }, ClaimSeat { seat }))
    }

    /// Spends one turn of the seat on the next number, which no other seat gets. Returns `None` if
    /// that number is the bound or more.
    pub fn draw(&self, seat: &mut ClaimSeat) -> Option<u32>
        requires seat { IsSeatOf self.now seat.old }
        requires turn { 0 < (hand_of seat.old).turns }
        ensures seat { IsSeatOf self.now seat.new }
        ensures draws { Draws (bound_of self.now) (hand_of seat.old) (hand_of seat.new) result }
    {
        let number = self.table.shared.fetch_add::<Draw>(&mut seat.seat, 0, 1);
        if number < u64::from(self.bound) {
            return Some(number as u32);
        }
        None
    }

    /// Divides a seat in two: the second has `turns` of its turns and no numbers, and the first
    /// keeps the rest.
    pub fn split(&self, seat: ClaimSeat, turns: u64) -> (ClaimSeat, ClaimSeat)
        requires seat { IsSeatOf self.now seat }
        requires turns { turns ≤ (hand_of seat).turns }
        ensures seats { IsSeatOf self.now result.0 × IsSeatOf self.now result.1 }
        ensures first { hand_of result.0
            ≡ hand ((hand_of seat).turns - turns) (hand_of seat).numbers }
        ensures second { hand_of result.1 ≡ hand turns [] }
    {
        self.split_by::<Brand>(seat, turns)
    }

    /// `split`, by an amount that the kind of the split names.
    fn split_by<P: Part>(&self, seat: ClaimSeat, _turns: u64) -> (ClaimSeat, ClaimSeat)
        requires part { _turns ≡ P.turns }
        requires seat { IsSeatOf self.now seat }
        requires turns { _turns ≤ (hand_of seat).turns }
        ensures seats { IsSeatOf self.now result.0 × IsSeatOf self.now result.1 }
        ensures first { hand_of result.0
            ≡ hand ((hand_of seat).turns - _turns) (hand_of seat).numbers }
        ensures second { hand_of result.1 ≡ hand _turns [] }
    {
        let ClaimSeat { mut seat } = seat;
        let other = self.table.shared.split_seat::<Give<P>>(&mut seat);
        (ClaimSeat { seat }, ClaimSeat { seat: other })
    }

    /// Puts the turns and the numbers of two seats together.
    pub fn join(&self, first: ClaimSeat, second: ClaimSeat) -> ClaimSeat
        requires seats { IsSeatOf self.now first × IsSeatOf self.now second }
        ensures seat { IsSeatOf self.now result }
        ensures turns { (hand_of result).turns ≡ (hand_of first).turns + (hand_of second).turns }
        ensures numbers { (hand_of result).numbers
            ≡ (hand_of first).numbers ++ (hand_of second).numbers }
    {
        let ClaimSeat { mut seat } = first;
        let ClaimSeat { seat: other } = second;
        self.table.shared.join_seat::<Together>(&mut seat, other);
        ClaimSeat { seat }
    }

    /// The count of all draws. The seat, to which all others were joined, has each number below it
    /// once and no other.
    pub fn finish(self, seat: ClaimSeat) -> u64
        requires seat { IsSeatOf self seat }
        requires all { owns_all (hand_of seat) }
        ensures count { result ≡ length (hand_of seat).numbers }
        ensures each { (x : ℕ) → times x (hand_of seat).numbers ≡ once_below x result }
    {
        let Claims { table, bound: _ } = self;
        let ClaimSeat { seat } = seat;
        let closed = table.close_with(seat);
        let count = closed.word(0);
        closed.free();
        count
    }
}
