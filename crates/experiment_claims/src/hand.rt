//! What a seat has, the rule on all seats, and the steps.
ghost use Rattle.std.specs.Prelude.{◌≡◌, ℕ, ◌+◌, ◌-◌, ◌++◌, [], ◌∷◌};

use atomic_table::{Join, Play, Split, TableRule};
use std::collections::LinkedList;
use std::marker::{Brand, PhantomData};

/// The turns that a seat has left, and the numbers that it drew. No value of it is made.
pub struct Hand {
    /// The number of draws that are left.
    pub turns: u64,
    /// The numbers that were drawn so far.
    pub numbers: LinkedList<u64>,
}

/// The rule on the claim word and all seats: each number below the word is
/// in one of their lists, once.
pub struct EachOnce;

impl TableRule<(), Hand, ()> for EachOnce {
    ghost use Rattle.experiment_claims.specs.Drawn.{Drawn, first_hand};

    ghost holds = { λ _. Drawn };

    ghost first = { λ _. first_hand };
}

/// A seat spends a turn on the number that the claim word has.
pub struct Draw;

impl Play<(), Hand> for Draw {
    ghost use Rattle.experiment_claims.specs.Drawn.{drew};

    ghost then = { drew };
}

/// The number of turns that a split gives away.
pub trait Part {
    ghost turns: { ℕ };
}

impl Part for Brand {
    ghost turns = { 0 };
}

/// A seat gives some of its turns to a new one.
pub struct Give<P: Part> {
    part: PhantomData<P>,
}

impl<P: Part> Split<Hand> for Give<P> {
    ghost use Rattle.std.specs.Prelude.{◌-◌, []};
    ghost use Rattle.experiment_claims.specs.Drawn.{hand};

    ghost left = { λ h. hand (h.turns - P.turns) h.numbers };

    ghost right = { λ h. hand P.turns [] };
}

/// A seat takes the turns and the numbers of another.
pub struct Together;

impl Join<Hand> for Together {
    ghost use Rattle.std.specs.Prelude.{◌+◌, ◌++◌, []};
    ghost use Rattle.experiment_claims.specs.Drawn.{hand};

    ghost both = { λ h k. hand (h.turns + k.turns) (h.numbers ++ k.numbers) };

    ghost spent = { hand 0 [] };
}
