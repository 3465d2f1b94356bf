//! Whole numbers of 384 bits.
ghost use Rattle.std.specs.Prelude.{◌≡◌, ◌+◌, ◌*◌, ◌^◌, ◌<◌, nat_le};
ghost use Rattle.wide_numbers.specs.Wide.{number};

/// A whole number below 2^384.
#[derive(Clone, Copy)]
pub struct Wide {
    low: u128,
    middle: u128,
    high: u128,
}

impl Wide {
    /// The number.
    pub fn new(value: u128) -> Self
        ensures { number result ≡ value }
    {
        Wide {
            low: value,
            middle: 0,
            high: 0,
        }
    }

    /// The sum of two numbers.
    pub fn plus(self, other: Wide) -> Wide
        requires { number self + number other < 2 ^ 384 }
        ensures { number result ≡ number self + number other }
    {
        let (low, to_middle) = self.low.carrying_add(other.low, false);
        let (middle, to_high) = self.middle.carrying_add(other.middle, to_middle);
        let (high, _) = self.high.carrying_add(other.high, to_high);
        Wide { low, middle, high }
    }

    /// The product of two numbers.
    pub fn times(self, factor: u128) -> Wide
        requires { number self * factor < 2 ^ 384 }
        ensures { number result ≡ number self * factor }
    {
        let (low, to_middle) = self.low.carrying_mul(factor, 0);
        let (middle, to_high) = self.middle.carrying_mul(factor, to_middle);
        let (high, _) = self.high.carrying_mul(factor, to_high);
        Wide { low, middle, high }
    }

    /// Whether the number is at most the other one.
    pub fn is_at_most(self, other: Wide) -> bool
        ensures { result ≡ nat_le (number self) (number other) }
    {
        if self.high != other.high {
            return self.high < other.high;
        }
        if self.middle != other.middle {
            return self.middle < other.middle;
        }
        self.low <= other.low
    }
}
