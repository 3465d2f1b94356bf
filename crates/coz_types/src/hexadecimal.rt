//! Hexadecimal digits without memory.
ghost use Rattle.std.specs.Prelude.{◌≡◌, ◌<◌, drop, false};
ghost use Rattle.std.specs.Fmt.{digits, digit_glyph};

use std::marker::Model;

/// The lower-case hexadecimal digits of a number, in room of their own.
#[derive(Drop)]
pub struct HexDigits {
    // The digits stand at the end.
    room: [u8; 16],
    from: usize,
}

impl Model for HexDigits {
    ghost use Rattle.std.specs.Prelude.{ℕ, ◌<◌, List, drop};

    ghost Value = { List ℕ };

    ghost view = { λ d. drop d.from d.room };

    ghost invariant = { λ d. d.from < 16 };
}

impl HexDigits {
    /// The digits of this number.
    pub fn new(number: u64) -> HexDigits
        ensures { result ≡ digits 16 false number }
    {
        let mut room = [0; 16];
        let from = fill(number, &mut room);
        HexDigits { room, from }
    }

    /// The digits, the highest first.
    pub fn bytes(&self) -> &[u8]
        ensures { result.now ≡ self.now }
    {
        &self.room[self.from..]
    }
}

fn lower_digit(value: u8) -> u8
    requires { value < 16 }
    ensures { result ≡ digit_glyph false value }
{
    if value < 10 {
        b'0' + value
    } else {
        b'a' + (value - 10)
    }
}

// The digits are at the end of the buffer, from this index on.
fn fill(number: u64, room: &mut [u8; 16]) -> usize
    ensures within { result < 16 }
    ensures digits { drop result room.new ≡ digits 16 false number }
{
    let mut rest = number;
    for turn in 0..16 {
        let at = 15 - turn;
        room[at] = lower_digit((rest % 16) as u8);
        rest /= 16;
        if rest == 0 {
            return at;
        }
    }
    unreachable!()
}
