//! Registers.

ghost use Rattle.std.specs.Prelude.{◌≡◌, ◌<◌};
ghost use Rattle.asm_tokens.specs.Registers.{number_of};

/// One of the 32 registers.
#[derive(Clone, Copy)]
pub enum Register {
    /// zero: it reads as 0.
    X0,
    /// ra
    X1,
    /// sp
    X2,
    /// gp
    X3,
    /// tp
    X4,
    /// t0
    X5,
    /// t1
    X6,
    /// t2
    X7,
    /// s0, or fp
    X8,
    /// s1
    X9,
    /// a0
    X10,
    /// a1
    X11,
    /// a2
    X12,
    /// a3
    X13,
    /// a4
    X14,
    /// a5
    X15,
    /// a6
    X16,
    /// a7
    X17,
    /// s2
    X18,
    /// s3
    X19,
    /// s4
    X20,
    /// s5
    X21,
    /// s6
    X22,
    /// s7
    X23,
    /// s8
    X24,
    /// s9
    X25,
    /// s10
    X26,
    /// s11
    X27,
    /// t3
    X28,
    /// t4
    X29,
    /// t5
    X30,
    /// t6
    X31,
}

/// The register's number.
pub fn number_of(register: Register) -> u8
    ensures value { result ≡ number_of register }
    ensures small { result < 32 }
{
    match register {
        Register::X0 => 0,
        Register::X1 => 1,
        Register::X2 => 2,
        Register::X3 => 3,
        Register::X4 => 4,
        Register::X5 => 5,
        Register::X6 => 6,
        Register::X7 => 7,
        Register::X8 => 8,
        Register::X9 => 9,
        Register::X10 => 10,
        Register::X11 => 11,
        Register::X12 => 12,
        Register::X13 => 13,
        Register::X14 => 14,
        Register::X15 => 15,
        Register::X16 => 16,
        Register::X17 => 17,
        Register::X18 => 18,
        Register::X19 => 19,
        Register::X20 => 20,
        Register::X21 => 21,
        Register::X22 => 22,
        Register::X23 => 23,
        Register::X24 => 24,
        Register::X25 => 25,
        Register::X26 => 26,
        Register::X27 => 27,
        Register::X28 => 28,
        Register::X29 => 29,
        Register::X30 => 30,
        Register::X31 => 31,
    }
}
