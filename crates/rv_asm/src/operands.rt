//! The operands of a statement: each method takes what it names from their front.

ghost use Rattle.std.specs.Prelude.{◌≡◌, ◌≤◌, ◌<◌, ◌-◌, ◌^◌, IfOk, IsTrue, ℤ, pos, neg_ℤ, ◌≤ℤ◌};
ghost use Rattle.rv_decode.specs.Fields.{is_signed};
ghost use Rattle.rv_decode.specs.Instructions.{is_second, amount_bits};
ghost use Rattle.asm_tokens.specs.Registers.{number_of};
ghost use Rattle.rv_asm.specs.Statements.{name, mark, number, text_operand, register, number_up_to, immediate, then_name, then_register, then_immediate, then_up_to, base, then_base, then_second};
ghost use Rattle.asm_tokens.specs.Views.{all_placed};
ghost use Rattle.rv_asm.specs.Views.{use_of, tokens_left, TakesFirst, Takes, Passes, EndsThere};

use crate::AsmKind;
use asm_tokens::{Placed, Register, Token, TokenError, register_of};
use rv_decode::AtomicOp;

/// A label where it is used.
#[derive(Clone, Copy)]
pub struct NameUse<'s> {
    pub name: &'s [u8],
    pub column: u32,
}

/// The tokens from the place `next` on, of a line whose bytes end before the column `end`.
#[derive(Clone, Copy)]
pub struct Operands<'t, 's> {
    tokens: &'t [Placed<'s>],
    next: usize,
    end: u32,
}

/// A token that the form doesn't have there, or a missing one.
pub fn operand_fault(column: u32) -> TokenError
    ensures { result ≡ TokenError.Fault AsmKind.Operand column }
{
    TokenError::Fault {
        kind: AsmKind::Operand,
        column,
    }
}

impl<'t, 's> Operands<'t, 's> {
    /// All these tokens.
    pub fn new(tokens: &'t [Placed<'s>], end: u32) -> Operands<'t, 's>
        ensures left { tokens_left result ≡ all_placed tokens.now }
        ensures end { result.end ≡ end }
    {
        Operands {
            tokens,
            next: 0,
            end,
        }
    }

    /// A token.
    pub fn token(&mut self) -> Result<&'t Placed<'s>, TokenError>
        ensures { TakesFirst result self.old self.new }
    {
        let tokens = self.tokens;
        match tokens.get(self.next) {
            None => Err(operand_fault(self.end)),
            Some(first) => {
                self.next += 1;
                Ok(first)
            }
        }
    }

    /// The column after the line's bytes.
    pub fn end(&self) -> u32
        ensures { result ≡ self.now.end }
    {
        self.end
    }

    /// Ok if no token is left.
    pub fn finish(&self) -> Result<(), TokenError>
        ensures { EndsThere result (tokens_left self.now) }
    {
        match self.tokens.get(self.next) {
            None => Ok(()),
            Some(first) => Err(operand_fault(first.column)),
        }
    }

    /// A name.
    pub fn name(&mut self) -> Result<NameUse<'s>, TokenError>
        ensures { Takes use_of result self.old self.new (name self.old.end (tokens_left self.old)) }
    {
        let first = self.token()?;
        match &first.token {
            Token::Name(name) => Ok(NameUse {
                name: *name,
                column: first.column,
            }),
            _ => Err(operand_fault(first.column)),
        }
    }

    /// Reads this mark.
    pub fn mark(&mut self, wanted: u8) -> Result<(), TokenError>
        ensures { Passes result self.old self.new
            (mark self.old.end wanted (tokens_left self.old)) }
    {
        let first = self.token()?;
        match &first.token {
            Token::Mark(found) if wanted == *found => Ok(()),
            _ => Err(operand_fault(first.column)),
        }
    }

    /// A number from `low` to `high`.
    pub fn number(&mut self, low: i128, high: i128) -> Result<i128, TokenError>
        ensures value { Takes (λ n. n) result self.old self.new
            (number self.old.end low high (tokens_left self.old)) }
        ensures low { IfOk result (λ n. low ≤ℤ n) }
        ensures high { IfOk result (λ n. n ≤ℤ high) }
    {
        let first = self.token()?;
        match &first.token {
            Token::Number(found) => {
                let found = *found;
                if low <= found && found <= high {
                    Ok(found)
                } else {
                    Err(TokenError::Fault {
                        kind: AsmKind::Range,
                        column: first.column,
                    })
                }
            }
            _ => Err(operand_fault(first.column)),
        }
    }

    /// The bytes of a text.
    pub fn text(&mut self) -> Result<&'t [u8], TokenError>
        ensures { Takes (λ bytes. bytes.now) result self.old self.new
            (text_operand self.old.end (tokens_left self.old)) }
    {
        let first = self.token()?;
        match &first.token {
            Token::Text(bytes) => Ok(bytes.as_slice()),
            _ => Err(operand_fault(first.column)),
        }
    }

    /// A register.
    pub fn register(&mut self) -> Result<Register, TokenError>
        ensures { Takes number_of result self.old self.new
            (register self.old.end (tokens_left self.old)) }
    {
        let found = self.name()?;
        match register_of(found.name) {
            None => Err(operand_fault(found.column)),
            Some(register) => Ok(register),
        }
    }

    /// A number from 0 to `high`.
    pub fn number_up_to(&mut self, high: u32) -> Result<u32, TokenError>
        ensures value { Takes (λ n. n) result self.old self.new
            (number_up_to self.old.end high (tokens_left self.old)) }
        ensures small { IfOk result (λ n. n ≤ high) }
    {
        let found = self.number(0, i128::from(high))?;
        Ok(found as u32)
    }

    /// A number of 12 bits with a sign.
    pub fn immediate(&mut self) -> Result<i32, TokenError>
        ensures value { Takes (λ n. n) result self.old self.new
            (immediate self.old.end (tokens_left self.old)) }
        ensures small { IfOk result (λ n. IsTrue (is_signed 12 n)) }
    {
        let found = self.number(-2048, 2047)?;
        Ok(found as i32)
    }

    /// A name after a comma.
    pub fn then_name(&mut self) -> Result<NameUse<'s>, TokenError>
        ensures { Takes use_of result self.old self.new
            (then_name self.old.end (tokens_left self.old)) }
    {
        self.mark(b',')?;
        self.name()
    }

    /// A register after a comma.
    pub fn then_register(&mut self) -> Result<Register, TokenError>
        ensures { Takes number_of result self.old self.new
            (then_register self.old.end (tokens_left self.old)) }
    {
        self.mark(b',')?;
        self.register()
    }

    /// A signed number of 12 bits after a comma.
    pub fn then_immediate(&mut self) -> Result<i32, TokenError>
        ensures value { Takes (λ n. n) result self.old self.new
            (then_immediate self.old.end (tokens_left self.old)) }
        ensures small { IfOk result (λ n. IsTrue (is_signed 12 n)) }
    {
        self.mark(b',')?;
        self.immediate()
    }

    /// A number from 0 to `high` after a comma.
    pub fn then_up_to(&mut self, high: u32) -> Result<u32, TokenError>
        ensures value { Takes (λ n. n) result self.old self.new
            (then_up_to self.old.end high (tokens_left self.old)) }
        ensures small { IfOk result (λ n. n ≤ high) }
    {
        self.mark(b',')?;
        self.number_up_to(high)
    }

    /// A register in parentheses.
    pub fn base(&mut self) -> Result<Register, TokenError>
        ensures { Takes number_of result self.old self.new
            (base self.old.end (tokens_left self.old)) }
    {
        self.mark(b'(')?;
        let found = self.register()?;
        self.mark(b')')?;
        Ok(found)
    }

    /// A register in parentheses after a comma.
    pub fn then_base(&mut self) -> Result<Register, TokenError>
        ensures { Takes number_of result self.old self.new
            (then_base self.old.end (tokens_left self.old)) }
    {
        self.mark(b',')?;
        self.base()
    }

    /// The register that an atomic stores or combines, after a comma; `lr` has none.
    pub fn then_second(&mut self, op: AtomicOp) -> Result<Register, TokenError>
        ensures value { Takes number_of result self.old self.new
            (then_second self.old.end op (tokens_left self.old)) }
        ensures second { IfOk result (λ r. IsTrue (is_second op (number_of r))) }
    {
        match op {
            AtomicOp::Lr => Ok(Register::X0),
            _ => self.then_register(),
        }
    }
}
