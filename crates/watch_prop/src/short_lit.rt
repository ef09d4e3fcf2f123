// A literal in half the room: clauses and lists of entries are gone through from end to end.
ghost use Rattle.std.specs.Prelude.{◌≡◌, IfOk};
ghost use Rattle.scut_base.specs.LiteralCode.{code_of, literal_of};
ghost use Rattle.watch_prop.specs.Codes.{IsCode};

use crate::slots::MARK;
use clause_prop::literal_code;
use scut_base::{Lit, NoMemory};
use std::marker::Model;

/// A literal of a variable below 2^30, in 4 bytes. Contracts see the literal.
#[derive(Clone, Copy, Debug)]
pub struct ShortLit {
    // Twice the variable, plus 1 for a negation.
    code: u32,
}

const _: () = prove!(std::mem::size_of::<ShortLit>() == 4);

impl Model for ShortLit {
    ghost use Rattle.watch_prop.specs.Codes.{IsCode};
    ghost use Rattle.scut_base.specs.Literal.{Literal};
    ghost use Rattle.scut_base.specs.LiteralCode.{code_of, literal_of, code_of-literal_of};

    ghost Value = { Literal };

    ghost view = { λ l. literal_of l.code };

    ghost invariant = { λ l. IsCode l.code };

    ghost inverse = { λ l. record { code = code_of l } };

    ghost inverse_ok = { λ l h i. record { code = code_of-literal_of l.code i } };
}

impl ShortLit {
    /// The literal, where its variable is below 2^30; a solver has no memory for more.
    pub fn new(lit: Lit) -> Result<ShortLit, NoMemory>
        ensures { IfOk result (λ short. short ≡ lit) }
    {
        let from_one = lit.var();
        let code = literal_code(lit);
        if code < 2 || code >= MARK as usize || from_one == 0 {
            return Err(NoMemory);
        }
        Ok(ShortLit { code: code as u32 })
    }

    /// The literal of a code.
    pub fn of(code: u32) -> ShortLit
        requires { IsCode code }
        ensures { result ≡ literal_of code }
    {
        ShortLit { code }
    }

    /// Twice the variable, plus 1 for a negation, as it lies among the words of clauses.
    pub fn word(self) -> u32
        ensures value { result ≡ code_of self }
        ensures code { IsCode result }
    {
        self.code
    }

    /// The literal.
    pub fn lit(self) -> Lit
        ensures { result ≡ self }
    {
        Lit::new(u64::from(self.code / 2), self.code % 2 == 1)
    }

    /// Twice the variable, plus 1 for a negation.
    pub fn code(self) -> usize
        ensures { result ≡ code_of self }
    {
        self.code as usize
    }
}

/// The number in half the room; nothing that memory holds has more slots.
pub fn short_number(number: usize) -> Result<u32, NoMemory>
    ensures { IfOk result (λ short. short ≡ number) }
{
    if number > u32::MAX as usize {
        return Err(NoMemory);
    }
    Ok(number as u32)
}
