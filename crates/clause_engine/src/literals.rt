// Literals in words of 32 bits, and numbers that fit such words.

use scut_base::Lit;

// Twice the variable, and one more for its negation.
#[derive(Clone, Copy, Debug, PartialEq, Eq, PartialOrd, Ord)]
pub(crate) struct Literal {
    code: u32,
}

impl Literal {
    // The literal that is written as this word.
    pub(crate) fn of_code(code: u32) -> Literal {
        Literal { code }
    }

    // A variable, negated or not.
    pub(crate) fn new(var: u32, is_neg: bool) -> Literal {
        Literal {
            code: var.wrapping_mul(2) | u32::from(is_neg),
        }
    }

    // The literal, if its variable is one of so many.
    pub(crate) fn of(lit: &Lit, vars: u32) -> Option<Literal> {
        let var = lit.var();
        if var <= u64::from(vars) {
            Some(Literal::new(var as u32, lit.is_neg()))
        } else {
            None
        }
    }

    pub(crate) fn to_lit(self) -> Lit {
        let var = u64::from(self.code / 2);
        Lit::new(var.max(1), self.is_neg())
    }

    pub(crate) fn code(self) -> u32 {
        self.code
    }

    // Its place in a list of all literals.
    pub(crate) fn index(self) -> usize {
        self.code as usize
    }

    pub(crate) fn var(self) -> u32 {
        self.code / 2
    }

    pub(crate) fn is_neg(self) -> bool {
        self.code % 2 == 1
    }

    pub(crate) fn not(self) -> Literal {
        Literal {
            code: self.code ^ 1,
        }
    }
}

// A number that is known to be below 2^32, as a word.
pub(crate) fn word_of(number: usize) -> u32 {
    (number & 0xffff_ffff) as u32
}
