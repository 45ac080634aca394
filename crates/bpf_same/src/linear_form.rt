//! Linear forms of what the new program holds, modulo 2 ^ 64.
ghost use Rattle.std.specs.Prelude.{◌≡◌, ◌≢◌, ◌<◌, ℕ, Option, Some, IsTrue, IsFalse, IfSome};
ghost use Rattle.bpf_insn.specs.Signed.{sign_extended};
ghost use Rattle.bpf_same.specs.LinearForms.{IsWord, bit, plus, total};

/// The number of terms: the registers by their numbers, then words of eight bytes of the stack, from its top downwards.
pub(crate) const TERMS: u8 = 64;

/// The number of those that are registers.
pub(crate) const REGISTERS: u8 = 11;

/// A constant and what these terms hold, a bit each.
#[derive(Clone, Copy, PartialEq, Eq, Drop)]
pub(crate) struct LinearForm {
    pub(crate) constant: u64,
    pub(crate) terms: u64,
}

/// A constant of an instruction, extended by its sign.
pub(crate) fn extended(value: i32) -> u64
    ensures { result ≡ sign_extended value }
{
    i64::from(value).cast_unsigned()
}

impl LinearForm {
    pub(crate) fn constant(constant: u64) -> LinearForm
        ensures { (f : ℕ → Option ℕ) → total f result ≡ Some constant }
    {
        LinearForm { constant, terms: 0 }
    }

    /// Returns what one term holds.
    pub(crate) fn held(term: u8) -> LinearForm
        requires { term < 64 }
        ensures { (f : ℕ → Option ℕ) → IsWord (f term) → total f result ≡ f term }
    {
        LinearForm {
            constant: 0,
            terms: 1 << term,
        }
    }

    pub(crate) fn has(self, term: u8) -> bool
        requires { term < 64 }
        ensures held { IsTrue result → bit self.terms term ≡ 1 }
        ensures lacking { IsFalse result → bit self.terms term ≡ 0 }
    {
        (self.terms >> term) & 1 == 1
    }

    /// The sum of both, unless one term is in both.
    pub(crate) fn plus(self, other: LinearForm) -> Option<LinearForm>
        ensures { IfSome result (λ s. (f : ℕ → Option ℕ) → total f s ≡ plus (total f self) (total f other)) }
    {
        if self.terms & other.terms != 0 {
            return None;
        }
        Some(LinearForm {
            constant: self.constant.wrapping_add(other.constant),
            terms: self.terms | other.terms,
        })
    }

    /// Returns this form less another one whose terms are among its own.
    pub(crate) fn minus(self, other: LinearForm) -> Option<LinearForm>
        ensures { IfSome result (λ s. (f : ℕ → Option ℕ) → total f self ≡ plus (total f s) (total f other)) }
    {
        let rest = LinearForm {
            constant: self.constant.wrapping_sub(other.constant),
            terms: self.terms & !other.terms,
        };
        let Some(whole) = rest.plus(other) else {
            return None;
        };
        if whole.is(self) { Some(rest) } else { None }
    }

    /// Returns this form with a constant added to it.
    pub(crate) fn moved(self, by: u64) -> LinearForm
        ensures { (f : ℕ → Option ℕ) → total f result ≡ plus (total f self) (Some by) }
    {
        LinearForm {
            constant: self.constant.wrapping_add(by),
            terms: self.terms,
        }
    }

    /// Returns whether the forms are one.
    pub(crate) fn is(self, other: LinearForm) -> bool
        ensures { IsTrue result → self ≡ other }
    {
        self.constant == other.constant && self.terms == other.terms
    }

    /// Returns whether the forms never come to one number.
    pub(crate) fn is_apart(self, other: LinearForm) -> bool
        ensures { IsTrue result → (f : ℕ → Option ℕ) (a b : ℕ) → total f self ≡ Some a → total f other ≡ Some b → a ≢ b }
    {
        self.constant != other.constant && self.terms == other.terms
    }
}
