// What a count is kept in: 32 bits with a sign, or 31 bits without one.
ghost use Rattle.std.specs.Prelude.{◌≡◌, ◌≤◌, ◌<◌, ◌^◌, unsigned_abs, ℤ, Bool, true, false, pos, Result};
ghost use Rattle.numbers.specs.declared.NumberFault.{NumberFault};
ghost use Rattle.numbers.specs.Reading.{InRange, as_signed};
ghost use Rattle.numbers.specs.Figures.{FigureLaws, signed_laws, unsigned_laws};
ghost use Rattle.numbers.specs.Scans.{Fitted};

use crate::NumberFault;

pub trait Figure: Sized {
    // Whether it may be below nought.
    ghost signed: { Bool };

    // The units that it is.
    ghost value: { Self → ℤ };

    // An answer as one in units.
    ghost answer: { Result Self NumberFault → Result ℤ NumberFault };

    // Whether it is read back once it is printed.
    ghost Readable: { Self → Type 0 };

    // The figure of `n` units.
    fn fit(n: i64) -> Result<Self, NumberFault>
        ensures { Fitted signed n (answer result) };

    // How many units it is.
    fn units(self) -> i64
        ensures number { result ≡ value self }
        ensures few { unsigned_abs (value self) < 2 ^ 32 }
        ensures again { Readable self → InRange signed (value self) };

    // An answer is that of one figure or of one refusal.
    ghost laws: { FigureLaws value answer };
}

impl Figure for i32 {
    ghost signed = { true };

    ghost value = { λ z. z };

    ghost answer = { λ r. r };

    ghost Readable = { λ _. Unit {0} };

    ghost laws = { signed_laws };

    fn fit(n: i64) -> Result<i32, NumberFault> {
        i32::try_from(n).map_err(|_| NumberFault::Range)
    }

    fn units(self) -> i64 {
        i64::from(self)
    }
}

impl Figure for u32 {
    ghost signed = { false };

    ghost value = { λ n. pos n };

    ghost answer = { as_signed };

    ghost Readable = { λ n. n ≤ 2147483647 };

    ghost laws = { unsigned_laws };

    fn fit(n: i64) -> Result<u32, NumberFault> {
        u32::try_from(i32::fit(n)?).map_err(|_| NumberFault::Range)
    }

    fn units(self) -> i64 {
        self.into()
    }
}
