// What crosses to other languages as rows of numbers: records read from rows, and answers as the number of a refusal, or 0, and a row. No enum leaves the library.
#![tactic(auto)]

pub mod slices; // slices.rt: one slice
pub mod answers; // answers.rt: points, surfaces and their diagnostics
pub mod fits; // fits.rt: the settings and the answer of a fit, the limits of a cell

ghost use Rattle.std.specs.Prelude.{◌≡◌};
ghost use Rattle.refusals.specs.Numbers.{numbered, number_in};
ghost use Rattle.rows.specs.Told.{told_as};

use refusals::Refusal;

// The number of a refusal, or 0; and a value, which carries zeros where it is a refusal's.
#[derive(Clone, Copy)]
pub struct Answer<T> {
    pub number: u32,
    pub value: T,
}

// A value, or any number in its place, as they are told: `none` is the value beside such a number.
// Inlined, as `numbered` is: `port_total` takes 53 instructions without, and 43 so.
#[inline(always)]
pub fn told_number<T: Copy>(from: Result<T, u32>, none: T) -> Answer<T>
    ensures { result ≡ told_as none from }
{
    match from {
        Ok(value) => Answer { number: 0, value },
        Err(number) => Answer {
            number,
            value: none,
        },
    }
}

// A result with its refusal's number in place of its name.
#[inline(always)]
pub fn numbered<T: Copy>(from: Result<T, Refusal>) -> Result<T, u32>
    ensures { result ≡ numbered from }
{
    match from {
        Ok(value) => Ok(value),
        Err(refusal) => Err(refusal.number()),
    }
}

// A result as it is told: `none` is the value of a refusal.
pub fn told<T: Copy>(from: Result<T, Refusal>, none: T) -> Answer<T>
    ensures { result ≡ told_as none (numbered from) }
{
    told_number(numbered(from), none)
}

// The number of the refusal of a check, or 0.
pub fn number(check: Result<(), Refusal>) -> u32
    ensures { result ≡ number_in check }
{
    told(check, ()).number
}
