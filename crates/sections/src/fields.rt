// The part of a file that starts at the cursor, and the fields taken from its front.
ghost use Rattle.std.specs.Prelude.{ℕ, ◌+◌, ◌≤◌, ◌<◌, ◌≡◌, ◌^◌, length, eqb, IfOk, OnOk, OnErr};
ghost use Rattle.query.specs.Refusals.{number_of};
ghost use Rattle.sections.specs.Fields.{number, field, count_field, byte_below, amount_up_to, from_one_to};
ghost use Rattle.sections.specs.Code.{read_of, read_by};

use query::Refusal;
use std::marker::Model;

// A clause sees the bytes that are left. A field that is refused is not taken, and a section's reader that refuses leaves the part as it was.
#[derive(Drop)]
pub struct Part<'a> {
    rest: &'a [u8],
}

impl<'a> Model for Part<'a> {
    ghost use Rattle.std.specs.Prelude.{ℕ, List};

    ghost Value = { List ℕ };

    ghost view = { λ p. p.rest.now };
}

// The number in some bytes, little-endian.
fn number(bytes: &[u8]) -> u64
    requires { length bytes.now ≤ 4 }
    ensures value { result ≡ number (length bytes.now) bytes.now }
    ensures small { result < 256 ^ length bytes.now }
{
    bytes.iter().rev().fold(0, |v, b| v << 8 | u64::from(*b))
}

impl<'a> Part<'a> {
    // All of the file: the cursor is at its start.
    pub fn new(file: &'a [u8]) -> Self
        ensures { result ≡ file.now }
    {
        Part { rest: file }
    }

    // The same part again, so that what is read of it can be given up.
    pub(crate) fn fork(&self) -> Self
        ensures { result ≡ self.now }
    {
        Part { rest: self.rest }
    }

    // The bytes that are left: how many were used shows in how much shorter they are.
    pub fn rest(&self) -> &[u8]
        ensures { result.now ≡ self.now }
    {
        &self.rest[..]
    }

    // No byte is left.
    pub fn is_empty(&self) -> bool
        ensures { result ≡ eqb (length self.now) 0 }
    {
        self.rest.is_empty()
    }

    // A field of some bytes: whole before it is judged, then from low to high. Its two refusals are whatever the caller makes of them, so that the clause
    // holds by every numbering in which a cut has 1.
    #[tactic(auto, using(crate::proofs::Reading::judged))]
    pub fn field_or<E: Copy>(
        &mut self,
        width: usize,
        cut: E,
        fault: E,
        low: u64,
        high: u64,
    ) -> Result<u64, E>
        requires { width ≤ 4 }
        ensures value { (number : E → ℕ) → number cut ≡ 1 → read_by number result self.new ≡ field width (number fault) low high self.old }
        ensures range { IfOk result (λ v. (low ≤ v) × (v ≤ high)) }
        ensures small { IfOk result (λ v. v < 256 ^ width) }
        ensures taken { OnOk result (length self.old ≡ length self.new + width) }
        ensures unchanged { OnErr result (self.new ≡ self.old) }
    {
        let Some((bytes, rest)) = self.rest.split_at_checked(width) else {
            return Err(cut);
        };
        let v = number(bytes);
        if !(low..=high).contains(&v) {
            return Err(fault);
        }
        self.rest = rest;
        Ok(v)
    }

    // The same with a refusal of the rules.
    #[tactic(auto, using(crate::proofs::Reading::by_number))]
    pub fn field(
        &mut self,
        width: usize,
        fault: Refusal,
        low: u64,
        high: u64,
    ) -> Result<u64, Refusal>
        requires { width ≤ 4 }
        ensures value { read_of result self.new ≡ field width (number_of fault) low high self.old }
        ensures range { IfOk result (λ v. (low ≤ v) × (v ≤ high)) }
        ensures small { IfOk result (λ v. v < 256 ^ width) }
        ensures taken { OnOk result (length self.old ≡ length self.new + width) }
        ensures unchanged { OnErr result (self.new ≡ self.old) }
    {
        self.field_or(width, Refusal::Cut, fault, low, high)
    }

    // A count from low to high.
    pub fn count(&mut self, low: usize, high: usize) -> Result<usize, Refusal>
        ensures value { read_of result self.new ≡ count_field low high self.old }
        ensures range { IfOk result (λ n. (low ≤ n) × (n ≤ high)) }
        ensures unchanged { OnErr result (self.new ≡ self.old) }
    {
        let n = self.field(1, Refusal::WrongCount, low as u64, high as u64)?;
        Ok(n as usize)
    }

    // A byte below a limit.
    pub(crate) fn byte_below(&mut self, limit: usize) -> Result<u8, Refusal>
        requires { 1 ≤ limit }
        ensures value { read_of result self.new ≡ byte_below limit self.old }
        ensures taken { OnOk result (length self.old ≡ length self.new + 1) }
    {
        let v = self.field(1, Refusal::OutOfRange, 0, (limit - 1) as u64)?;
        Ok(v as u8)
    }

    // An amount up to a limit. It and the next are one line each over `field`, since the rules name both.
    pub fn amount_up_to(&mut self, limit: u64) -> Result<u32, Refusal>
        ensures value { read_of result self.new ≡ amount_up_to limit self.old }
        ensures unchanged { OnErr result (self.new ≡ self.old) }
    {
        let v = self.field(4, Refusal::OutOfRange, 0, limit)?;
        Ok(v as u32)
    }

    // A number from 1 to a limit.
    pub fn from_one_to(&mut self, limit: u64) -> Result<u32, Refusal>
        ensures value { read_of result self.new ≡ from_one_to limit self.old }
        ensures unchanged { OnErr result (self.new ≡ self.old) }
    {
        let v = self.field(4, Refusal::OutOfRange, 1, limit)?;
        Ok(v as u32)
    }
}
