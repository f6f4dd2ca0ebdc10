// What is left of a text, read number by number.
ghost use Rattle.std.specs.Prelude.{◌≡◌, ◌==◌, ◌≤◌, ◌<◌, ◌^◌, ◌∷◌, [], List, ℕ, length, drop, IfOk, IsTrue, MatchResult};
ghost use Rattle.bytecode.specs.Decoded.{any, is_operator, is_some_count, is_truth};
ghost use Rattle.bytecode.specs.inner.Tests.{passes};
ghost use Rattle.bytecode.specs.Layouts.{characters, number, read, Field, Makes};
ghost use Rattle.bytecode.specs.inner.Reading.{Reads, optional};
ghost use Rattle.bytecode.specs.declared.fault.FaultKind.TheVariants.{BadTag, Truncated};
ghost use Rattle.bytecode.specs.declared.fault.Stopped.TheVariants.{Refused};

use crate::fault::{FaultKind, Stopped};
use crate::test::Test;
use std::marker::Model;

/// A text that is read. Clauses see the bytes that are left.
#[derive(Drop)]
pub(crate) struct Reader<'a> {
    text: &'a [u8],
    place: usize,
}

impl<'a> Model for Reader<'a> {
    ghost Value = { List ℕ };

    ghost view = { λ r. drop r.place r.text.now };
}

impl<'a> Reader<'a> {
    pub(crate) fn new(text: &'a [u8]) -> Self
        ensures { result ≡ text.now }
    {
        Reader { text, place: 0 }
    }

    /// How many bytes are left.
    pub(crate) fn left(&self) -> usize
        ensures { result ≡ length self.now }
    {
        self.text.len().saturating_sub(self.place)
    }

    fn byte(&mut self) -> Result<u8, Stopped>
        ensures { MatchResult result (λ b. self.old ≡ b ∷ self.new) (λ e. (self.old ≡ []) × (e ≡ Refused Truncated 0)) }
    {
        if self.place < self.text.len() {
            let byte = self.text[self.place];
            self.place += 1;
            Ok(byte)
        } else {
            Err(Stopped::Refused(FaultKind::Truncated, 0))
        }
    }

    fn number(&mut self, bytes: usize) -> Result<u64, Stopped>
        requires { bytes ≤ 8 }
        ensures reads { Reads (λ x. x) (number bytes self.old) result self.new }
        ensures small { IfOk result (λ x. x < 256 ^ bytes) }
    {
        if bytes == 0 {
            return Ok(0);
        }
        let low = self.byte()?;
        let high = self.number(bytes - 1)?;
        Ok(low as u64 + 256 * high)
    }

    fn checked(&mut self, bytes: usize, test: Test) -> Result<u64, Stopped>
        requires { bytes ≤ 8 }
        ensures reads { Reads (λ x. x) (read (Field BadTag bytes (passes test) Makes) self.old) result self.new }
        ensures small { IfOk result (λ x. x < 256 ^ bytes) }
        ensures tested { IfOk result (λ x. IsTrue (passes test x)) }
    {
        let left = self.left();
        let value = self.number(bytes)?;
        if test.passes(value) {
            Ok(value)
        } else {
            Err(Stopped::Refused(FaultKind::BadTag, left))
        }
    }

    /// A number in one byte that passes a test.
    pub(crate) fn tested(&mut self, test: Test) -> Result<u8, Stopped>
        ensures reads { Reads (λ x. x) (read (Field BadTag 1 (passes test) Makes) self.old) result self.new }
        ensures tested { IfOk result (λ x. IsTrue (passes test x)) }
    {
        let value = self.checked(1, test)?;
        Ok(value as u8)
    }

    /// A number in two bytes that isn't 0.
    pub(crate) fn count(&mut self) -> Result<u16, Stopped>
        ensures { Reads (λ x. x) (read (Field BadTag 2 is_some_count Makes) self.old) result self.new }
    {
        let value = self.checked(2, Test::Count)?;
        Ok(value as u16)
    }

    /// A byte that has to be this one.
    pub(crate) fn expect(&mut self, wanted: u8, kind: FaultKind) -> Result<(), Stopped>
        ensures { Reads (λ _. wanted) (read (Field kind 1 (λ b. b == wanted) Makes) self.old) result self.new }
    {
        let left = self.left();
        let byte = self.number(1)?;
        if byte == wanted as u64 {
            Ok(())
        } else {
            Err(Stopped::Refused(kind, left))
        }
    }

    /// The next bytes, so many.
    pub(crate) fn characters(&mut self, count: usize) -> Result<&'a [u8], Stopped>
        requires { 0 < count }
        ensures { Reads (λ bytes. bytes.now) (characters count self.old) result self.new }
    {
        if count <= self.left() {
            let place = self.place;
            self.place += count;
            Ok(&self.text[place..place + count])
        } else {
            Err(Stopped::Refused(FaultKind::Truncated, 0))
        }
    }

    /// A number in two bytes.
    pub(crate) fn short(&mut self) -> Result<u16, Stopped>
        ensures { Reads (λ x. x) (read (Field BadTag 2 any Makes) self.old) result self.new }
    {
        let value = self.checked(2, Test::Any)?;
        Ok(value as u16)
    }

    /// A number in four bytes.
    pub(crate) fn line(&mut self) -> Result<u32, Stopped>
        ensures { Reads (λ x. x) (read (Field BadTag 4 any Makes) self.old) result self.new }
    {
        let value = self.checked(4, Test::Any)?;
        Ok(value as u32)
    }

    /// A number in eight bytes.
    pub(crate) fn word(&mut self) -> Result<u64, Stopped>
        ensures { Reads (λ x. x) (read (Field BadTag 8 any Makes) self.old) result self.new }
    {
        self.checked(8, Test::Any)
    }

    pub(crate) fn operator_if(&mut self, wanted: bool) -> Result<u8, Stopped>
        ensures reads { Reads (λ x. x) (read (optional wanted (Field BadTag 1 is_operator Makes)) self.old) result self.new }
        ensures within { IfOk result (λ x. x < 14) }
    {
        if wanted {
            self.tested(Test::Operator)
        } else {
            Ok(0)
        }
    }

    pub(crate) fn truth_if(&mut self, wanted: bool) -> Result<u8, Stopped>
        ensures reads { Reads (λ x. x) (read (optional wanted (Field BadTag 1 is_truth Makes)) self.old) result self.new }
        ensures within { IfOk result (λ x. x < 2) }
    {
        if wanted {
            self.tested(Test::Truth)
        } else {
            Ok(0)
        }
    }

    pub(crate) fn short_if(&mut self, wanted: bool) -> Result<u16, Stopped>
        ensures { Reads (λ x. x) (read (optional wanted (Field BadTag 2 any Makes)) self.old) result self.new }
    {
        if wanted { self.short() } else { Ok(0) }
    }

    pub(crate) fn line_if(&mut self, wanted: bool) -> Result<u32, Stopped>
        ensures { Reads (λ x. x) (read (optional wanted (Field BadTag 4 any Makes)) self.old) result self.new }
    {
        if wanted { self.line() } else { Ok(0) }
    }

    pub(crate) fn word_if(&mut self, wanted: bool) -> Result<u64, Stopped>
        ensures { Reads (λ x. x) (read (optional wanted (Field BadTag 8 any Makes)) self.old) result self.new }
    {
        if wanted { self.word() } else { Ok(0) }
    }
}
