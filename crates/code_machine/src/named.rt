// The numbers of the values that a machine names.
ghost use Rattle.std.specs.Prelude.{◌≡◌, ◌≤◌, ◌+◌, ◌*◌, ◌^◌, ◌||◌, ◌&&◌, not, true, ℕ, length, nat_le, IsTrue, IfOk, OnOk};
ghost use Rattle.std.specs.BTreeSet.{contains};
ghost use Rattle.std.specs.Ordering.{nat_cmp};
ghost use Rattle.bytecode.specs.Raw.{RawCode};
ghost use Rattle.named_values.specs.Named.{AreAmong, MachineNames};
ghost use Rattle.code_machine.specs.Named.{is_of, is_in, is_in_any, count_kept};
ghost use Rattle.code_machine.specs.Views.{machine_seen};

use crate::machine::{Caller, Machine};
use std::alloc::{AllocError, Global};
use std::collections::BTreeSet;
use value_steps::{Secrecy, Value};

// The number of a value comes to these, if it has one.
fn add_number(numbers: &mut BTreeSet<u64>, value: &Value) -> Result<(), AllocError>
    ensures { OnOk result ((k : ℕ) → contains nat_cmp numbers.new k ≡ contains nat_cmp numbers.old k || is_of value.now k) }
{
    match value.secrecy {
        Secrecy::Private(Some(number)) => {
            numbers.insert(number)?;
            Ok(())
        }
        Secrecy::Private(None) | Secrecy::Plain => Ok(()),
    }
}

// And of all values in these registers.
fn add_numbers(numbers: &mut BTreeSet<u64>, registers: &[Value]) -> Result<(), AllocError>
    ensures { OnOk result ((k : ℕ) → contains nat_cmp numbers.new k ≡ contains nat_cmp numbers.old k || is_in registers.now k) }
{
    for value in registers {
        add_number(numbers, value)?;
    }
    Ok(())
}

// And of all values in the registers of these callers.
fn add_callers(numbers: &mut BTreeSet<u64>, callers: &[Caller]) -> Result<(), AllocError>
    ensures { OnOk result ((k : ℕ) → contains nat_cmp numbers.new k ≡ contains nat_cmp numbers.old k || is_in_any callers.now k) }
{
    for caller in callers {
        add_numbers(numbers, &caller.registers)?;
    }
    Ok(())
}

// Whether a value has this number.
fn is_of(value: &Value, number: u64) -> bool
    ensures { result ≡ is_of value.now number }
{
    match value.secrecy {
        Secrecy::Private(Some(own)) => own == number,
        Secrecy::Private(None) | Secrecy::Plain => false,
    }
}

// Whether a value in these registers has it.
fn is_in(registers: &[Value], number: u64) -> bool
    ensures { result ≡ is_in registers.now number }
{
    for value in registers {
        if is_of(value, number) {
            return true;
        }
    }
    false
}

// Whether one in the registers of these callers has it.
fn is_in_any(callers: &[Caller], number: u64) -> bool
    ensures { result ≡ is_in_any callers.now number }
{
    for caller in callers {
        if is_in(&caller.registers, number) {
            return true;
        }
    }
    false
}

// How many registers these callers have.
fn count_kept(callers: &[Caller]) -> u128
    ensures exactly { result ≡ count_kept callers.now }
    ensures small { result ≤ 2 ^ 64 * length callers.now }
{
    let mut count = 0;
    for caller in callers {
        count += caller.registers.len() as u128;
    }
    count
}

impl Machine {
    /// Whether it has no value of this number, in its registers or in those of its callers. Where they are more than `most` they aren't looked
    /// through, and it may have one.
    pub fn is_free_of(&self, number: u64, most: usize) -> bool
        ensures exactly { result ≡ nat_le (length self.now.registers.items + count_kept self.now.callers.items) most
            && (not (is_in self.now.registers.items number) && not (is_in_any self.now.callers.items number)) }
        ensures frees { result ≡ true → (code : RawCode) → MachineNames (machine_seen code self.now) number → ⊥ }
    {
        let count = self.registers.len() as u128 + count_kept(&self.callers);
        count <= most as u128
            && (!is_in(&self.registers, number) && !is_in_any(&self.callers, number))
    }

    /// The numbers of the values in its registers, and in those of its callers: it can name no others.
    pub fn named(&self, alloc: Global) -> Result<BTreeSet<u64>, AllocError>
        ensures exactly { IfOk result (λ numbers. (k : ℕ) →
            contains nat_cmp numbers k ≡ is_in self.now.registers.items k || is_in_any self.now.callers.items k) }
        ensures named { IfOk result (λ numbers. (code : RawCode) →
            AreAmong (MachineNames (machine_seen code self.now)) (λ k. IsTrue (contains nat_cmp numbers k))) }
    {
        let mut numbers = BTreeSet::new(alloc);
        add_numbers(&mut numbers, &self.registers)?;
        add_callers(&mut numbers, &self.callers)?;
        Ok(numbers)
    }
}
