// A miner's gates, block by block.
ghost use Rattle.std.specs.Prelude.{◌≡◌, ◌≢◌, ◌+◌, ◌≤◌, ◌<◌, ◌⊎◌, ◌↔◌, ℕ, List, [], length, true, false, IsTrue, is_some, None, IfSome, IfOk, OnOk, OnErr};
ghost use Rattle.proto_core.specs.Strand.{then_do};
ghost use Rattle.gates.specs.Held.{kept_only};
ghost use Rattle.block_steps.specs.Outcomes.{outcome_of};
ghost use Rattle.gate_node.specs.OwnGates.{then_gates};
ghost use Rattle.gate_node.specs.Nodes.{gates_left, left_at, to_come, engine_left, engine_outcome};
ghost use Rattle.gate_node.specs.Nodes.{IsSoundRun, IsSound, StandsAlways, Keeps, KeepsGates, measure};
ghost use Rattle.gate_node.specs.Nodes.{StoresLast, HasStored, LeavesStore, CanStore, after_first, IsAhead, IsDone, HasTheSameLeft, DoesTheSame, filled};
ghost use Rattle.gate_node.specs.Stores.{FirstRunsAlone};

use crate::beginning::begins;
use crate::made::Made;
use crate::running::Running;
use crate::standing::Standing;
use crate::tape::Tape;
use crate::wanted::Wanted;
use block_steps::{Links, Pending, Progress, begin};
use gate_exchanges::{local_share, second_value, suits};
use gates::{BLOCK_LEN, Gate, Values};
use proto_core::Party;
use std::alloc::{AllocError, Global};
use std::collections::BTreeSet;
use std::mem;

/// The gate that a miner is at, if it is at one.
#[derive(Drop)]
pub(crate) enum AtWork<P: Party> {
    /// No gate is at work.
    Idle,
    /// No block of the gate is at work.
    Between(Running),
    /// A block of the gate is at work.
    Within(Running, Pending<P>),
}

/// A word that is stored into an array at an index.
#[derive(Clone, Copy)]
struct Store {
    index: usize,
    word: u64,
}

/// A miner's shares, its tape, its gates, of which so many have begun, what it is at, which values are wanted, and its links.
#[derive(Drop)]
pub(crate) struct Engine<P: Party> {
    pub alloc: Global,
    pub dealt: Values,
    pub values: Values,
    pub tape: Tape,
    pub gates: Vec<Gate>,
    pub begun: usize,
    pub work: AtWork<P>,
    pub wanted: Wanted,
    pub links: Links,
}

impl<P: Party> Engine<P> {
    /// Once all its gates have begun, they are let go; else all is as before.
    fn let_go_gates(&mut self)
        requires within { self.old.begun ≤ length self.old.gates.items }
        ensures left { gates_left P.me self.new ≡ gates_left P.me self.old }
        ensures let_go { length self.old.gates.items ≤ self.old.begun → self.new.gates.items ≡ [] }
        ensures some { self.old.begun < length self.old.gates.items → self.new ≡ self.old }
        ensures same { self.new ≡ record self.old { gates = self.new.gates; begun = self.new.begun } }
        ensures within { self.new.begun ≤ length self.new.gates.items }
    {
        if self.begun >= self.gates.len() {
            self.gates.clear();
            self.begun = 0;
        }
    }

    /// Further gates, after those before, and after a plan.
    pub fn add(&mut self, gates: Vec<Gate>) -> Result<(), AllocError>
        requires within { self.old.begun ≤ length self.old.gates.items }
        ensures left { OnOk result ((more : List ℕ) → engine_left P.me (filled self.new more)
            ≡ then_do (engine_left P.me (filled self.old more)) (then_gates P.me self.old.dealt gates.items)) }
        ensures err { OnErr result (HasTheSameLeft P.me self.old self.new) }
        ensures same { self.new ≡ record self.old { gates = self.new.gates; begun = self.new.begun; wanted = self.new.wanted } }
        ensures within { self.new.begun ≤ length self.new.gates.items }
    {
        let mut gates = gates;
        match &mut self.wanted {
            Wanted::All => {}
            Wanted::These { later, .. } => {
                later.append(&mut gates)?;
                return Ok(());
            }
        }
        self.let_go_gates();
        self.gates.append(&mut gates)?;
        Ok(())
    }

    /// Lets go the shares of all values but those of these numbers, where no gate is at work, none is left, and all values are wanted.
    pub fn keep_only(&mut self, numbers: &BTreeSet<u64>)
        ensures let_go { IsDone self.old → self.new.values ≡ kept_only numbers.now self.old.values }
        ensures same { self.new ≡ record self.old { values = self.new.values } }
        ensures only_then { (self.new.values ≡ self.old.values) ⊎ IsDone self.old }
    {
        if self.is_idle() && self.wanted.is_all() && self.begun >= self.gates.len() {
            self.values.keep_only(numbers);
        }
    }

    /// Where the one gate that is left is a store into the array of this number, and suits: what it stores.
    fn last_store(&self, array: u64) -> Option<Store>
        requires within { self.now.begun ≤ length self.now.gates.items }
        ensures stores { IfSome result (λ s. StoresLast P.me array s.index s.word self.now) }
        ensures exactly { IsTrue (is_some result) ↔ LeavesStore P.me array self.now }
    {
        if !self.is_idle() || !self.wanted.is_all() || self.gates.len() - self.begun != 1 {
            return None;
        }
        let gate = &self.gates[self.begun];
        match gate {
            Gate::Put {
                operand,
                index,
                element,
            } => {
                if *operand != array || !suits(gate, &self.dealt, &self.values) {
                    return None;
                }
                let word = self.values.value(*element)[0];
                Some(Store {
                    index: *index as usize,
                    word,
                })
            }
            _ => None,
        }
    }

    /// The oldest gate that hasn't begun is run, where it sends nothing and suits; else all is as before.
    fn run_alone(&mut self) -> Result<bool, AllocError>
        requires idle { self.old.work ≡ AtWork.Idle }
        requires more { self.old.begun < length self.old.gates.items }
        ensures ahead { OnOk result (IsAhead P.me self.old self.new) }
        ensures idle { self.new.work ≡ AtWork.Idle }
        ensures gates { self.new.gates ≡ self.old.gates }
        ensures within { self.new.begun ≤ length self.new.gates.items }
        ensures falls { IfOk result (λ done. done ≡ true → self.new.begun ≡ self.old.begun + 1) }
        ensures exactly { IfOk result (λ done. IsTrue done ↔ FirstRunsAlone self.old.dealt self.old.values (gates_left P.me self.old)) }
        ensures ran { IfOk result (λ done. done ≡ true → self.new ≡ after_first P.me self.old) }
        ensures same { IfOk result (λ done. done ≡ false → self.new ≡ self.old) }
    {
        let gate = &self.gates[self.begun];
        match begins(
            P::number(),
            &self.dealt,
            &self.values,
            self.tape.left(),
            gate,
        ) {
            Err(_) => Ok(false),
            Ok(exchanged) => match exchanged {
                Some(_) => Ok(false),
                None => {
                    let share = local_share(
                        self.alloc,
                        P::number(),
                        &self.dealt,
                        &self.values,
                        gate,
                    )?;
                    self.values.push(share)?;
                    self.begun += 1;
                    Ok(true)
                }
            },
        }
    }

    /// Where the one gate that is left is a store into the array of this number, and there are `count` values then, it is run in place: the
    /// array is let go, and its words are those of the gate's value but for the one that is stored. Else all is as before.
    fn store_last(&mut self, array: u64, count: u64) -> Result<bool, AllocError>
        requires sound { IsSound P.me self.old }
        ensures stored { IfOk result (λ done. done ≡ true → HasStored P.me array count self.old self.new) }
        ensures same { IfOk result (λ done. done ≡ false → self.new ≡ self.old) }
        ensures exactly { IfOk result (λ done. IsTrue done ↔ (LeavesStore P.me array self.old × (length self.old.values + 1 ≡ count))) }
        ensures sound { IsSound P.me self.new }
    {
        if count == 0 || self.values.len() as u64 != count - 1 {
            return Ok(false);
        }
        let Some(store) = self.last_store(array) else {
            return Ok(false);
        };
        self.values.put_in_place(array, store.index, store.word)?;
        self.begun += 1;
        Ok(true)
    }

    /// The gates that are left are run, where they send nothing and the last one is a store into the array of this number, with which there
    /// are `count` values: it is done in place, and the array is let go. Else only some that send nothing may be run.
    pub fn store_in_place(&mut self, array: u64, count: u64) -> Result<bool, AllocError>
        requires sound { IsSound P.me self.old }
        ensures stored { IfOk result (λ done. done ≡ true → HasStored P.me array count self.old self.new) }
        ensures ahead { IfOk result (λ done. done ≡ false → IsAhead P.me self.old self.new) }
        ensures exactly { IfOk result (λ done. IsTrue done ↔ CanStore P.me array count self.old) }
        ensures sound { IsSound P.me self.new }
    {
        if !self.is_idle() {
            return Ok(false);
        }
        while self.gates.len() - self.begun > 1 {
            if !self.run_alone()? {
                return Ok(false);
            }
        }
        self.store_last(array, count)
    }

    /// Whether no gate is at work. Asked first because moving the gate at work is the expensive part.
    pub fn is_idle(&self) -> bool
        ensures idle { result ≡ true → self.now.work ≡ AtWork.Idle }
        ensures at_work { result ≡ false → self.now.work ≢ AtWork.Idle }
    {
        match &self.work {
            AtWork::Idle => true,
            AtWork::Between(_) | AtWork::Within(..) => false,
        }
    }

    /// The next block of the gate at work begins; after the last, the gate's shares become values.
    fn next_block(&mut self, running: Running) -> Result<(), AllocError>
        requires idle { self.old.work ≡ AtWork.Idle }
        requires gates { self.old.begun ≤ length self.old.gates.items }
        requires sound { IsSoundRun P.me self.old running }
        ensures same { OnOk result ((more : List ℕ) → engine_outcome P.me (filled self.new more)
            ≡ outcome_of P.me self.old.links (left_at P.me (filled self.old more) (AtWork.Between running))) }
        ensures falls { OnOk result (measure self.new self.new.work < measure self.old (AtWork.Between running)) }
        ensures sound { IsSound P.me self.new }
        ensures kept { OnOk result (KeepsGates self.old self.new) }
    {
        let Running { gate, begun, made } = running;
        let exchange = gate.exchange;
        let u = self.values.value(gate.u);
        if begun >= u.len() {
            return made.keep(exchange, &mut self.values);
        }
        let size = (u.len() - begun).min(BLOCK_LEN as usize);
        let u = &u[begun..begun + size];
        let from = exchange.second(begun);
        let v = &second_value(&self.values, gate.v)[from..from + exchange.second(size)];
        let count = exchange.draws(size, P::number()) as usize;
        let words = &self.tape.left()[..count];
        let progress = begin::<P>(exchange, u, v, words, &mut self.links)?;
        self.tape.draw(count);
        let begun = begun + size;
        let running = Running { gate, begun, made };
        match progress {
            Progress::Stands(block, _) | Progress::Goes(block) => {
                put(&mut self.work, AtWork::Within(running, block));
                Ok(())
            }
            Progress::Made { first, second } => {
                put(
                    &mut self.work,
                    AtWork::Between(running.through(&first, &second)?),
                );
                Ok(())
            }
        }
    }

    /// The block at work, as far as the oldest message leads. Where no message is there that fits, the miner stands.
    fn go_on(&mut self, running: Running, block: Pending<P>) -> Result<Option<Standing>, AllocError>
        requires idle { self.old.work ≡ AtWork.Idle }
        requires gates { self.old.begun ≤ length self.old.gates.items }
        requires sound { IsSoundRun P.me self.old running }
        ensures same { OnOk result ((more : List ℕ) → engine_outcome P.me (filled self.new more)
            ≡ outcome_of P.me self.old.links (left_at P.me (filled self.old more) (AtWork.Within running block))) }
        ensures stands { IfOk result (λ at. IfSome at (λ standing. StandsAlways P.me standing self.new)) }
        ensures falls { IfOk result (λ at. at ≡ None → measure self.new self.new.work < measure self.old (AtWork.Within running block)) }
        ensures sound { IsSound P.me self.new }
        ensures kept { OnOk result (KeepsGates self.old self.new) }
    {
        match block.step(&mut self.links)? {
            Progress::Stands(block, cause) => {
                let link = block.awaits();
                put(&mut self.work, AtWork::Within(running, block));
                Ok(Some(Standing::Waits(link, cause)))
            }
            Progress::Goes(block) => {
                put(&mut self.work, AtWork::Within(running, block));
                Ok(None)
            }
            Progress::Made { first, second } => {
                put(
                    &mut self.work,
                    AtWork::Between(running.through(&first, &second)?),
                );
                Ok(None)
            }
        }
    }

    /// The gate at work, as far as the messages lead: to its end, or to a wait. It stands apart, since a function's places are made anew with
    /// each call.
    #[inline(never)]
    fn finish(&mut self) -> Result<Option<Standing>, AllocError>
        requires sound { IsSound P.me self.old }
        ensures same { OnOk result (DoesTheSame P.me self.old self.new) }
        ensures stands { IfOk result (λ at. IfSome at (λ standing. StandsAlways P.me standing self.new)) }
        ensures idle { IfOk result (λ at. at ≡ None → self.new.work ≡ AtWork.Idle) }
        ensures sound { IsSound P.me self.new }
        ensures kept { OnOk result (KeepsGates self.old self.new) }
    {
        loop {
            match mem::replace(&mut self.work, AtWork::Idle) {
                AtWork::Idle => return Ok(None),
                AtWork::Between(running) => self.next_block(running)?,
                AtWork::Within(running, block) => {
                    if let Some(standing) = self.go_on(running, block)? {
                        return Ok(Some(standing));
                    }
                }
            }
        }
    }

    /// The oldest gate begins that hasn't, where it suits and its words were supplied; else the miner stands, and all is as before. A gate that
    /// sends nothing is through at once.
    #[inline(never)]
    fn begin_next(&mut self) -> Result<Option<Standing>, AllocError>
        requires idle { self.old.work ≡ AtWork.Idle }
        requires more { self.old.begun < length self.old.gates.items }
        requires sound { IsSound P.me self.old }
        ensures same { OnOk result (DoesTheSame P.me self.old self.new) }
        ensures stands { IfOk result (λ at. IfSome at (λ standing. StandsAlways P.me standing self.new)) }
        ensures falls { IfOk result (λ at. at ≡ None → to_come P.me self.new < to_come P.me self.old) }
        ensures sound { IsSound P.me self.new }
        ensures kept { OnOk result (Keeps self.old self.new) }
    {
        let gate = &self.gates[self.begun];
        match begins(
            P::number(),
            &self.dealt,
            &self.values,
            self.tape.left(),
            gate,
        ) {
            Err(standing) => return Ok(Some(standing)),
            Ok(exchanged) => match exchanged {
                None => {
                    let share = local_share(
                        self.alloc,
                        P::number(),
                        &self.dealt,
                        &self.values,
                        gate,
                    )?;
                    self.begun += 1;
                    self.values.push(share)?;
                }
                Some(gate) => {
                    self.begun += 1;
                    let made = Made::new(self.alloc, gate.exchange);
                    let running = Running {
                        gate,
                        begun: 0,
                        made,
                    };
                    put(&mut self.work, AtWork::Between(running));
                }
            },
        }
        Ok(None)
    }

    /// The oldest gate begins that hasn't, or a plan ends whose gates are through; else the miner stands: there is no gate, or it can't begin.
    fn begin_gate(&mut self) -> Result<Option<Standing>, AllocError>
        requires idle { self.old.work ≡ AtWork.Idle }
        requires sound { IsSound P.me self.old }
        ensures same { OnOk result (DoesTheSame P.me self.old self.new) }
        ensures stands { IfOk result (λ at. IfSome at (λ standing. StandsAlways P.me standing self.new)) }
        ensures falls { IfOk result (λ at. at ≡ None → to_come P.me self.new < to_come P.me self.old) }
        ensures sound { IsSound P.me self.new }
        ensures kept { OnOk result (Keeps self.old self.new) }
    {
        if self.begun >= self.gates.len() {
            if self.end_plan() {
                return Ok(None);
            }
            return Ok(Some(Standing::Through));
        }
        self.begin_next()
    }

    /// All gates, as far as the messages and the words that were supplied lead. After each gate of a plan, what it has taken is let go where
    /// it is large and not wanted, and no later one takes it.
    pub fn advance(&mut self) -> Result<Standing, AllocError>
        requires sound { IsSound P.me self.old }
        ensures same { OnOk result (DoesTheSame P.me self.old self.new) }
        ensures stands { IfOk result (λ standing. StandsAlways P.me standing self.new) }
        ensures sound { IsSound P.me self.new }
        ensures kept { OnOk result (Keeps self.old self.new) }
    {
        loop {
            if !self.is_idle() {
                if let Some(standing) = self.finish()? {
                    return Ok(standing);
                }
            }
            self.let_go_operands();
            if let Some(standing) = self.begin_gate()? {
                return Ok(standing);
            }
        }
    }
}

/// Puts a value in the place of another, which is dropped: at each place that calls this by one call, and not case by case.
fn put<T: Drop>(place: &mut T, value: T)
    ensures { place.new ≡ value }
{
    *place = value;
}
