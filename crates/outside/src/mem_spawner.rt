// Other programs, in memory.
ghost use Rattle.std.specs.Prelude.{◌≡◌, ◌<◌, ◌-◌, ◌^◌, ℕ, [], min, length, map, Contains, IfOk, string_bytes};
ghost use Rattle.std.specs.List.{list_any};
ghost use Rattle.outside.specs.SpawnCall.{call_of, calls_of, starts_child, status_in};
ghost use Rattle.outside.specs.Spawner.{given_in};

use crate::fault_plan::FaultPlan;
use crate::{Files, SpawnCall, SpawnErr, Spawner};
use std::alloc::{AllocError, Global};

/// A spawner in memory: the statuses that its children will have are set up before, and its calls are kept.
#[derive(Drop)]
pub struct MemSpawner {
    statuses: Vec<i32>,
    calls: Vec<SpawnCall>,
    next: u32,
    plan: FaultPlan,
    ghost counted: { next ≡ min (length (given_in (calls_of calls.items))) (2 ^ 32 - 1) },
    ghost below: { (n : ℕ) → Contains (given_in (calls_of calls.items)) n → n < length (given_in (calls_of calls.items)) },
}

// Whether one of these calls started this child.
fn is_known(calls: &[SpawnCall], child: u32) -> bool
    ensures { result ≡ list_any (λ call. starts_child (call_of call) child) calls.now }
{
    calls.iter().any(|call| call.starts(child))
}

// The status of the child with this number; 0 for one that has none of its own.
fn status_of(statuses: &[i32], child: u32) -> i32
    ensures { result ≡ status_in statuses.now child }
{
    statuses.get(child as usize).copied().unwrap_or(0)
}

fn copy_words(alloc: Global, words: &[String]) -> Result<Vec<String>, AllocError>
    ensures { IfOk result (λ copies. map string_bytes copies.items ≡ map string_bytes words.now) }
{
    let mut copies = Vec::new(alloc);
    for word in words {
        copies.push(String::from_str(alloc, word.as_str())?)?;
    }
    Ok(copies)
}

impl MemSpawner {
    ghost use Rattle.outside.specs.MemSpawner.{calls_in, status_by_child, plan_in};
    ghost use Rattle.outside.specs.Plan.{fresh_plan};

    /// No child was started. The children that will be have these statuses, in order, and then 0. The calls with
    /// the numbers in `fails` fail, counted from 0.
    pub fn new(alloc: Global, statuses: Vec<i32>, fails: Vec<u64>) -> Self
        ensures no_calls { calls_in result ≡ [] }
        ensures status { status_by_child result ≡ status_in statuses.items }
        ensures plan { plan_in result ≡ fresh_plan fails }
    {
        MemSpawner {
            statuses,
            calls: Vec::new(alloc),
            next: 0,
            plan: FaultPlan::new(fails),
        }
    }

    /// How many calls were made, failed ones too.
    pub fn calls_made(&self) -> u64
        ensures { result ≡ (plan_in self.now).calls }
    {
        self.plan.calls()
    }

    /// The calls that were answered, in order: it is no call of the spawner.
    pub fn calls(&self) -> &[SpawnCall]
        ensures { calls_of result.now ≡ calls_in self.now }
    {
        &self.calls
    }
}

impl Spawner for MemSpawner {
    ghost use Rattle.outside.specs.MemSpawner.{spawner_state};

    ghost state = { spawner_state };

    #[tactic(auto, using(crate::proofs::Given::held_of_append))]
    fn start<F: Files>(
        &mut self,
        alloc: Global,
        files: &F,
        words: &[String],
    ) -> Result<u32, SpawnErr> {
        if self.plan.next_fails() {
            return Err(SpawnErr::Failed);
        }
        let child = self.next;
        let words = copy_words(alloc, words)?;
        let held = files.held(alloc)?;
        self.calls.push(SpawnCall::Started { words, child, held })?;
        self.next = child.saturating_add(1);
        Ok(child)
    }

    fn wait(&mut self, child: u32) -> Result<i32, SpawnErr> {
        if self.plan.next_fails() {
            return Err(SpawnErr::Failed);
        }
        if !is_known(&self.calls, child) {
            self.plan.raise();
            return Err(SpawnErr::Failed);
        }
        self.calls.push(SpawnCall::Awaited(child))?;
        Ok(status_of(&self.statuses, child))
    }
}
