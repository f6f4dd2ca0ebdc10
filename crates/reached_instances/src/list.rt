// The list of the reached instances, with the number of each.
ghost use Rattle.std.specs.Prelude.{◌≡◌, [], List, fold, OnOk};
ghost use Rattle.reached_instances.specs.Instances as listed;
ghost use Rattle.reached_instances.specs.Instances.{instance_seen, listing, number_in};
ghost use Rattle.reached_instances.specs.Views.{instances_seen};

use crate::instance::Instance;
use indexmap::IndexSet;
use std::alloc::{AllocError, Global};
use std::marker::Model;

/// The instances that `main` reaches, each once, in the order in which they are first called; `main` is number 0. Clauses see
/// the list.
pub struct ReachedInstances {
    list: IndexSet<Instance>,
}

// Written out, so that an early exit calls this once.
impl Drop for ReachedInstances {
    fn drop(self) {
        let ReachedInstances { list: _ } = self;
    }
}

impl Model for ReachedInstances {
    ghost Value = { List listed.Instance };

    ghost view = { λ r. instances_seen r.list.keys };
}

impl ReachedInstances {
    /// No instances.
    pub(crate) fn new(alloc: Global) -> ReachedInstances
        ensures { result ≡ [] }
    {
        ReachedInstances {
            list: IndexSet::new(alloc),
        }
    }

    /// Lists instances that are called; those that are listed already stay where they are.
    pub(crate) fn list_all(&mut self, found: Vec<Instance>) -> Result<(), AllocError>
        ensures { OnOk result (self.new ≡ fold listing self.old (instances_seen found.items)) }
    {
        for instance in found {
            self.list.insert(instance)?;
        }
        Ok(())
    }

    /// The instances in their order.
    pub fn as_slice(&self) -> &[Instance]
        ensures { instances_seen result.now ≡ self.now }
    {
        self.list.as_slice()
    }

    /// The number of an instance, if it is reached; it is found without a walk over the list.
    #[tactic(auto, using(crate::proofs::Keys::key_numbered))]
    pub fn number(&self, instance: &Instance) -> Option<usize>
        ensures { result ≡ number_in self.now (instance_seen instance.now) }
    {
        self.list.get_index_of(instance)
    }
}
