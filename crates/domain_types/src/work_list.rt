// The instances that the checker visits.
ghost use Rattle.std.specs.Prelude.{◌≡◌, ◌<◌, [], IfOk, Some, length, map};
ghost use Rattle.std.specs.List.{slice_get};
ghost use Rattle.domain_types.specs.Instances.{instance_seen};
ghost use Rattle.domain_types.specs.inner.WorkList.{added};

use crate::instance::Instance;
use crate::value_type::Protection;
use std::alloc::{AllocError, Global};
use std::collections::BTreeSet;
use std::marker::Model;

/// Instances in the order in which they are to be visited, each once. Clauses see the list of them.
pub struct WorkList {
    instances: Vec<Instance>,
    seen: BTreeSet<Instance>,
}

// Written out, so that an early exit calls this once, and doesn't take the list apart in its place.
impl Drop for WorkList {
    fn drop(self) {
        match self {
            WorkList {
                instances: _,
                seen: _,
            } => {}
        }
    }
}

impl Model for WorkList {
    ghost use Rattle.std.specs.Prelude.{List, map};
    ghost use Rattle.domain_types.specs.Reached.{Instance as Seen};
    ghost use Rattle.domain_types.specs.Instances.{instance_seen, IsSeen};

    ghost Value = { List Seen };

    ghost view = { λ a. map instance_seen a.instances.items };

    ghost invariant = { λ a. IsSeen ⟦<Instance as Ord>⟧.cmp a.instances.items a.seen };
}

impl WorkList {
    /// No instances.
    pub fn new(alloc: Global) -> WorkList
        ensures { result ≡ [] }
    {
        WorkList {
            instances: Vec::new(alloc),
            seen: BTreeSet::new(alloc),
        }
    }

    /// How many instances are listed.
    pub fn len(&self) -> usize
        ensures { result ≡ length self.now }
    {
        self.instances.len()
    }

    /// The instance at a place of the list, counted from 0.
    pub fn instance(&self, index: usize) -> &Instance
        requires { index < length self.now }
        ensures { slice_get self.now index ≡ Some (instance_seen result.now) }
    {
        &self.instances[index]
    }

    /// These instances and one after them, unless it is listed already.
    pub fn with(
        self,
        alloc: Global,
        function: usize,
        binding: &[Protection],
    ) -> Result<WorkList, AllocError>
        ensures { IfOk result (λ list. list ≡ added self (record { function = function; binding = binding.now })) }
    {
        let instance = Instance {
            function,
            binding: Vec::from_slice(alloc, binding)?,
        };
        let WorkList {
            mut instances,
            mut seen,
        } = self;
        if !seen.contains(&instance) {
            seen.insert(Instance {
                function,
                binding: Vec::from_slice(alloc, binding)?,
            })?;
            instances.push(instance)?;
        }
        Ok(WorkList { instances, seen })
    }

    /// The instances that are listed.
    pub fn into_instances(self) -> Vec<Instance>
        ensures { map instance_seen result.items ≡ self }
    {
        let WorkList { instances, seen: _ } = self;
        instances
    }
}
