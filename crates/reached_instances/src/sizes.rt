// How large the instances of a program are.
ghost use Rattle.std.specs.Prelude.{◌≡◌, min, nat_lt, sum};
ghost use Rattle.std.specs.List.{find};
ghost use Rattle.program_trees.specs.TypedPrograms.{typed_program_tree};
ghost use Rattle.reached_instances.specs.Instances.{instance_seen};
ghost use Rattle.reached_instances.specs.Views.{instances_seen};
ghost use Rattle.reached_instances.specs.Limits.{size_of, sizes};

use crate::instance::Instance;
use program_trees::TypedProgram;

// The most that one function may have.
const LARGEST_FUNCTION: u64 = 4_095;

// How many nodes and parameters the function of an instance has.
fn size_of(program: &TypedProgram, instance: &Instance) -> u64
    ensures { result ≡ size_of (typed_program_tree program.now) (instance_seen instance.now) }
{
    match program.functions.get(instance.function) {
        None => 0,
        Some(function) => u64::from(function.size),
    }
}

/// The sizes of these instances together, each by itself; 18,446,744,073,709,551,615 stands for more.
pub fn total_size(program: &TypedProgram, instances: &[Instance]) -> u64
    ensures { result ≡ min (sum (sizes (typed_program_tree program.now) (instances_seen instances.now))) 18446744073709551615 }
{
    let mut total: u64 = 0;
    for instance in instances {
        total = total.saturating_add(size_of(program, instance));
    }
    total
}

/// The size of the first of these instances that is too large for a function.
pub fn first_too_large(program: &TypedProgram, instances: &[Instance]) -> Option<u64>
    ensures { result ≡ find (nat_lt 4095) (sizes (typed_program_tree program.now) (instances_seen instances.now)) }
{
    for instance in instances {
        let size = size_of(program, instance);
        if size > LARGEST_FUNCTION {
            return Some(size);
        }
    }
    None
}
