// Instances of templates.
ghost use Rattle.std.specs.Prelude.{◌≡◌, count_by};
ghost use Rattle.program_trees.specs.TypedPrograms.{typed_program_tree};
ghost use Rattle.reached_instances.specs.Instances.{instance_seen};
ghost use Rattle.reached_instances.specs.Templates.{is_of_template};
ghost use Rattle.reached_instances.specs.Views.{instances_seen};

use crate::instance::Instance;
use program_trees::TypedProgram;

// Whether the function of an instance has a domain variable.
fn is_of_template(program: &TypedProgram, instance: &Instance) -> bool
    ensures { result ≡ is_of_template (typed_program_tree program.now) (instance_seen instance.now) }
{
    match program.functions.get(instance.function) {
        None => false,
        Some(function) => function.variables > 0,
    }
}

/// How many of these instances are of templates, that is of functions with a domain variable.
pub fn template_count(instances: &[Instance], program: &TypedProgram) -> usize
    ensures { result ≡ count_by (is_of_template (typed_program_tree program.now)) (instances_seen instances.now) }
{
    let mut count = 0;
    for instance in instances {
        if is_of_template(program, instance) {
            count += 1;
        }
    }
    count
}
