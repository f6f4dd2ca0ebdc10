// The names of code, each once, in the order of first use.
ghost use Rattle.std.specs.Prelude.{◌≡◌, IfOk, OnOk, map};
ghost use Rattle.std.specs.List.{flat_map};
ghost use Rattle.code_model.specs.Instructions.{names_of, naming, naming_all, place_among, step_names};
ghost use Rattle.lowered_expressions.specs.Views.{step_seen};
ghost use Rattle.lowering.specs.inner.Naming.{AreSame, texts};
ghost use Rattle.lowering.specs.inner.Views.{function_seen};

use crate::functions::FunctionSteps;
use crate::lists::push;
use indexmap::IndexSet;
use lowered_expressions::Step;
use sc_text::Name;
use std::alloc::{AllocError, Global};

/// Names with their places.
#[derive(Drop)]
pub struct Names<'p> {
    pub places: IndexSet<&'p str>,
    pub list: Vec<Name>,
}

// One more name, unless it is there.
fn note<'p>(alloc: Global, names: &mut Names<'p>, text: &'p Name) -> Result<(), AllocError>
    ensures { OnOk result (AreSame names.old → (texts names.new ≡ naming (texts names.old) text.now) × AreSame names.new) }
{
    match names.places.insert(text.as_str()) {
        Err(_) => Err(AllocError),
        Ok(new) => {
            if new {
                push(&mut names.list, text.copy(alloc)?)?;
            }
            Ok(())
        }
    }
}

// The names of a step.
fn note_step<'p>(alloc: Global, names: &mut Names<'p>, step: &Step<'p>) -> Result<(), AllocError>
    ensures { OnOk result (AreSame names.old →
        (texts names.new ≡ naming_all (texts names.old) (step_names (step_seen step.now))) × AreSame names.new) }
{
    match step {
        Step::Argument { text, .. } | Step::Publish { text, .. } => note(alloc, names, text),
        _ => Ok(()),
    }
}

// The names of steps.
fn note_steps<'p>(
    alloc: Global,
    names: &mut Names<'p>,
    steps: &[Step<'p>],
) -> Result<(), AllocError>
    ensures { OnOk result (AreSame names.old →
        (texts names.new ≡ naming_all (texts names.old) (flat_map step_names (map step_seen steps.now))) × AreSame names.new) }
{
    for step in steps {
        note_step(alloc, names, step)?;
    }
    Ok(())
}

/// The names of functions. An error comes where memory runs short.
pub fn names_of<'p>(alloc: Global, functions: &[FunctionSteps<'p>]) -> Result<Names<'p>, AllocError>
    ensures { IfOk result (λ names. (texts names ≡ names_of (map function_seen functions.now)) × AreSame names) }
{
    let mut names = Names {
        places: IndexSet::new(alloc),
        list: Vec::new(alloc),
    };
    for function in functions {
        note_steps(alloc, &mut names, &function.steps)?;
    }
    Ok(names)
}

/// The place of a name; how many there are where it is none of them.
pub fn place_among(names: &Names<'_>, text: &Name) -> usize
    ensures { result ≡ place_among text.now (texts names.now) }
{
    match names.places.get_index_of(text.as_str()) {
        Some(place) => place,
        None => names.places.len(),
    }
}
