ghost use Rattle.std.specs.Prelude.{◌≡◌, map};
ghost use Rattle.declarations.specs.Named.{name_of};

use declarations::{Called, Declarations, NameIndex};
use program_trees::Function;
use std::alloc::{AllocError, Global};

/// The functions that have been called so far, in the order in which they were first called.
pub struct CalledFunctions<'p> {
    pub names: NameIndex<'p>,
    pub functions: Vec<&'p Function>,
    ghost named: { names ≡ map name_of functions.items },
}

// Written out, so that an early exit calls this once, and doesn't take the list apart in its place.
impl Drop for CalledFunctions<'_> {
    fn drop(self) {
        match self {
            CalledFunctions {
                names: _,
                functions: _,
            } => {}
        }
    }
}

impl<'p> CalledFunctions<'p> {
    ghost use Rattle.std.specs.Prelude.{[], IfOk};
    ghost use Rattle.declarations.specs.Declarations.{callee};
    ghost use Rattle.declarations.specs.Views.{declared};
    ghost use Rattle.name_resolution.specs.Order.{with_callee};
    ghost use Rattle.name_resolution.specs.inner.Views.{found_seen};

    /// No functions.
    pub fn new(alloc: Global) -> CalledFunctions<'p>
        ensures { found_seen result ≡ [] }
    {
        CalledFunctions {
            names: NameIndex::new(alloc),
            functions: Vec::new(alloc),
        }
    }

    /// These functions and the one that a name calls, if it is one of the program and new.
    #[tactic(auto, using(crate::proofs::Calls::named_trees, crate::proofs::Growing::map_one))]
    pub fn with_callee(
        self,
        declarations: &Declarations<'p>,
        name: &'p str,
    ) -> Result<CalledFunctions<'p>, AllocError>
        ensures { IfOk result (λ f. found_seen f ≡ with_callee (found_seen self.entry) name.now (callee (declared declarations.now) name.now)) }
    {
        match declarations.callee(name) {
            Some(Called::Defined(_, function)) => {
                if self.names.number(name).is_some() {
                    return Ok(self);
                }
                let CalledFunctions {
                    names,
                    mut functions,
                } = self;
                let names = names.with(function.function.text.as_str())?;
                functions.push(function)?;
                Ok(CalledFunctions { names, functions })
            }
            Some(Called::BuiltIn(_)) | None => Ok(self),
        }
    }

    /// The declarations of a program with these functions alone, numbered as they were first called.
    pub fn into_declarations(self, declarations: Declarations<'p>) -> Declarations<'p>
        ensures { declared result ≡ record (declared declarations.entry) { functions = found_seen self.entry } }
    {
        let CalledFunctions { names, functions } = self;
        declarations.with_functions(names, functions)
    }
}
