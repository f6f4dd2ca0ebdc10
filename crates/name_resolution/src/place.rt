// Where a piece of a function stands.
ghost use Rattle.std.specs.Prelude.{◌≡◌, ◌≤◌, length, IfOk};
ghost use Rattle.name_resolution.specs.Scopes.{no_place, declaring, entering, left};
ghost use Rattle.name_resolution.specs.inner.Views.{place_seen};

use crate::values::shape_written;
use crate::variables::{Known, Variables};
use program_trees::{DeclaredType, Identifier};
use std::alloc::{AllocError, Global};

/// The variables that are known at a place of a function, and the types of the slots that were declared before it.
pub struct FunctionScope<'p> {
    pub variables: Variables<'p>,
    pub slots: Vec<&'p DeclaredType>,
}

// Written out, as that of `Variables`.
impl Drop for FunctionScope<'_> {
    fn drop(self) {
        match self {
            FunctionScope {
                variables: _,
                slots: _,
            } => {}
        }
    }
}

impl<'p> FunctionScope<'p> {
    /// Where nothing has been declared.
    pub fn new(alloc: Global) -> FunctionScope<'p>
        ensures { place_seen result ≡ no_place }
    {
        FunctionScope {
            variables: Variables::new(alloc),
            slots: Vec::new(alloc),
        }
    }

    /// Declares a variable in the innermost block; it takes the next slot.
    #[tactic(auto, using(crate::proofs::Growing::map_one))]
    pub fn declare(
        &mut self,
        variable: &'p Identifier,
        declared: &'p DeclaredType,
    ) -> Result<(), AllocError>
        ensures { IfOk result (λ _. place_seen self.new ≡ declaring variable.now declared.now (place_seen self.old)) }
    {
        let known = Known {
            slot: self.slots.len(),
            shape: shape_written(declared),
        };
        self.slots.push(declared)?;
        self.variables.declare(variable.text.as_str(), known)
    }

    /// Begins a block; what `leave` wants to be told.
    pub fn enter(&mut self) -> usize
        ensures outer { result ≡ length (place_seen self.old).scope.outer }
        ensures inner { place_seen self.new ≡ entering (place_seen self.old) }
    {
        self.variables.enter()
    }

    /// Ends the innermost block; `outer` is what `enter` told.
    pub fn leave(&mut self, outer: usize)
        requires { outer ≤ length (place_seen self.old).scope.outer }
        ensures { place_seen self.new ≡ left outer (place_seen self.old) }
    {
        self.variables.leave(outer);
    }
}
