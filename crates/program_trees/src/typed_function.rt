use crate::kinds::Slot;
use crate::typed_statement::TypedStatement;
use sc_text::Name;

/// What a function gives back.
#[derive(Clone, Copy)]
pub enum Returned {
    Nothing,
    Value(Slot),
}

/// A function; a template stands here once, whatever its domain variables are bound to.
pub struct TypedFunction {
    pub name: Name,
    /// How many domain variables it has. A call binds each one to the private domain among the arguments at the parameters whose
    /// slots name it, or to public where these are all public.
    pub variables: usize,
    /// How many parameters it has: they are the first slots.
    pub parameters: usize,
    /// Its parameters, and then each declaration in the order of the text.
    pub slots: Vec<Slot>,
    pub given: Returned,
    pub body: Vec<TypedStatement>,
    /// The nodes of the function's tree, as the height of a program counts them, and its parameters; 4,294,967,295 stands for more.
    pub size: u32,
}

// Written out, so that an early exit calls this once.
impl Drop for TypedFunction {
    fn drop(self) {
        let TypedFunction {
            name: _,
            variables: _,
            parameters: _,
            slots: _,
            given: _,
            body: _,
            size: _,
        } = self;
    }
}

/// The functions that `main` reaches, in the order in which they are first called: `main` is number 0, and the others follow as
/// calls name them where the code is read from its start, function by function, arguments before the call.
pub struct TypedProgram {
    pub functions: Vec<TypedFunction>,
}

// Written out, so that an early exit calls this once.
impl Drop for TypedProgram {
    fn drop(self) {
        let TypedProgram { functions: _ } = self;
    }
}
