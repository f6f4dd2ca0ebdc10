ghost use Rattle.std.specs.Prelude.{◌≡◌, map};
ghost use Rattle.declarations.specs.Named.{name_of};

use crate::built_in::BuiltIn as BuiltInFunction;
use crate::name_index::NameIndex;
use program_trees::Function;

/// What a program declares, for look-ups by name.
pub struct Declarations<'p> {
    /// Whether `stdlib` is imported.
    pub stdlib: bool,
    /// Whether `shared3p` is imported.
    pub shared3p: bool,
    /// Whether the kind `shared3p` is declared.
    pub kind_declared: bool,
    /// The names of the private domains.
    pub domains: NameIndex<'p>,
    /// The names of the functions.
    pub names: NameIndex<'p>,
    pub functions: Vec<&'p Function>,
    ghost named: { names ≡ map name_of functions.items },
}

// Written out, so that an early exit calls this once, and doesn't take the declarations apart in its place.
impl Drop for Declarations<'_> {
    fn drop(self) {
        match self {
            Declarations {
                stdlib: _,
                shared3p: _,
                kind_declared: _,
                domains: _,
                names: _,
                functions: _,
            } => {}
        }
    }
}

/// What a called name means.
#[derive(Drop)]
pub enum Called<'p> {
    BuiltIn(BuiltInFunction),
    /// A function of the program, with its number.
    Defined(usize, &'p Function),
}

impl<'p> Declarations<'p> {
    ghost use Rattle.std.specs.Prelude.{option_map};
    ghost use Rattle.declarations.specs.Views.{tree_at, declared, callee_of};
    ghost use Rattle.declarations.specs.Declarations.{built_in_named, function_named, callee};

    /// The same, but that its functions are these, whose names are given.
    pub fn with_functions(
        self,
        names: NameIndex<'p>,
        functions: Vec<&'p Function>,
    ) -> Declarations<'p>
        requires { names ≡ map name_of functions.items }
        ensures { declared result ≡ record (declared self.entry) { functions = map tree_at functions.entry.items } }
    {
        let Declarations {
            stdlib,
            shared3p,
            kind_declared,
            domains,
            names: _,
            functions: _,
        } = self;
        Declarations {
            stdlib,
            shared3p,
            kind_declared,
            domains,
            names,
            functions,
        }
    }

    /// The built-in function of a name, if it is there.
    pub fn built_in(&self, name: &str) -> Option<BuiltInFunction>
        ensures { result ≡ built_in_named (declared self.now) name.now }
    {
        if name == "size" {
            Some(BuiltInFunction::Size)
        } else if name == "cat" {
            Some(BuiltInFunction::Cat)
        } else if name == "sum" && (self.stdlib || self.shared3p) {
            Some(BuiltInFunction::Sum)
        } else if name == "bitExtract" && self.shared3p {
            Some(BuiltInFunction::BitExtract)
        } else if name == "lookup" && self.shared3p {
            Some(BuiltInFunction::Lookup)
        } else {
            None
        }
    }

    /// What a called name means, if it is known.
    pub fn callee(&self, name: &'p str) -> Option<Called<'p>>
        ensures { option_map callee_of result ≡ callee (declared self.now) name.now }
    {
        match self.built_in(name) {
            Some(function) => Some(Called::BuiltIn(function)),
            None => self.function(name),
        }
    }

    // The first function of this name.
    #[tactic(auto, using(crate::proofs::Naming::naming))]
    fn function(&self, name: &'p str) -> Option<Called<'p>>
        ensures { option_map callee_of result ≡ function_named name.now 0 (declared self.now).functions }
    {
        match self.names.number(name) {
            None => None,
            Some(number) => match self.functions.get(number) {
                None => None,
                Some(function) => Some(Called::Defined(number, *function)),
            },
        }
    }
}
