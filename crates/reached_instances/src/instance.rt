ghost use Rattle.std.specs.Prelude.{◌≡◌};
ghost use Rattle.reached_instances.specs.Domains.{is_private};

/// Who may see a value, once the domain variables of its function are bound.
#[derive(Clone, Copy, PartialEq, Eq, Hash)]
pub enum BoundDomain {
    /// Everybody.
    Public,
    /// Only what the private domain of this number protects, counted from 0 in the order in which the program declares them.
    Private(usize),
}

impl BoundDomain {
    /// Whether it is one of those whose values nobody sees alone.
    pub fn is_private(self) -> bool
        ensures { result ≡ is_private self }
    {
        match self {
            BoundDomain::Public => false,
            BoundDomain::Private(_) => true,
        }
    }
}

/// A function of a typed program, by its number, with what each of its domain variables is bound to; a plain function has none.
#[derive(PartialEq, Eq, Hash)]
pub struct Instance {
    pub function: usize,
    pub binding: Vec<BoundDomain>,
}

// Written out, so that an early exit calls this once.
impl Drop for Instance {
    fn drop(self) {
        let Instance {
            function: _,
            binding: _,
        } = self;
    }
}
