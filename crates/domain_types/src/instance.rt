use crate::value_type::Protection;

/// A function of the program, by its number, with the domains of its domain variables; a plain function has none.
#[derive(PartialEq, Eq, PartialOrd, Ord)]
pub struct Instance {
    pub function: usize,
    pub binding: Vec<Protection>,
}

// Written out, so that an early exit calls this once.
impl Drop for Instance {
    fn drop(self) {
        let Instance {
            function: _,
            binding: _,
        } = self;
    }
}
