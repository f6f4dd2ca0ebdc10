use crate::fault::TypeFault;
use crate::value_type::Protection;

/// A call of a function of the program: its number, and the domains of its domain variables where the call is not refused.
pub struct Call {
    pub function: usize,
    pub binding: Option<Vec<Protection>>,
}

// Written out, so that an early exit calls this once.
impl Drop for Call {
    fn drop(self) {
        let Call {
            function: _,
            binding: _,
        } = self;
    }
}

/// What the checker has found so far: the least fault, and the calls of functions of the program.
#[derive(Drop)]
pub struct Found {
    pub least_fault: Option<TypeFault>,
    pub calls: Vec<Call>,
}
