//! From the tree of a program to its typed tree: its functions in the order in which they are first called, with names resolved
//! to numbers, the data type and the dimension settled in each operator.
#![tactic(auto)]

mod choosing;
mod found;
mod functions;
mod order;
mod place;
mod program;
mod resolve_err;
mod simple_statements;
mod sizes;
mod statements;
mod values;
mod variables;

pub use program::resolve;
pub use resolve_err::ResolveErr;
