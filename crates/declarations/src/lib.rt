//! What a program declares: modules that it imports, private domains, functions; and what a name that is called means there.
#![tactic(auto)]

mod built_in;
mod collecting;
mod declarations;
mod name_index;

pub use built_in::BuiltIn;
pub use collecting::collect;
pub use declarations::{Called, Declarations};
pub use name_index::NameIndex;
