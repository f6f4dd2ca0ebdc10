//! The types of a program: whether it keeps the type rules of the language, the least of its faults where it does not, and
//! else which of its functions are used with which domains.
#![tactic(auto)]

mod built_ins;
mod call_rule;
mod calls;
mod checking;
mod declaring;
mod defined_calls;
mod expressions;
mod fault;
mod functions;
mod heads;
mod instance;
mod items;
mod least_fault;
mod operations;
mod protections;
mod rules;
mod setting;
mod simple_statements;
mod statements;
mod type_err;
mod value_type;
mod values;
mod variables;
mod visiting;
mod work_list;

pub use checking::{check, one_verdict};
pub use fault::{TypeFault, TypeProblem};
pub use instance::Instance;
pub use type_err::TypeErr;
pub use value_type::{ExpressionType, Protection, ValueType};
