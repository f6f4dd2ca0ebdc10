//! The instances of a typed program that its `main` reaches: each function that is called, with what a call binds its domain
//! variables to; and whether the program is small enough to be run: how many instances of templates it reaches, and how large its functions are.
#![tactic(auto)]

mod binding;
mod expressions;
mod instance;
mod laws;
mod limit_err;
mod limits;
mod list;
mod reaching;
mod seeing;
mod setting;
mod sizes;
mod statements;
mod templates;

pub use binding::binding_of;
pub use instance::{BoundDomain, Instance};
pub use laws::one_list;
pub use limit_err::LimitErr;
pub use limits::check_limits;
pub use list::ReachedInstances;
pub use reaching::reached_instances;
pub use seeing::{call_domain, domain, domains};
pub use setting::{
    Setting, domain_under, given_domain, joined_domain, next_is_private, slot_domain,
    slot_is_private, slot_shape,
};
pub use templates::template_count;
