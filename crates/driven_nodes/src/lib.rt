//! Miners that are driven by code and learn their gates as they go, of which each may depend on values opened before: with all
//! messages of the joint run's gates they send, open and end as miners do that know the gates from the start.
//!
//! There is nothing to run here: definitions in `specs/`, and the laws that follow from them in `proofs/`.
#![tactic(auto)]
