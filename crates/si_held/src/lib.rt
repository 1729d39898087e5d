//! What two substitution trees hold of clauses, the one of their literals and the other of their
//! subterms, and how that changes with a clause. `specs/` says it; the laws stand in `proofs/`.
#![tactic(auto)]
