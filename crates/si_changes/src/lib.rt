//! How substitution trees change, node by node, and that they stay legal. `specs/` says what
//! becomes of the nodes; the laws stand in `proofs/`.
#![tactic(auto)]
