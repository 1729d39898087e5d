//! Worked examples of the definitions: what holds by them, and what does not. Each is a clause of a
//! function with no code, so that a check proves it. The statements stand in `specs/`, one file a
//! subject.
#![tactic(auto)]

mod answers;
mod bounds;
mod entries;
mod grammar;
mod harvests;
mod lines;
mod loads;
mod printing;
mod relations;
mod runs;
mod samples;
mod solutions;
mod spellings;
mod steps;
mod subsumption;
mod texts;
mod tokens;
mod unifiers;

pub use answers::answers_to_patterns;
pub use bounds::largest_inputs;
pub use entries::entries_of_clauses;
pub use grammar::{items, nestings, parts_of_clauses, symbols_and_names};
pub use harvests::{clauses_of_files, faulty_files, unopened_files};
pub use lines::{commands, words};
pub use loads::replies_to_loads;
pub use printing::printed_texts;
pub use relations::{instances, unifiable_terms};
pub use runs::whole_runs;
pub use samples::drawn_clauses;
pub use solutions::{canonical_lists, triangular_lists};
pub use spellings::spellings_of_tokens;
pub use steps::{added_clauses, long_lines, refusals, shown_trees, silent_lines, wrong_lines};
pub use subsumption::subsumed_clauses;
pub use texts::{items_of_texts, nested_texts, places_in_texts};
pub use tokens::{blanks, tokens_of_texts};
pub use unifiers::{canonical_lists_of_variables, canonical_unifiers};
