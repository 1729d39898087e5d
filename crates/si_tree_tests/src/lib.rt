//! Tests of the trees, by the index that keeps them: which nodes there are, and what is found
//! beside a scan. They stand in a crate of their own, for the reasons that si_tests has.
#![tactic(auto)]

#[cfg(test)]
mod acts;
#[cfg(test)]
mod beside;
#[cfg(test)]
mod kept;
#[cfg(test)]
mod legal;
#[cfg(test)]
mod nodes;
#[cfg(test)]
mod rules;
#[cfg(test)]
mod seen;
#[cfg(test)]
mod shown;
