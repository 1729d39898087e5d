//! Tests of the crates at the bottom, one file for each. They stand apart for the reasons that
//! si_tests has.
#![tactic(auto)]

#[cfg(test)]
mod descents;
#[cfg(test)]
mod devices;
#[cfg(test)]
mod generalizations;
#[cfg(test)]
mod insertions;
#[cfg(test)]
mod lanes;
#[cfg(test)]
mod leaves;
#[cfg(test)]
mod samples;
#[cfg(test)]
mod shapes;
#[cfg(test)]
mod trails;
