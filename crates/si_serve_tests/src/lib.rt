//! Tests of whole runs, over sources, sinks and libraries in memory. They stand in a crate of their
//! own: beside si_serve its functions would be proved once more with them.
#![tactic(auto)]

#[cfg(test)]
mod faults;
#[cfg(test)]
mod large;
#[cfg(test)]
mod lists;
#[cfg(test)]
mod loads;
#[cfg(test)]
mod relations;
#[cfg(test)]
mod runs;
#[cfg(test)]
mod samples;
#[cfg(test)]
mod subsumption;
#[cfg(test)]
mod words;
