//! Tests of the libraries: one file a library, and one that several share. They stand in a crate of
//! their own, over all of them: beside a library its own functions would be proved once more with
//! its tests, and here clauses and patterns are read from texts.
#![tactic(auto)]

#[cfg(test)]
mod equations;
#[cfg(test)]
mod faults;
#[cfg(test)]
mod flats;
#[cfg(test)]
mod items;
#[cfg(test)]
mod loads;
#[cfg(test)]
mod maps;
#[cfg(test)]
mod short;
#[cfg(test)]
mod solutions;
#[cfg(test)]
mod terms;
#[cfg(test)]
mod tokens;
