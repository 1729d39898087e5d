//! Measurements of the solver by itself, without index, reader and printing of terms.
//!
//! Each line of the input is a measurement such as `shifted 64 100`: two terms of a shape and of a
//! size, which are solved so many times. The answer reports their cells and the bindings that solve
//! them. Times are taken from outside.
#![tactic(auto)]

mod measurement;
mod random;
mod row;
mod solving;
mod towers;

use measurement::{Kind, Measurement};
use std::alloc::{AllocError, Global};
use std::io;

fn main(rt: HostRuntime) -> io::Result<()> {
    for line in rt.lines(rt.alloc()) {
        let text = answer(rt.alloc(), line?.as_str())?;
        println!(rt; "{text}")?;
    }
    Ok(())
}

/// What is printed for a line.
fn answer(alloc: Global, line: &str) -> Result<String, AllocError> {
    let Some(measurement) = Measurement::read(line) else {
        return format!(in alloc; "no measurement in {line:?}");
    };
    let measured = match measurement.kind {
        Kind::Towers(shape) => towers::measure(alloc, shape, measurement.size, measurement.times)?,
        Kind::Pair => random::measure(alloc, measurement.size, measurement.times)?,
    };
    let left = measured.left;
    let right = measured.right;
    match measured.bindings {
        Some(bindings) => {
            format!(in alloc; "{line}: {left} and {right} cells, {bindings} bindings")
        }
        None => format!(in alloc; "{line}: {left} and {right} cells, no solution"),
    }
}
