// What faults say of themselves.
use si_defs::Side;
use si_sign::{AddFault, Clash, Shape};
use std::alloc::{AllocError, Global};
use std::process::Abort;
use std::test::Fail;

/// Faults, and what they say of themselves.
const SAID: [(AddFault, &str); 4] = [
    (AddFault::Taken, "the name is taken"),
    (
        AddFault::Clash(Clash {
            occurrence: 0,
            found: Shape {
                side: Side::Function,
                arity: 0,
            },
            kept: Shape {
                side: Side::Function,
                arity: 1,
            },
        }),
        "a symbol is used as two things",
    ),
    (
        AddFault::Full {
            needed: 3,
            limit: 2,
        },
        "3 entries are more than 2",
    ),
    (AddFault::Memory, "out of memory"),
];

fn assert_text(rt: &impl Abort, seen: &str, due: &str) {
    assert_eq!(rt; seen, due);
}

fn assert_said(
    rt: &impl Abort,
    alloc: Global,
    fault: &AddFault,
    due: &str,
) -> Result<(), AllocError> {
    let seen = fault.to_string(alloc)?;
    assert_text(rt, seen.as_str(), due);
    Ok(())
}

#[test]
fn faults_say_why(rt: HostRuntime) -> Result<(), Fail> {
    for (fault, text) in &SAID {
        assert_said(&rt, rt.alloc(), fault, text)?;
    }
    Ok(())
}
