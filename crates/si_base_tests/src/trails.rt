ghost use Rattle.std.specs.Prelude.{◌≡◌, []};

use si_trail::Trail;
use std::process::Abort;
use std::test::Fail;

// The values of the first four slots.
fn values(trail: &Trail<char>) -> [Option<char>; 4] {
    [
        trail.get(0).copied(),
        trail.get(1).copied(),
        trail.get(2).copied(),
        trail.get(3).copied(),
    ]
}

// Slot 2 is bound first and slot 0 second, and the second is undone.
fn assert_undone(rt: &impl Abort, trail: &mut Trail<char>)
    requires slots { trail.old.slots ≡ 3 }
    requires empty { trail.old.pairs ≡ [] }
{
    trail.bind(2, 'A');
    assert_eq!(rt; trail.mark(), 1);
    trail.bind(0, 'B');
    assert_eq!(rt; values(trail), [Some('B'), None, Some('A'), None]);
    trail.undo(1);
    assert_eq!(rt; values(trail), [None, None, Some('A'), None]);
    assert_eq!(rt; (trail.mark(), trail.slots()), (1, 3));
}

#[test]
fn undone_to_a_mark(rt: HostRuntime) -> Result<(), Fail> {
    let mut trail = Trail::with_slots(rt.alloc(), 3)?;
    assert_undone(&rt, &mut trail);
    Ok(())
}
