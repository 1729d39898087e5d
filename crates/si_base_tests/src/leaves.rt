// A leaf of many postings, which come with falling keys, and go in a mixed order. What is left is
// compared with a plain list each time.
ghost use Rattle.std.specs.Prelude.{IfOk};
ghost use Rattle.si_tree.specs.NewTrees.{IsRootAlone};
ghost use Rattle.si_tree.specs.Reading.{IsNode};

use crate::generalizations::C;
use crate::insertions::put;
use si_tree::{NodeId, Posting, Tree};
use std::alloc::{AllocError, Global};
use std::process::Abort;
use std::test::Fail;

const COUNT: usize = 40;

// Puts in so many postings with falling keys, the last one with key 0, and notes them in order.
fn fill(alloc: Global, tree: &mut Tree, noted: &mut Vec<Posting>) -> Result<NodeId, AllocError>
    requires { IsRootAlone tree.old }
    ensures { IfOk result (IsNode tree.new) }
{
    for number in 1..COUNT {
        let posting = Posting {
            clause: COUNT - number,
            entry: 0,
        };
        noted.push(posting)?;
        put(alloc, tree, &[C], posting)?;
    }
    let last = Posting {
        clause: 0,
        entry: 0,
    };
    noted.push(last)?;
    let leaf = put(alloc, tree, &[C], last)?;
    Ok(leaf)
}

fn assert_same(rt: &impl Abort, tree: &Tree, leaf: NodeId, noted: &[Posting])
    requires { IsNode tree.now leaf }
{
    let postings = tree.postings(leaf);
    assert_eq!(rt; postings.len(), noted.len());
    for place in 0..noted.len() {
        assert_eq!(rt; postings.at(place), noted[place]);
    }
}

// Takes out the posting with this number.
fn drop_at(rt: &impl Abort, tree: &mut Tree, leaf: NodeId, place: usize)
    requires { IsNode tree.old leaf }
    ensures { IsNode tree.new leaf }
{
    let postings = tree.postings(leaf);
    assert!(rt; place < postings.len());
    let posting = postings.at(place);
    tree.drop_posting(leaf, posting);
}

// Takes out all of them in a mixed order.
fn assert_goes(rt: &impl Abort, tree: &mut Tree, leaf: NodeId, noted: &mut Vec<Posting>)
    requires { IsNode tree.old leaf }
{
    while noted.len() > 0 {
        let place = 997 % noted.len();
        noted.remove(place);
        drop_at(rt, tree, leaf, place);
        assert_same(rt, tree, leaf, noted.as_slice());
    }
}

fn fill_and_empty(rt: &impl Abort, alloc: Global, tree: &mut Tree) -> Result<(), AllocError>
    requires { IsRootAlone tree.old }
{
    let mut noted = Vec::new(alloc);
    let leaf = fill(alloc, tree, &mut noted)?;
    assert_same(rt, tree, leaf, noted.as_slice());
    assert_goes(rt, tree, leaf, &mut noted);
    Ok(())
}

#[test]
fn postings_stay_in_order(rt: HostRuntime) -> Result<(), Fail> {
    let mut tree = Tree::new(rt.alloc())?;
    fill_and_empty(&rt, rt.alloc(), &mut tree)?;
    Ok(())
}
