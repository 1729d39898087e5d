// The canonical list of each pair of a pattern and a clause.
use crate::runs::written;
use si_serve::Status;
use si_session::Limits;
use std::alloc::{AllocError, Global};
use std::process::Abort;
use std::test::Fail;

/// A question, the atom of the only clause, and the list that is answered, or nothing where the
/// relation fails. The lists are those of `bench/model.py`, which follows the definitions, writes
/// all terms out, and knows nothing of this program.
type Row<'a> = (&'a [u8], &'a [u8], &'a [u8]);

/// Ground terms, and variables that lead to others.
const CHAINS: [Row; 18] = [
    // Ground against ground.
    (b"unifiable lit p(a)", b"p(a)", b"{}"),
    (b"unifiable lit p(a)", b"p(b)", b""),
    (b"unifiable lit p(f(a,g(b)))", b"p(f(a,g(b)))", b"{}"),
    (b"unifiable lit p(f(a,g(b)))", b"p(f(a,g(a)))", b""),
    // A variable of one side.
    (b"unifiable lit p(X)", b"p(a)", b"{?X -> a}"),
    (b"unifiable lit p(a)", b"p(X)", b"{X -> a}"),
    (b"unifiable lit p(X,X)", b"p(a,a)", b"{?X -> a}"),
    (b"unifiable lit p(X,X)", b"p(a,b)", b""),
    (b"unifiable lit p(a,b)", b"p(X,X)", b""),
    (
        b"unifiable lit p(X,g(X))",
        b"p(f(a,b),g(f(a,b)))",
        b"{?X -> f(a,b)}",
    ),
    // Chains of variables: on both sides, and across.
    (b"unifiable lit p(X)", b"p(X)", b"{X -> ?X}"),
    (b"unifiable lit p(X,Y)", b"p(Z,Z)", b"{?Y -> ?X; Z -> ?X}"),
    (b"unifiable lit p(X,X)", b"p(Y,Z)", b"{Y -> ?X; Z -> ?X}"),
    (
        b"unifiable lit p(X,Y,Z)",
        b"p(U,U,V)",
        b"{?Y -> ?X; U -> ?X; V -> ?Z}",
    ),
    (
        b"unifiable lit p(X,X,Y,Y)",
        b"p(U,V,V,W)",
        b"{?Y -> ?X; U -> ?X; V -> ?X; W -> ?X}",
    ),
    (
        b"unifiable lit p(X,Y,Z,T)",
        b"p(U,U,V,V)",
        b"{?Y -> ?X; ?T -> ?Z; U -> ?X; V -> ?Z}",
    ),
    (
        b"unifiable lit p(X,Y,Y,T)",
        b"p(U,U,V,V)",
        b"{?Y -> ?X; ?T -> ?X; U -> ?X; V -> ?X}",
    ),
    (
        b"unifiable lit p(X,Y,X,Y)",
        b"p(U,V,V,a)",
        b"{?Y -> ?X; U -> ?X; V -> ?X; ?X -> a}",
    ),
];

/// Circles of one to four steps.
const CIRCLES: [Row; 11] = [
    (b"unifiable lit p(X)", b"p(g(X))", b"{?X -> g(X)}"),
    (b"unifiable lit p(X,X)", b"p(Y,g(Y))", b""),
    (b"unifiable lit p(X,X)", b"p(a,g(a))", b""),
    (
        b"unifiable lit p(X,Y)",
        b"p(Z,g(Z))",
        b"{?Y -> g(?X); Z -> ?X}",
    ),
    (
        b"unifiable lit p(X,g(Y))",
        b"p(g(Y),Y)",
        b"{?X -> g(Y); Y -> g(?Y)}",
    ),
    (
        b"unifiable lit p(X,Y,X)",
        b"p(g(Z),Z,Y)",
        b"{Z -> ?Y; Y -> ?X; ?X -> g(?Y)}",
    ),
    (
        b"unifiable lit p(X,Y)",
        b"p(g(Z),g(W))",
        b"{?X -> g(Z); ?Y -> g(W)}",
    ),
    (b"unifiable lit p(X,Y,X,Y)", b"p(g(Z),g(W),W,Z)", b""),
    (
        b"unifiable lit p(X,Y,T,X,Y,T)",
        b"p(g(Z),g(W),g(V),W,V,Z)",
        b"",
    ),
    (
        b"unifiable lit p(X,Y,T,U,X,Y,T,U)",
        b"p(g(Z),g(W),g(V),g(R),W,V,R,Z)",
        b"",
    ),
    (
        b"unifiable lit p(X,Y,T,U,X,Y,T,U)",
        b"p(g(Z),g(W),g(V),g(R),W,V,R,S)",
        b"{W -> ?X; V -> ?Y; R -> ?T; S -> ?U; ?U -> g(?T); ?T -> g(?Y); ?Y -> g(?X); ?X -> g(Z)}",
    ),
];

/// Constants and parts that are written as a variable.
const PARTS: [Row; 14] = [
    // Constants that are written as a variable.
    (
        b"unifiable lit p(X,f(X))",
        b"p(a,Y)",
        b"{Y -> f(?X); ?X -> a}",
    ),
    (
        b"unifiable lit p(X,Y)",
        b"p(a,f(a,a))",
        b"{?Y -> f(?X,?X); ?X -> a}",
    ),
    (
        b"unifiable lit p(X,f(a))",
        b"p(a,Y)",
        b"{Y -> f(?X); ?X -> a}",
    ),
    (b"unifiable lit p(X,Y)", b"p(a,a)", b"{?Y -> ?X; ?X -> a}"),
    (
        b"unifiable lit p(X,Y)",
        b"p(a,g(a))",
        b"{?Y -> g(?X); ?X -> a}",
    ),
    // Parts that are written as a variable, at several depths.
    (
        b"unifiable lit p(X,Y)",
        b"p(g(Z),f(g(Z),Z))",
        b"{?Y -> f(?X,Z); ?X -> g(Z)}",
    ),
    (
        b"unifiable lit p(X,Y)",
        b"p(g(a),h(g(g(a))))",
        b"{?Y -> h(g(?X)); ?X -> g(a)}",
    ),
    (
        b"unifiable lit p(X,Y,Z)",
        b"p(g(a),h(g(a)),k(h(g(a)),a))",
        b"{?Z -> k(?Y,a); ?Y -> h(?X); ?X -> g(a)}",
    ),
    (
        b"unifiable lit p(f(X,b),h(f(a,Y)))",
        b"p(U,h(U))",
        b"{U -> f(?X,?Y); ?X -> a; ?Y -> b}",
    ),
    (
        b"unifiable lit p(X,k(g(b)))",
        b"p(b,U)",
        b"{U -> k(g(?X)); ?X -> b}",
    ),
    (
        b"unifiable lit p(X,Y)",
        b"p(f(Z,W),g(f(W,Z)))",
        b"{?X -> f(Z,W); ?Y -> g(f(W,Z))}",
    ),
    (
        b"unifiable lit p(X,Y,X)",
        b"p(f(Z,W),g(f(W,Z)),f(W,Z))",
        b"{?Y -> g(?X); ?X -> f(Z,Z); W -> Z}",
    ),
    (
        b"unifiable lit p(X,X)",
        b"p(g(Z),W)",
        b"{W -> ?X; ?X -> g(Z)}",
    ),
    (
        b"unifiable lit p(X,Y)",
        b"p(a,g(Z))",
        b"{?X -> a; ?Y -> g(Z)}",
    ),
];

/// Equal images, and the order of what is bound.
const IMAGES: [Row; 16] = [
    // Equal images that are no variables.
    (
        b"unifiable lit p(X,Y)",
        b"p(g(a),g(a))",
        b"{?Y -> ?X; ?X -> g(a)}",
    ),
    (
        b"unifiable lit p(X,Y)",
        b"p(g(Z),g(Z))",
        b"{?Y -> ?X; ?X -> g(Z)}",
    ),
    (
        b"unifiable lit p(X,g(b))",
        b"p(g(Z),Y)",
        b"{?X -> g(Z); Y -> g(b)}",
    ),
    (
        b"unifiable lit p(X,g(b),X)",
        b"p(g(Z),Y,Y)",
        b"{Y -> ?X; ?X -> g(Z); Z -> b}",
    ),
    (
        b"unifiable lit p(X,Y,T)",
        b"p(f(Z,b),f(a,W),f(a,b))",
        b"{?X -> f(Z,b); ?Y -> f(a,W); ?T -> f(a,b)}",
    ),
    // One variable many times.
    (
        b"unifiable lit p(X,X,X)",
        b"p(Y,Z,a)",
        b"{Y -> ?X; Z -> ?X; ?X -> a}",
    ),
    (
        b"unifiable lit p(X,X,X,X)",
        b"p(f(Y,b),f(a,Z),W,V)",
        b"{W -> ?X; V -> ?X; ?X -> f(Y,Z); Y -> a; Z -> b}",
    ),
    (
        b"unifiable lit p(f(X,X),X)",
        b"p(f(g(Y),g(Z)),g(W))",
        b"{?X -> g(Y); Z -> Y; W -> Y}",
    ),
    (
        b"unifiable lit p(f(X,X),f(Y,Y))",
        b"p(Z,f(Z,Z))",
        b"{Z -> ?Y; ?Y -> f(?X,?X)}",
    ),
    // What is used is bound after what uses it, and else the pattern's variables come first.
    (
        b"unifiable lit p(X,Y)",
        b"p(g(Y),b)",
        b"{?X -> g(Y); ?Y -> b}",
    ),
    (
        b"unifiable lit p(X,Y,Z)",
        b"p(g(b),h(b),b)",
        b"{?X -> g(?Z); ?Y -> h(?Z); ?Z -> b}",
    ),
    (
        b"unifiable lit p(Z,Y,X)",
        b"p(b,g(b),h(g(b)))",
        b"{?X -> h(?Y); ?Y -> g(?Z); ?Z -> b}",
    ),
    (
        b"unifiable lit p(X,Y,a)",
        b"p(b,g(Z),Z)",
        b"{?X -> b; ?Y -> g(Z); Z -> a}",
    ),
    (
        b"unifiable lit p(g(X),Y)",
        b"p(Y,g(a))",
        b"{?Y -> g(a); Y -> g(?X)}",
    ),
    (
        b"unifiable lit p(X,g(T),T)",
        b"p(f(Y,Z),Y,Z)",
        b"{?X -> f(Y,?T); Y -> g(?T); Z -> ?T}",
    ),
    (
        b"unifiable lit p(f(X,Y),Y,Z)",
        b"p(W,g(Z),a)",
        b"{?Z -> a; W -> f(?X,?Y); ?Y -> g(Z)}",
    ),
];

/// Lists of the other relations.
const MATCHES: [Row; 19] = [
    // Instances bind each variable of the pattern, in the order of first occurrence.
    (b"instances lit p(X,Y)", b"p(a,a)", b"{?X -> a; ?Y -> a}"),
    (
        b"instances lit p(Y,X)",
        b"p(Z,f(Z,Z))",
        b"{?Y -> Z; ?X -> f(Z,Z)}",
    ),
    (
        b"instances lit p(X,g(Y))",
        b"p(a,g(Z))",
        b"{?X -> a; ?Y -> Z}",
    ),
    (b"instances lit p(X,X)", b"p(Y,Z)", b""),
    (b"instances lit p(X,a)", b"p(b,Z)", b""),
    (
        b"instances lit p(X,g(X))",
        b"p(g(X),g(g(X)))",
        b"{?X -> g(X)}",
    ),
    // Generalizations bind each variable of the clause.
    (
        b"generalizations lit p(a,a)",
        b"p(X,Y)",
        b"{X -> a; Y -> a}",
    ),
    (
        b"generalizations lit p(Z,f(Z,Z))",
        b"p(Y,X)",
        b"{Y -> ?Z; X -> f(?Z,?Z)}",
    ),
    (
        b"generalizations lit p(X,g(Y))",
        b"p(Z,W)",
        b"{Z -> ?X; W -> g(?Y)}",
    ),
    (b"generalizations lit p(Y,Z)", b"p(X,X)", b""),
    (
        b"generalizations lit p(g(Y),g(g(Y)))",
        b"p(X,g(X))",
        b"{X -> g(?Y)}",
    ),
    // Variants rename.
    (b"variants lit p(X,Y)", b"p(Y,X)", b"{?X -> Y; ?Y -> X}"),
    (
        b"variants lit p(X,g(Y))",
        b"p(Z,g(W))",
        b"{?X -> Z; ?Y -> W}",
    ),
    (b"variants lit p(X,g(Y))", b"p(a,g(Z))", b""),
    (b"variants lit p(X,Y)", b"p(Z,Z)", b""),
    (b"variants lit p(X,X)", b"p(Y,Z)", b""),
    (
        b"variants lit p(f(X,Y),X)",
        b"p(f(A,B),A)",
        b"{?X -> A; ?Y -> B}",
    ),
    (b"variants lit p(X)", b"p(a)", b""),
    (b"variants lit p(a)", b"p(a)", b"{}"),
];

/// The lines that add the clause and ask.
fn lines(alloc: Global, question: &[u8], atom: &[u8]) -> Result<Vec<u8>, AllocError> {
    let mut lines = b"add cnf(c,axiom,".to_vec(alloc)?;
    lines.extend_from_slice(atom)?;
    lines.extend_from_slice(b").\n")?;
    lines.extend_from_slice(question)?;
    lines.push(b'\n')?;
    Ok(lines)
}

/// The reply that has this list, or none.
fn reply(alloc: Global, list: &[u8]) -> Result<Vec<u8>, AllocError> {
    if list.is_empty() {
        return b"\nend 0\n".to_vec(alloc);
    }
    let mut reply = b"\nc:1 ".to_vec(alloc)?;
    reply.extend_from_slice(list)?;
    reply.extend_from_slice(b"\nend 1\n")?;
    Ok(reply)
}

/// How the run over these lines ends, and what it writes.
fn answer(alloc: Global, question: &[u8], atom: &[u8]) -> Result<(Status, Vec<u8>), AllocError> {
    let input = lines(alloc, question, atom)?;
    written(alloc, &Limits::standard(), &input)
}

fn assert_list(
    rt: &impl Abort,
    alloc: Global,
    (question, atom, list): Row<'_>,
) -> Result<(), AllocError> {
    let (status, bytes) = answer(alloc, question, atom)?;
    let due = reply(alloc, list)?;
    let after_the_add = bytes.len().saturating_sub(due.len());
    assert_eq!(rt; status, Status::Ended);
    assert_eq!(rt; &bytes[after_the_add..], due.as_slice(), "at {question:?}");
    Ok(())
}

fn assert_lists(rt: &impl Abort, alloc: Global, rows: &[Row<'_>]) -> Result<(), AllocError> {
    for row in rows {
        assert_list(rt, alloc, *row)?;
    }
    Ok(())
}

#[test]
fn chains_have_their_lists(rt: HostRuntime) -> Result<(), Fail> {
    assert_lists(&rt, rt.alloc(), &CHAINS)?;
    Ok(())
}

#[test]
fn circles_have_their_lists(rt: HostRuntime) -> Result<(), Fail> {
    assert_lists(&rt, rt.alloc(), &CIRCLES)?;
    Ok(())
}

#[test]
fn images_have_their_lists(rt: HostRuntime) -> Result<(), Fail> {
    assert_lists(&rt, rt.alloc(), &IMAGES)?;
    Ok(())
}

#[test]
fn parts_have_their_lists(rt: HostRuntime) -> Result<(), Fail> {
    assert_lists(&rt, rt.alloc(), &PARTS)?;
    Ok(())
}

#[test]
fn matches_have_their_lists(rt: HostRuntime) -> Result<(), Fail> {
    assert_lists(&rt, rt.alloc(), &MATCHES)?;
    Ok(())
}
