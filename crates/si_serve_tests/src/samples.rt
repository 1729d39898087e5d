// Samples: clauses that are drawn, and how much of all that is kept unifies with them.
use crate::runs::assert_outputs;
use std::test::Fail;

/// Inputs with their outputs.
const ROWS: [(&[u8], &[u8]); 9] = [
    // The clauses are kept, so their names are taken.
    (
        b"sample 1 2\ninstances lit q(X)\nsample 1 2\nstats\n",
        b"sample 2 5 7\ns1:1 {?X -> Y}\ns2:2 {?X -> f(X,X)}\nend 2\n! taken s1\nclauses 2 entries 5 symbols 4\n",
    ),
    // One start gives one sample, also after another command.
    (
        b"sample 7 3\nremove s1\nremove s2\nremove s3\nsample 7 3\n",
        b"sample 3 16 36\nok 1 6\nok 1 8\nok 1 2\nsample 3 16 36\n",
    ),
    // The least and the greatest start.
    (b"sample 0 1\n", b"sample 1 1 1\n"),
    (b"sample 2147483647 1\n", b"sample 1 8 10\n"),
    // Many clauses.
    (b"sample 1 1000\n", b"sample 1000 4194 1762066\n"),
    // Numbers that are too large, or none.
    (
        b"sample 2147483648 1\nsample 4294967297 1\nsample 99999999999999999999999999 1\nsample 1 0\nsample 1 10001\nsample 1 99999999999999999999999999\n",
        b"! syntax\n! syntax\n! syntax\n! syntax\n! syntax\n! syntax\n",
    ),
    // Other words after the command's.
    (
        b"sample\nsample 1\nsample +1 2\nsample -1 2\nsample 1 2 3\nsample s 2\nsample 1 2.\nsample 1/2\nsample 01 2\nsample 1 2 '\n",
        b"! syntax\n! syntax\n! syntax\n! syntax\n! syntax\n! syntax\n! syntax\n! syntax\n! syntax\n! syntax\n",
    ),
    // What was kept before is counted too, but not asked for.
    (
        b"add cnf(k,axiom,q(X)).\nsample 1 2\n",
        b"ok 1 1\nsample 2 5 9\n",
    ),
    // A clause that is refused takes those before it away.
    (
        b"add cnf(s2,axiom,r).\nsample 1 2\nadd cnf(u,axiom,q(a,a)).\nsample 1 1\nstats\n",
        b"ok 1 1\n! taken s2\nok 1 3\n! use q predicate/1 predicate/2\nclauses 2 entries 4 symbols 3\n",
    ),
];

#[test]
fn each_sample_has_its_sum(rt: HostRuntime) -> Result<(), Fail> {
    assert_outputs(&rt, rt.alloc(), &ROWS)?;
    Ok(())
}
