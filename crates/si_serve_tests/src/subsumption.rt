// Clauses that subsume a formula, and those that it subsumes.
use crate::runs::assert_outputs;
use std::test::Fail;

/// Inputs with their outputs.
const ROWS: [(&[u8], &[u8]); 12] = [
    // Two literals may have one image.
    (
        b"add cnf(s,axiom,p(X)|p(Y)).\nsubsumers p(a)\nsubsumed p(Z)\nsubsumers q(a)\n",
        b"ok 1 2\ns [1,1]\nend 1\ns [1]\nend 1\nend 0\n",
    ),
    // Nothing is answered where no clause is kept.
    (b"subsumers p\nsubsumed p\n", b"end 0\nend 0\n"),
    // What is no formula.
    (
        b"subsumers\nsubsumed\nsubsumers p(X)|\nsubsumed lit p(a)\nsubsumers p(a).\nsubsumed ()\nsubsumers p(a) '\n",
        b"! syntax\n! syntax\n! syntax\n! syntax\n! syntax\n! syntax\n! syntax\n",
    ),
    // Brackets round the whole.
    (
        b"add cnf(g,axiom,(p(X))).\nsubsumers (q(b)|p(a))\nsubsumed ((p(Y)))\nsubsumers ((p(a))\n",
        b"ok 1 1\ng [2]\nend 1\ng [1]\nend 1\n! syntax\n",
    ),
    // Names that need quotes, and numbers.
    (
        b"add cnf('a b',axiom,~q(X)).\nadd cnf(12,axiom,q(f(a))).\nsubsumers ~q(f(a))|q(f(a))\nsubsumed ~q(X)\n",
        b"ok 1 1\nok 1 3\n'a b' [1]\n12 [2]\nend 2\n'a b' [1]\nend 1\n",
    ),
    // Clauses are named in the order of acceptance, and those that are gone aren't.
    (
        b"add cnf(c2,axiom,p(X)).\nadd cnf(c1,axiom,p(a)).\nadd cnf(c3,axiom,q(X)).\nsubsumed p(Y)\nremove c2\nsubsumed p(Y)\nsubsumers p(a)|q(b)\n",
        b"ok 1 1\nok 1 2\nok 1 1\nc2 [1]\nc1 [1]\nend 2\nok 1 1\nc1 [1]\nend 1\nc1 [1]\nc3 [2]\nend 2\n",
    ),
    // The first image is of no use, and one substitution has to do for all literals.
    (
        b"add cnf(d,axiom,q(a)|q(b)|r(b)).\nadd cnf(e,axiom,q(a)|r(b)).\nsubsumed q(X)|r(X)\n",
        b"ok 1 6\nok 1 4\nd [2,3]\nend 1\n",
    ),
    // Variables of the two are apart, though they are named alike.
    (
        b"add cnf(v,axiom,p(X,f(X))).\nsubsumers p(f(X),X)\nsubsumers p(f(X),f(f(X)))\nsubsumed p(Y,Y)\nsubsumed p(X,Y)\n",
        b"ok 1 2\nend 0\nv [1]\nend 1\nend 0\nv [1]\nend 1\n",
    ),
    // The sides of an equation aren't exchanged, and its sign counts.
    (
        b"add cnf(e,axiom,X=a).\nsubsumers a=b\nsubsumers b=a\nsubsumers b!=a\nsubsumed b!=a|X=a\n",
        b"ok 1 2\nend 0\ne [1]\nend 1\nend 0\nend 0\n",
    ),
    // A formula may use a symbol in another way than the clauses do. It isn't kept.
    (
        b"add cnf(c,axiom,p(a)).\nsubsumers p(a,b)|p(a)\nsubsumed p\nstats\n",
        b"ok 1 2\nc [2]\nend 1\nend 0\nclauses 1 entries 2 symbols 2\n",
    ),
    // The last choice is undone before the others.
    (
        b"add cnf(k,axiom,p(a,b)|p(a,c)|q(c)).\nsubsumed p(X,Y)|q(Y)\nsubsumed p(X,Y)|p(X,Z)|q(Z)\n",
        b"ok 1 8\nk [2,3]\nend 1\nk [1,2,3]\nend 1\n",
    ),
    // The words of the two are told apart, and comments are blanks.
    (
        b"add cnf(c,axiom,p(X)).\nsubsumers p(a) % behind\nsubsumed/**/p(a)\nsubsumer p(a)\n",
        b"ok 1 1\nc [1]\nend 1\nend 0\n! syntax\n",
    ),
];

#[test]
fn each_formula_has_its_answer(rt: HostRuntime) -> Result<(), Fail> {
    assert_outputs(&rt, rt.alloc(), &ROWS)?;
    Ok(())
}
