// Queries in each relation.
use crate::runs::assert_outputs;
use std::test::Fail;

/// Inputs with their outputs.
const ROWS: [(&[u8], &[u8]); 12] = [
    // The pattern's variables come first, and two variables may be named alike.
    (
        b"add cnf(c1,axiom,p(f(X),a)).\nunifiable lit p(f(b),W)\nunifiable term X\ngeneralizations lit p(f(a),a)\n",
        b"ok 1 3\nc1:1 {?W -> a; X -> b}\nend 1\nc1:1:1 {?X -> f(X)}\nc1:1:2 {?X -> a}\nend 2\nc1:1 {X -> a}\nend 1\n",
    ),
    // The order of a list is not that of the variables.
    (
        b"add cnf(c,axiom,q(g(Y),Z)).\nunifiable lit q(X,X)\n",
        b"ok 1 2\nc:1 {Z -> ?X; ?X -> g(Y)}\nend 1\n",
    ),
    // A constant that is equal to a variable is written as that.
    (
        b"add cnf(c,axiom,h(a,Y)).\nunifiable lit h(X,f(X))\n",
        b"ok 1 2\nc:1 {Y -> f(?X); ?X -> a}\nend 1\n",
    ),
    // No finite term is its own part.
    (
        b"add cnf(c,axiom,q(Y,g(Y))).\nunifiable lit q(X,X)\n",
        b"ok 1 2\nend 0\n",
    ),
    // Variants rename one to one.
    (
        b"add cnf(c1,axiom,p(X,Y)).\nadd cnf(c2,axiom,p(X,X)).\nvariants lit p(B,A)\nvariants lit p(A,A)\n",
        b"ok 1 1\nok 1 1\nc1:1 {?B -> X; ?A -> Y}\nend 1\nc2:1 {?A -> X}\nend 1\n",
    ),
    (
        b"add cnf(c1,axiom,q(X,Y,Z)).\nadd cnf(c2,axiom,q(X,X,Y)).\nadd cnf(c3,axiom,q(X,Y,X)).\nadd cnf(c4,axiom,q(X,Y,Y)).\nadd cnf(c5,axiom,q(X,X,X)).\nvariants lit q(C,A,B)\nvariants lit q(A,A,C)\nvariants lit q(A,B,A)\nvariants lit q(B,A,A)\nvariants lit q(A,A,A)\n",
        b"ok 1 1\nok 1 1\nok 1 1\nok 1 1\nok 1 1\nc1:1 {?C -> X; ?A -> Y; ?B -> Z}\nend 1\nc2:1 {?A -> X; ?C -> Y}\nend 1\nc3:1 {?A -> X; ?B -> Y}\nend 1\nc4:1 {?B -> X; ?A -> Y}\nend 1\nc5:1 {?A -> X}\nend 1\n",
    ),
    // Equal terms at several places, and equal literals.
    (
        b"add cnf(d,axiom,p(a)|p(a)).\nvariants term a\ngeneralizations lit p(a)\n",
        b"ok 1 4\nd:1:1 {}\nd:2:1 {}\nend 2\nd:1 {}\nd:2 {}\nend 2\n",
    ),
    // Variables that are always equal are joined, but for instances.
    (
        b"add cnf(c,axiom,p(g(a),g(a))).\nunifiable lit p(X,Y)\ninstances lit p(X,Y)\n",
        b"ok 1 5\nc:1 {?Y -> ?X; ?X -> g(a)}\nend 1\nc:1 {?X -> g(a); ?Y -> g(a)}\nend 1\n",
    ),
    // Symbols that no clause has, and signs.
    (
        b"add cnf(c,axiom,p(X,g(Y))|~p(b,b)).\nunifiable lit p(n(k),Z)\nunifiable lit ~p(Z,b)\ngeneralizations lit p(n(k),g(k))\n",
        b"ok 1 5\nc:1 {?Z -> g(Y); X -> n(k)}\nend 1\nc:2 {?Z -> b}\nend 1\nc:1 {X -> n(k); Y -> k}\nend 1\n",
    ),
    // An equation keeps its sides, and quoted names are printed as such.
    (
        b"add cnf('a b',axiom,X!='It\\'s').\nunifiable lit Y!=Z\nunifiable lit 'It\\'s'!=Z\n",
        b"ok 1 2\n'a b':1 {?Z -> 'It\\'s'; X -> ?Y}\nend 1\n'a b':1 {X -> ?Z; ?Z -> 'It\\'s'}\nend 1\n",
    ),
    // The unifier doubles with each variable where it is expanded, and the list doesn't.
    (
        b"add cnf(c,axiom,h(X1,X2,X3,f(X0,X0),f(X1,X1),f(X2,X2))).\nunifiable lit h(Y1,Y2,Y3,Y1,Y2,Y3)\n",
        b"ok 1 4\nc:1 {X1 -> ?Y1; X2 -> ?Y2; X3 -> ?Y3; ?Y3 -> f(?Y2,?Y2); ?Y2 -> f(?Y1,?Y1); ?Y1 -> f(X0,X0)}\nend 1\n",
    ),
    (
        b"add cnf(c,axiom,h(X1,X2,X3,X4,X5,X6,X7,X8,X9,X10,X11,X12,X13,X14,X15,X16,f(X0,X0),f(X1,X1),f(X2,X2),f(X3,X3),f(X4,X4),f(X5,X5),f(X6,X6),f(X7,X7),f(X8,X8),f(X9,X9),f(X10,X10),f(X11,X11),f(X12,X12),f(X13,X13),f(X14,X14),f(X15,X15))).\nunifiable lit h(Y1,Y2,Y3,Y4,Y5,Y6,Y7,Y8,Y9,Y10,Y11,Y12,Y13,Y14,Y15,Y16,Y1,Y2,Y3,Y4,Y5,Y6,Y7,Y8,Y9,Y10,Y11,Y12,Y13,Y14,Y15,Y16)\n",
        b"ok 1 17\nc:1 {X1 -> ?Y1; X2 -> ?Y2; X3 -> ?Y3; X4 -> ?Y4; X5 -> ?Y5; X6 -> ?Y6; X7 -> ?Y7; X8 -> ?Y8; X9 -> ?Y9; X10 -> ?Y10; X11 -> ?Y11; X12 -> ?Y12; X13 -> ?Y13; X14 -> ?Y14; X15 -> ?Y15; X16 -> ?Y16; ?Y16 -> f(?Y15,?Y15); ?Y15 -> f(?Y14,?Y14); ?Y14 -> f(?Y13,?Y13); ?Y13 -> f(?Y12,?Y12); ?Y12 -> f(?Y11,?Y11); ?Y11 -> f(?Y10,?Y10); ?Y10 -> f(?Y9,?Y9); ?Y9 -> f(?Y8,?Y8); ?Y8 -> f(?Y7,?Y7); ?Y7 -> f(?Y6,?Y6); ?Y6 -> f(?Y5,?Y5); ?Y5 -> f(?Y4,?Y4); ?Y4 -> f(?Y3,?Y3); ?Y3 -> f(?Y2,?Y2); ?Y2 -> f(?Y1,?Y1); ?Y1 -> f(X0,X0)}\nend 1\n",
    ),
];

#[test]
fn each_query_has_its_answer(rt: HostRuntime) -> Result<(), Fail> {
    assert_outputs(&rt, rt.alloc(), &ROWS)?;
    Ok(())
}
