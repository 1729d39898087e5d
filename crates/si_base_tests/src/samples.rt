use si_sample::sample;
use std::test::Fail;

#[test]
fn two_clauses(rt: HostRuntime) -> Result<(), Fail> {
    let text = sample(rt.alloc(), 1, 2)?;
    assert_eq!(rt;
        text.as_slice(),
        b"cnf(s1,axiom,q(Y)).\ncnf(s2,axiom,~p(b,X)|q(f(X,X))).\n".as_slice()
    );
    Ok(())
}
