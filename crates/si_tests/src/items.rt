// The readers at texts that were read by hand.
ghost use Rattle.std.specs.Prelude.{◌≤◌, length};
ghost use Rattle.si_defs.specs.declared.TheConstants.{MOST_BYTES};

use si_defs::{MOST_BYTES, NameKind, SymKind};
use si_lex::{Lexeme, lex};
use si_parse::grammar::{literal, term};
use si_parse::item::{Read, next_item};
use si_parse::pattern::{PatternKind, read_pattern};
use si_parse::text::{read_file, read_formula, read_name};
use si_term::{Literal, Literals, Sym, Term};
use std::alloc::{AllocError, Global};
use std::process::Abort;
use std::test::Fail;

/// What was read (`c` a clause, `i` an include, `e` the end, `s` no item, `l` another language), and
/// its place.
fn seen_in(read: &Read) -> (u8, usize) {
    match read {
        Read::Cnf(_, end) => (b'c', *end),
        Read::Include(_, _, end) => (b'i', *end),
        Read::End => (b'e', 0),
        Read::Syntax(place) => (b's', *place),
        Read::Language(place) => (b'l', *place),
    }
}

/// What stands in a text.
fn seen(alloc: Global, text: &[u8]) -> Result<(u8, usize), AllocError> {
    if text.len() > MOST_BYTES {
        return Err(AllocError);
    }
    let read = next_item(alloc, text, 0)?;
    Ok(seen_in(&read))
}

/// A text, and what is seen in it and where.
type Row = (&'static [u8], u8, usize);

const CLAUSES: [Row; 16] = [
    (b"cnf(a,axiom,p).", b'c', 15),
    (b"cnf(a,axiom,p).cnf(b,axiom,q).", b'c', 15),
    (b"cnf('a b',axiom,p).", b'c', 19),
    (b"cnf(1,axiom,p).", b'c', 15),
    (b"cnf(+1,axiom,p).", b'c', 16),
    (b"cnf(a,axiom,~(p)).", b'c', 18),
    (b"cnf(a,axiom,((p|q))).", b'c', 21),
    (b"cnf(a,axiom,p|~q|a=b|c!=d).", b'c', 27),
    (b"cnf(a,axiom,p,[]).", b'c', 18),
    (b"cnf(a,axiom,p,file('x.p',a)).", b'c', 29),
    (b"cnf(a,axiom,p,{).", b'c', 17),
    (b"cnf(a,axiom,p,!?&<>@*+-^;/:#{}~|=,.).", b'c', 37),
    (b"cnf (a , axiom , p ) . x", b'c', 22),
    (
        b"cnf(c_0,plain,(f(X1)!=X1|~e_0),inference(s,[t(m)],[c_2,'c 3'])).",
        b'c',
        64,
    ),
    (b"include('a.p').", b'i', 15),
    (b"include('a.p',[x,'1',1]).", b'i', 25),
];

const FAULTS: [Row; 18] = [
    (b" % x\n cnf(a,axiom,p)", b's', 6),
    (b"/*/", b's', 0),
    (b"'cnf'(a,axiom,p).", b's', 0),
    (b"cnf(01,axiom,p).", b's', 0),
    (b"cnf(X,axiom,p).", b's', 0),
    (b"cnf(a,'axiom',p).", b's', 0),
    (b"cnf(a,Axiom,p).", b's', 0),
    (b"cnf(a,axiom,~ ~p).", b's', 0),
    (b"cnf(a,axiom,(p)|q).", b's', 0),
    (b"cnf(a,axiom,p,).", b's', 0),
    (b"cnf(a,axiom,p,([)]).", b's', 0),
    (b"cnf(a,axiom,p,(]).", b's', 0),
    (b"cnf(a,axiom,p,]).", b's', 0),
    (b"include('a.p',[]).", b's', 0),
    (b"include(a).", b's', 0),
    (b"include('a.p',x).", b's', 0),
    (b"'include'('a.p').", b's', 0),
    (b"include('a.p',[X]).", b's', 0),
];

const OTHERS: [Row; 14] = [
    (b"", b'e', 0),
    (b" \t\n", b'e', 0),
    (b"% rest", b'e', 0),
    (b"/**/", b'e', 0),
    (b"fof(a,axiom,p).", b'l', 0),
    (b"  tff(", b'l', 2),
    (b"thf (", b'l', 0),
    (b"tcf/**/(", b'l', 0),
    (b"tpi(", b'l', 0),
    (b"fof", b's', 0),
    (b"'fof'(", b's', 0),
    (b"fofx(", b's', 0),
    (b"fof[", b's', 0),
    (b"\xef\xbb\xbfcnf(a,axiom,p).", b's', 0),
];

/// Each text shows what its row says.
fn assert_rows(rt: &impl Abort, alloc: Global, rows: &[Row]) -> Result<(), AllocError> {
    for row in rows {
        let seen = seen(alloc, row.0)?;
        assert_eq!(rt; seen.0, row.1);
        assert_eq!(rt; seen.1, row.2);
    }
    Ok(())
}

#[test]
fn items(rt: HostRuntime) -> Result<(), Fail> {
    assert_rows(&rt, rt.alloc(), &CLAUSES)?;
    assert_rows(&rt, rt.alloc(), &FAULTS)?;
    assert_rows(&rt, rt.alloc(), &OTHERS)?;
    Ok(())
}

/// The formula that a text is, if it is one.
fn formula_in(alloc: Global, text: &[u8]) -> Result<Option<Literals>, AllocError> {
    if text.len() > MOST_BYTES {
        return Err(AllocError);
    }
    read_formula(alloc, text)
}

/// A text, how many literals its formula has, and the first one: its sign, and the kind and the
/// text of its head.
type Formula = (&'static [u8], usize, bool, SymKind, &'static [u8]);

const FORMULAS: [Formula; 18] = [
    (b"p", 1, true, SymKind::Word, b"p"),
    (b"'p'", 1, true, SymKind::Word, b"p"),
    (b"' p'", 1, true, SymKind::Word, b" p"),
    (b"$true", 1, true, SymKind::Dollar, b"$true"),
    (b"$$a(X)", 1, true, SymKind::Dollar, b"$$a"),
    (b"p(a,1,\"d\")", 1, true, SymKind::Word, b"p"),
    (b"a=b", 1, true, SymKind::Equal, b"="),
    (b"a!=b", 1, false, SymKind::Equal, b"="),
    (b"~a=b", 1, false, SymKind::Equal, b"="),
    (b"~(a=b)", 1, false, SymKind::Equal, b"="),
    (b"X=Y", 1, true, SymKind::Equal, b"="),
    (b"1=2", 1, true, SymKind::Equal, b"="),
    (b"\"a\"!=X", 1, false, SymKind::Equal, b"="),
    (b"~p|q", 2, false, SymKind::Word, b"p"),
    (b"~(p)|q", 2, false, SymKind::Word, b"p"),
    (b"((p|q))", 2, true, SymKind::Word, b"p"),
    (b"p(q)=r(s)|t", 2, true, SymKind::Equal, b"="),
    (b" /**/p%", 1, true, SymKind::Word, b"p"),
];

fn head_of(term: &Term) -> Option<&Sym> {
    match term {
        Term::App(head, _) => Some(head),
        Term::Var(_) => None,
    }
}

fn assert_first(rt: &impl Abort, first: &Literal, row: &Formula) {
    assert_eq!(rt; first.positive, row.2);
    let head = head_of(&first.atom).expect(rt, "a head");
    assert_eq!(rt; head.kind, row.3);
    assert_eq!(rt; head.text.as_bytes(), row.4);
}

/// The formula is as the row says.
fn assert_formula(rt: &impl Abort, literals: &Literals, row: &Formula) {
    assert_eq!(rt; literals.len(), row.1);
    let first = literals.as_slice().first().expect(rt, "a literal");
    assert_first(rt, first, row);
}

const NO_FORMULAS: [&[u8]; 24] = [
    b"X",
    b"1",
    b"1=",
    b"~a!=b",
    b"~ ~p",
    b"~ ~ p",
    b"~(p) q",
    b"((p)",
    b"(p)|q",
    b"p|",
    b"|p",
    b"p q",
    b"p()",
    b"p(X,)",
    b"p(X",
    b"(p",
    b"(p))",
    b"",
    b"f(a)=b=c",
    b"p(~q)",
    b"1(a)",
    b"X(a)",
    b"~(p|q)",
    b"=p",
];

fn assert_formula_in(rt: &impl Abort, alloc: Global, row: &Formula) -> Result<(), AllocError> {
    let formula = formula_in(alloc, row.0)?.expect(rt, "a formula");
    assert_formula(rt, &formula, row);
    Ok(())
}

fn assert_formulas(rt: &impl Abort, alloc: Global, rows: &[Formula]) -> Result<(), AllocError> {
    for row in rows {
        assert_formula_in(rt, alloc, row)?;
    }
    Ok(())
}

#[test]
fn formulas(rt: HostRuntime) -> Result<(), Fail> {
    assert_formulas(&rt, rt.alloc(), &FORMULAS)?;
    Ok(())
}

/// Whether a text is a formula.
fn is_formula(alloc: Global, text: &[u8]) -> Result<bool, AllocError> {
    let formula = formula_in(alloc, text)?;
    Ok(formula.is_some())
}

fn assert_no_formulas(rt: &impl Abort, alloc: Global, texts: &[&[u8]]) -> Result<(), AllocError> {
    for text in texts {
        assert!(rt; !is_formula(alloc, text)?);
    }
    Ok(())
}

#[test]
fn no_formulas(rt: HostRuntime) -> Result<(), Fail> {
    assert_no_formulas(&rt, rt.alloc(), &NO_FORMULAS)?;
    Ok(())
}

const PATTERNS: [(&[u8], PatternKind, bool); 11] = [
    (b"p(X)", PatternKind::Lit, true),
    (b"p(X)", PatternKind::Term, true),
    (b"X", PatternKind::Lit, false),
    (b"X", PatternKind::Term, true),
    (b" 1 ", PatternKind::Term, true),
    (b"~p", PatternKind::Lit, true),
    (b"~p", PatternKind::Term, false),
    (b"a=b", PatternKind::Term, false),
    (b"", PatternKind::Lit, false),
    (b"p.", PatternKind::Lit, false),
    (b"p /*", PatternKind::Term, false),
];

/// Whether a text is a pattern of a kind.
fn is_pattern(alloc: Global, text: &[u8], kind: PatternKind) -> Result<bool, AllocError> {
    if text.len() > MOST_BYTES {
        return Err(AllocError);
    }
    let pattern = read_pattern(alloc, text, kind)?;
    Ok(pattern.is_some())
}

#[test]
fn patterns(rt: HostRuntime) -> Result<(), Fail> {
    for row in &PATTERNS {
        assert_eq!(rt; is_pattern(rt.alloc(), row.0, row.1)?, row.2);
    }
    Ok(())
}

const NAMES: [(&[u8], NameKind); 5] = [
    (b"a", NameKind::Word),
    (b"'a'", NameKind::Word),
    (b"'1'", NameKind::Word),
    (b" 1 ", NameKind::Int),
    (b"+1", NameKind::Int),
];

/// The kind of the name that a text is.
fn kind_in(rt: &impl Abort, alloc: Global, text: &[u8]) -> Result<NameKind, AllocError> {
    if text.len() > MOST_BYTES {
        return Err(AllocError);
    }
    let name = read_name(alloc, text)?.expect(rt, "a name");
    Ok(name.kind)
}

#[test]
fn names(rt: HostRuntime) -> Result<(), Fail> {
    for row in &NAMES {
        assert_eq!(rt; kind_in(&rt, rt.alloc(), row.0)?, row.1);
    }
    Ok(())
}

const FILES: [(&[u8], bool); 5] = [
    (b" 'a.p'", true),
    (b"a.p", false),
    (b"\"a.p\"", false),
    (b"01", false),
    (b"X", false),
];

/// Whether a text is the name of a file.
fn is_file(alloc: Global, text: &[u8]) -> Result<bool, AllocError> {
    if text.len() > MOST_BYTES {
        return Err(AllocError);
    }
    let file = read_file(alloc, text)?;
    Ok(file.is_some())
}

#[test]
fn files(rt: HostRuntime) -> Result<(), Fail> {
    for row in &FILES {
        assert_eq!(rt; is_file(rt.alloc(), row.0)?, row.1);
    }
    Ok(())
}

/// A text with so many brackets inside each other: between a front and a back, and each after
/// what opens it.
fn nested(
    alloc: Global,
    front: &[u8],
    open: &[u8],
    count: usize,
    back: &[u8],
) -> Result<Vec<u8>, AllocError> {
    let mut text = Vec::new(alloc);
    text.extend_from_slice(front)?;
    for _ in 0..count {
        text.extend_from_slice(open)?;
    }
    text.push(b'p')?;
    for _ in 0..count {
        text.push(b')')?;
    }
    text.extend_from_slice(back)?;
    Ok(text)
}

/// Whether an item with so many brackets is a clause.
fn is_nested_item(alloc: Global, brackets: usize) -> Result<bool, AllocError> {
    let item = nested(alloc, b"cnf(a,axiom,", b"(", brackets, b").")?;
    let found = seen(alloc, &item)?;
    Ok(found.0 == b'c')
}

fn is_nested_pattern(alloc: Global, brackets: usize) -> Result<bool, AllocError> {
    let pattern = nested(alloc, b"", b"f(", brackets, b"")?;
    is_pattern(alloc, &pattern, PatternKind::Term)
}

fn is_nested_formula(alloc: Global, brackets: usize) -> Result<bool, AllocError> {
    let formula = nested(alloc, b"", b"(", brackets, b"")?;
    is_formula(alloc, &formula)
}

/// So many brackets inside those of an item, so many in all, and whether they are read.
const DEPTHS: [(usize, usize, bool); 3] = [(510, 511, true), (511, 512, true), (512, 513, false)];

#[test]
fn nesting(rt: HostRuntime) -> Result<(), Fail> {
    for &(inside, whole, is_read) in &DEPTHS {
        assert_eq!(rt; is_nested_item(rt.alloc(), inside)?, is_read);
        assert_eq!(rt; is_nested_pattern(rt.alloc(), whole)?, is_read);
        assert_eq!(rt; is_nested_formula(rt.alloc(), whole)?, is_read);
    }
    Ok(())
}

/// Whether a term is found at the front of tokens.
fn is_term(alloc: Global, tokens: &[Lexeme]) -> Result<bool, AllocError>
    requires { length tokens.now ≤ MOST_BYTES }
{
    let found = term(alloc, tokens)?;
    Ok(found.is_some())
}

fn is_literal(alloc: Global, tokens: &[Lexeme]) -> Result<bool, AllocError>
    requires { length tokens.now ≤ MOST_BYTES }
{
    let found = literal(alloc, tokens)?;
    Ok(found.is_some())
}

/// Whether a term and a literal are found at the front of a text's tokens.
fn found_in(alloc: Global, text: &[u8]) -> Result<(bool, bool), AllocError> {
    let lexing = lex(alloc, text, 0)?;
    let tokens = lexing.tokens.as_slice();
    if tokens.len() > MOST_BYTES {
        return Err(AllocError);
    }
    Ok((is_term(alloc, tokens)?, is_literal(alloc, tokens)?))
}

const FRONTS: [(&[u8], bool, bool); 9] = [
    (b"p q", true, true),
    (b"X)", true, false),
    (b"X(", false, false),
    (b"1(", false, false),
    (b"p(a)(", false, false),
    (b"a=b=c", true, false),
    (b"a=b!=c", true, false),
    (b"~(p)(", false, false),
    (b"~(p)|", false, true),
];

#[test]
fn fronts(rt: HostRuntime) -> Result<(), Fail> {
    for row in &FRONTS {
        let found = found_in(rt.alloc(), row.0)?;
        assert_eq!(rt; found.0, row.1);
        assert_eq!(rt; found.1, row.2);
    }
    Ok(())
}
