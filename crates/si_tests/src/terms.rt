// The entries of a clause that was copied.
ghost use Rattle.std.specs.Prelude.{◌<◌, length};
ghost use Rattle.si_defs.specs.Clauses.{IsSoundClause};
ghost use Rattle.si_defs.specs.Entries.{entries};
ghost use Rattle.si_term.specs.Meaning.{clause_of};

use si_term::{Clause, Entry, Place, Term, Text, entry_at, entry_count, place_at, vars_of};
use si_texts::clause_in;
use std::alloc::{AllocError, Global};
use std::test::Fail;

/// The symbol of a term, and `literal` for a literal.
fn head(entry: Entry<'_>) -> &[u8] {
    match entry {
        Entry::Sub(Term::App(symbol, _)) => symbol.text.as_bytes(),
        Entry::Sub(Term::Var(name)) => name.as_bytes(),
        Entry::Lit(_) => b"literal",
    }
}

fn digit(number: u32) -> u8 {
    b'0' + (number % 10) as u8
}

fn write_place(place: &Place, page: &mut Vec<u8>) -> Result<(), AllocError> {
    page.push(b' ')?;
    page.push(digit(place.literal))?;
    for step in place.path.as_slice() {
        page.push(b'.')?;
        page.push(digit(*step))?;
    }
    Ok(())
}

fn write_place_at(
    alloc: Global,
    clause: &Clause,
    number: u32,
    page: &mut Vec<u8>,
) -> Result<(), AllocError>
    requires sound { IsSoundClause (clause_of clause.now) }
    requires within { number < length (entries (clause_of clause.now)) }
{
    let place = place_at(alloc, clause, number)?;
    write_place(&place, page)
}

fn write_names(names: &[Text], page: &mut Vec<u8>) -> Result<(), AllocError> {
    for name in names {
        page.push(b' ')?;
        page.extend_from_slice(name.as_bytes())?;
    }
    Ok(())
}

fn write_variables(alloc: Global, entry: Entry<'_>, page: &mut Vec<u8>) -> Result<(), AllocError> {
    let names = vars_of(alloc, entry)?;
    write_names(names.as_slice(), page)
}

/// Appends the number of entries, and each entry, its place and its variables, as a line.
fn write_entries(alloc: Global, clause: &Clause, page: &mut Vec<u8>) -> Result<(), AllocError>
    requires { IsSoundClause (clause_of clause.now) }
{
    let count = entry_count(clause);
    page.push(digit(count))?;
    for number in 0..count {
        let entry = entry_at(clause, number);
        page.push(b'\n')?;
        page.extend_from_slice(head(entry))?;
        write_place_at(alloc, clause, number, page)?;
        write_variables(alloc, entry, page)?;
    }
    Ok(())
}

/// The same of a copy.
fn write_copy(alloc: Global, clause: &Clause, page: &mut Vec<u8>) -> Result<(), AllocError>
    requires { IsSoundClause (clause_of clause.now) }
{
    let copy = clause.copy(alloc)?;
    write_entries(alloc, &copy, page)
}

fn write_entries_of(alloc: Global, text: &[u8], page: &mut Vec<u8>) -> Result<(), AllocError> {
    let clause = clause_in(alloc, text)?;
    write_copy(alloc, &clause, page)
}

#[test]
fn entries_stand_in_order(rt: HostRuntime) -> Result<(), Fail> {
    let mut page = Vec::new(rt.alloc());
    let text = b"cnf(c,axiom,p(g(X),a)|p(X,f(Y,a))|p(f(Y,X),Y)).";
    write_entries_of(rt.alloc(), text, &mut page)?;
    let want =
        b"8\nliteral 1 X\ng 1.1 X\na 1.2\nliteral 2 X Y\nf 2.2 Y\na 2.2.2\nliteral 3 Y X\nf 3.1 Y X";
    assert_eq!(rt; page.as_slice(), want.as_slice());
    Ok(())
}
