// Whether a term has the symbols of another one.
ghost use Rattle.std.specs.Prelude.{◌↔◌, IsTrue, map};
ghost use Rattle.si_defs.specs.Terms.{row};
ghost use Rattle.si_term.specs.Terms.{term_of};
ghost use Rattle.si_screen.specs.Likeness.{IsLike, AreLike};

use si_term::Term;

/// Whether the target has the term's symbol wherever the term has one. Both are walked over, as far
/// as variables of the term, and no memory is taken.
#[cycle(likeness)]
pub(crate) fn is_like(term: &Term, target: &Term) -> bool
    ensures { IsTrue result ↔ IsLike (term_of term.now) (term_of target.now) }
{
    match (term, target) {
        (Term::App(symbol, terms), Term::App(other, targets)) => {
            symbol.is(other) && are_like(terms.as_slice(), targets.as_slice())
        }
        (Term::App(_, _), Term::Var(_)) => false,
        (Term::Var(_), _) => true,
    }
}

// The same of terms in two rows, as far as both go.
#[cycle(likeness)]
fn are_like(terms: &[Term], targets: &[Term]) -> bool
    ensures { IsTrue result
        ↔ AreLike (row (map term_of terms.now)) (row (map term_of targets.now)) }
{
    for i in 0..terms.len().min(targets.len()) {
        if !is_like(&terms[i], &targets[i]) {
            return false;
        }
    }
    true
}
