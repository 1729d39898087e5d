// Names of clauses, compared.
ghost use Rattle.std.specs.Prelude.{◌≡◌, ◌↔◌, IsTrue};
ghost use Rattle.si_term.specs.Meaning.{name_of};

use si_term::Name;

/// Whether two names are the same.
pub fn is_same_name(name: &Name, other: &Name) -> bool
    ensures { IsTrue result ↔ (name_of name.now ≡ name_of other.now) }
{
    name.kind == other.kind && name.text.as_bytes() == other.text.as_bytes()
}
