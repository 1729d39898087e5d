// What rows tell of clauses.
ghost use Rattle.std.specs.Prelude.{ℕ};
ghost use Rattle.si_defs.specs.Symbols.{Symbol};
ghost use Rattle.si_screen.specs.ClauseRows.{RowsFollow};

/// Whatever numbers symbols go by, the row of a clause that subsumes another one is a subset of the
/// other's. The function does nothing: its contract is the law.
pub fn rows_follow_maps()
    ensures { (number : Symbol → ℕ) → RowsFollow number }
{}
