// Loads.
ghost use Rattle.si_examples.specs.Loads.{LoadedLine, OwnIncludeOwed, NoGainWithoutFile};

/// Which replies a load has.
pub fn replies_to_loads()
    ensures loaded_line { LoadedLine }
    ensures own_include_owed { OwnIncludeOwed }
    ensures no_gain_without_file { NoGainWithoutFile }
{}
