// What is read of files.
ghost use Rattle.si_examples.specs.Harvests.{PlainFile, BigFile, MissingFile, NoMissingFile, FailedFile, TakenNameOfALoad, SelectedClause, OwnInclude, NoDepthOfOpenFile, DeepInclude, LateInclude, SecondLine, FirstWord};

/// Which clauses of a file are tried.
pub fn clauses_of_files()
    ensures plain_file { PlainFile }
    ensures selected_clause { SelectedClause }
    ensures taken_name { TakenNameOfALoad }
{}

/// Which files can't be opened, and why.
pub fn unopened_files()
    ensures big_file { BigFile }
    ensures missing_file { MissingFile }
    ensures no_missing_file { NoMissingFile }
    ensures failed_file { FailedFile }
    ensures own_include { OwnInclude }
    ensures no_depth_of_open_file { NoDepthOfOpenFile }
    ensures deep_include { DeepInclude }
    ensures late_include { LateInclude }
{}

/// Where no item stands.
pub fn faulty_files()
    ensures second_line { SecondLine }
    ensures first_word { FirstWord }
{}
