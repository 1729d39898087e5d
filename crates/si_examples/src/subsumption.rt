// Which clauses subsume others.
ghost use Rattle.si_examples.specs.Subsumption.{TwoToOne, SkippedLiteral, NoCommonImage, NoOtherSign, ReportedSubsumer, NoSubsumedReported};

/// Which clauses subsume which, and by which least map.
pub fn subsumed_clauses()
    ensures two_to_one { TwoToOne }
    ensures skipped_literal { SkippedLiteral }
    ensures no_common_image { NoCommonImage }
    ensures no_other_sign { NoOtherSign }
    ensures reported_subsumer { ReportedSubsumer }
    ensures no_subsumed_reported { NoSubsumedReported }
{}
