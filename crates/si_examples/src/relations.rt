// Instances, variants and unifiable terms.
ghost use Rattle.si_examples.specs.Relations.{NoInstanceOfSquare, InstanceOfVariable, NoVariableInstance, RenamedPair, NoVariantOfSquare, UnifiablePair, NoCycle};

/// Which terms are instances of others, and which are variants.
pub fn instances()
    ensures no_instance_of_square { NoInstanceOfSquare }
    ensures instance_of_variable { InstanceOfVariable }
    ensures no_variable_instance { NoVariableInstance }
    ensures renamed_pair { RenamedPair }
    ensures no_variant_of_square { NoVariantOfSquare }
{}

/// Which terms are unifiable.
pub fn unifiable_terms()
    ensures unifiable_pair { UnifiablePair }
    ensures no_cycle { NoCycle }
{}
