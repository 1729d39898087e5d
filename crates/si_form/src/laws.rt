// Laws of the definitions, which stand here as contracts. No function here does anything.
ghost use Rattle.si_defs.specs.declared.Relation.TheVariants.{Variants, Instances, Generalizations, Unifiable};
ghost use Rattle.si_defs.specs.declared.Relation.{Relation};
ghost use Rattle.si_form.specs.Answers.{HasOneCanonicalList, HasOneSolution, HasSolutionsOfRelated};
ghost use Rattle.si_form.specs.Numberings.{RelationsAreKept, PlacesAreFree};
ghost use Rattle.si_form.specs.Numberings.{AnswersAreKept, SignsAreTold, SidesAreTold};
ghost use Rattle.si_form.specs.SolutionParts.{SolutionsAreOfTerms, PredicatesStayOut};
ghost use Rattle.si_form.specs.SolutionParts.{SignsStayOut, AtomsAreAnswered};
ghost use Rattle.si_form.specs.TableNumbers.{NumbersTellApart, EntriesNeedTheTableAlone};

/// Of each relation of terms with numbers there is one canonical list at most.
pub fn canonical_lists_are_unique()
    ensures variants { HasOneCanonicalList Variants }
    ensures instances { HasOneCanonicalList Instances }
    ensures generalizations { HasOneCanonicalList Generalizations }
    ensures unifiable { HasOneCanonicalList Unifiable }
{}

/// Of a pattern and an entry there is one canonical list at most, and none where the relation
/// fails.
pub fn solutions_are_unique()
    ensures one { (relation : Relation) → HasOneSolution relation }
    ensures related { (relation : Relation) → HasSolutionsOfRelated relation }
{}

/// Terms with numbers stand in the relations in which the terms with texts stand.
pub fn numbers_keep_relations()
    ensures relations { RelationsAreKept }
    ensures places { PlacesAreFree }
{}

/// What is answered to terms with numbers holds of the terms with texts.
pub fn numbers_keep_answers()
    ensures answers { AnswersAreKept }
    ensures signs { SignsAreTold }
    ensures sides { SidesAreTold }
    ensures atoms { AtomsAreAnswered }
{}

/// A solution has symbols and variables of its two terms alone, and not the predicates of atoms.
pub fn solutions_are_of_their_terms()
    ensures terms { SolutionsAreOfTerms }
    ensures predicates { PredicatesStayOut }
    ensures signs { SignsStayOut }
{}

/// The numbers of a table, and those of a query after them, tell symbols apart.
pub fn numbers_tell_symbols_apart()
    ensures apart { NumbersTellApart }
    ensures entries { EntriesNeedTheTableAlone }
{}
