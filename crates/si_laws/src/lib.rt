//! Laws over the definitions alone. Each function does nothing: its contract is a law.
#![tactic(auto)]

ghost use Rattle.si_laws.specs.OneReply.{IsConsistent, HasOneOutcome, LoadsToOneOutcome, HasOneMeaning, OneRightStep, LoadsNothing, OneStepOfAnyLibrary, OneRightWord, StaysConsistent};
ghost use Rattle.si_defs.specs.Bytes.{Bytes};
ghost use Rattle.si_defs.specs.Clauses.{Clause, Pattern};
ghost use Rattle.si_defs.specs.Entries.{Placed};
ghost use Rattle.si_defs.specs.declared.Relation.{Relation};
ghost use Rattle.std.specs.Prelude.{◌≡◌, ℕ, Bool, List, length, Option};
ghost use Rattle.si_state.specs.States.{State, empty_state};
ghost use Rattle.si_state.specs.Answers.{Hit, IsAnswer};
ghost use Rattle.si_state.specs.Harvest.{Files};
ghost use Rattle.si_steps.specs.Settings.{Setting};
ghost use Rattle.si_steps.specs.Loads.{Owed};
ghost use Rattle.si_steps.specs.Commands.{Command};
ghost use Rattle.si_steps.specs.Steps.{CountsStanding};
ghost use Rattle.si_steps.specs.Runs.{Request, Run};

/// Where each symbol is used in one way and names are distinct, a command that is no load has at
/// most one right reply, but that numbers of nodes are free, and at most one right state after it.
/// They depend on the limits, the rules of acceptance, the command and the state alone.
pub fn commands_have_one_outcome()
    ensures { (setting : Setting) (command : Command) (state : State)
        → IsConsistent state → HasOneOutcome setting command state }
{}

/// So has a load in such a state, except that the library may fail: the files that it tells decide
/// too.
pub fn loads_have_one_outcome()
    ensures { (setting : Setting) (files : Files) (file : Bytes) (state : State)
        → IsConsistent state → LoadsToOneOutcome setting files file state }
{}

/// At most one number is right for how many of some entries stand in a relation to a pattern, and
/// each answer to the pattern has so many hits.
pub fn answers_have_one_count()
    ensures count { (relation : Relation) (pattern : Pattern) (entries : List (Clause × Placed))
        (count other : ℕ) → CountsStanding relation pattern entries count
        → CountsStanding relation pattern entries other → count ≡ other }
    ensures hits { (relation : Relation) (pattern : Pattern) (entries : List (Clause × Placed))
        (count : ℕ) (hits : List Hit) → CountsStanding relation pattern entries count
        → IsAnswer relation pattern entries hits → count ≡ length hits }
{}

/// A line means at most one command.
pub fn lines_have_one_meaning()
    ensures { (line : Bytes) → HasOneMeaning line }
{}

/// In such a state a line has at most one right step, except that the library may fail, and that
/// numbers of nodes are free. It depends on the limits, the rules of acceptance, the line, the
/// state and the files alone: a clause that is gone leaves no trace. The files decide nothing where
/// the line is no load, whether they are told or not.
pub fn lines_have_one_right_step()
    ensures step { (setting : Setting) (files : Files) (state : State) (line : Bytes)
        → IsConsistent state → OneRightStep setting files state line }
    ensures without_load { (setting : Setting) (state : State) (line : Bytes)
        → IsConsistent state → LoadsNothing line → OneStepOfAnyLibrary setting state line }
{}

/// A right step keeps names distinct, and symbols used in one way, whatever the library tells.
pub fn right_steps_stay_consistent()
    ensures { (setting : Setting) (told : Option Files) (state : State) (line : Bytes)
        → StaysConsistent setting told state line }
{}

/// The state after each run from the empty one is such, also where memory ran out or the library
/// failed.
pub fn runs_stay_consistent()
    ensures { (setting : Setting) (told : Option Files) (strict : Bool) (requests : List Request)
        (output : Bytes) (owed : Owed) (new : State)
        → Run setting told strict empty_state requests output owed new
        → IsConsistent new }
{}

/// In such a state a word that names a file has at most one right step, except that the library may
/// fail.
pub fn words_have_one_right_step()
    ensures { (setting : Setting) (files : Files) (state : State) (word : Bytes)
        → IsConsistent state → OneRightWord setting files state word }
{}
