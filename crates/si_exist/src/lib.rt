//! Laws over the definitions alone: what they ask for exists. Each function does nothing: its
//! contract is a law.
#![tactic(auto)]

ghost use Rattle.std.specs.Prelude.{List, Option};
ghost use Rattle.si_defs.specs.Bytes.{Bytes};
ghost use Rattle.si_defs.specs.declared.Relation.{Relation};
ghost use Rattle.si_state.specs.States.{State};
ghost use Rattle.si_state.specs.Harvest.{Files};
ghost use Rattle.si_steps.specs.Settings.{Setting};
ghost use Rattle.si_steps.specs.Runs.{Request};
ghost use Rattle.si_laws.specs.OneReply.{OneRightRun};
ghost use Rattle.si_exist.specs.OneList.{HasExactlyOneList, HasExactlyOneSolution, HasAnAnswer};
ghost use Rattle.si_exist.specs.RightReplies.{HasRightStep, HasRightWord, HasRightRun};

/// A pattern's term and an entry's that stand in a relation have exactly one canonical list of it.
pub fn terms_have_one_list()
    ensures { (relation : Relation) → HasExactlyOneList relation }
{}

/// So have a pattern and an entry.
pub fn entries_have_one_solution()
    ensures { (relation : Relation) → HasExactlyOneSolution relation }
{}

/// So it isn't so that a pattern has no answer among some entries.
pub fn patterns_have_an_answer()
    ensures { (relation : Relation) → HasAnAnswer relation }
{}

/// Nor that a line has no right step, one that reports no failure of the library, whatever the
/// limits, the rules of acceptance, the kept clauses and the files are.
pub fn lines_have_a_right_step()
    ensures { (setting : Setting) (told : Option Files) (state : State) (line : Bytes)
        → HasRightStep setting told state line }
{}

/// Nor that a word has none, whether it names a file or not.
pub fn words_have_a_right_step()
    ensures { (setting : Setting) (told : Option Files) (state : State) (word : Bytes)
        → HasRightWord setting told state word }
{}

/// The words and lines of a session have exactly one list of right replies, numbers of nodes aside,
/// and one right state after them, where the library tells its files and doesn't fail: it isn't so
/// that there is none, and any two are alike.
pub fn sessions_have_exactly_one_right_run()
    ensures some { (setting : Setting) (files : Files) (requests : List Request)
        → HasRightRun setting files requests }
    ensures alike { (setting : Setting) (files : Files) (requests : List Request)
        → OneRightRun setting files requests }
{}
