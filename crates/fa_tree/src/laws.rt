//! What holds of steps. Each function does nothing: its contract is the law.

ghost use Rattle.fa_tree.specs.Laws.{StepIsOne, StepsWhereAllHold, NoStepWhereOneFails, OutcomeChangesNothing, ReadingChangesNothing, ReadingEditsNothing, WithoutEditsOpenStays, EachOpenByItself, NamesKeepFiles, GivenNamesStand, BuildingKeepsTrees, ChangesKeepTrees, FilesStay, OnlyItsOwnIsMade};

/// From a tree a call leads to one tree at most.
pub fn step_is_one()
    ensures { StepIsOne }
{}

/// A call leads to another tree exactly where all its checks hold.
pub fn steps_where_all_hold()
    ensures { StepsWhereAllHold }
{}

/// Where one is the first that fails, the call leads to none.
pub fn no_step_where_one_fails()
    ensures { NoStepWhereOneFails }
{}

/// What an operation needs and makes of the store, and the causes of its errors, are those of its request, whatever came of it.
pub fn outcome_changes_nothing()
    ensures { OutcomeChangesNothing }
{}

/// A reading request leaves what is stored.
pub fn reading_changes_nothing()
    ensures { ReadingChangesNothing }
{}

/// A reading request edits no names.
pub fn reading_edits_nothing()
    ensures { ReadingEditsNothing }
{}

/// Where nothing is edited, the open directories stay as they are.
pub fn without_edits_open_stays()
    ensures { WithoutEditsOpenStays }
{}

/// Edits change each open directory by itself.
pub fn each_open_by_itself()
    ensures { EachOpenByItself }
{}

/// A name of a node stands for the same file after a step.
pub fn names_keep_files()
    ensures { NamesKeepFiles }
{}

/// After a success each name that its answer gives stands for the file of the reply.
pub fn given_names_stand()
    ensures { GivenNamesStand }
{}

/// The empty tree is a tree, and what may be added to one leaves one.
pub fn building_keeps_trees()
    ensures { BuildingKeepsTrees }
{}

/// A success of a request leaves a tree where there was one.
pub fn changes_keep_trees()
    ensures { ChangesKeepTrees }
{}

/// After a success each file is there still, and of its kind.
pub fn files_stay()
    ensures { FilesStay }
{}

/// A request makes no file but its own.
pub fn only_its_own_is_made()
    ensures { OnlyItsOwnIsMade }
{}
