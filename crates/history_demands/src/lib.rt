// What document 02, Req 14 says of acts through a history, one after the other: laws alone, each the contract of a function that does nothing.

#![tactic(auto)]

ghost use Rattle.history_demands.specs.Run.{RunHeld};
ghost use Rattle.history_demands.specs.Recalls.{RecallStep, Seventeen};
ghost use Rattle.history_demands.specs.Edited.{EditStep, RefusedKeeps, NameEdit, NoName};

// After any acts the panel is that of the steps up to its own, and the bytes begin with the lines of all steps.
pub fn run_held()
    ensures { RunHeld }
{}

// A recall to a step that there is brings the panel of that step back, and changes no byte.
pub fn recall_step()
    ensures { RecallStep }
{}

// A recall is refused by 17 exactly above the last step.
pub fn seventeen()
    ensures { Seventeen }
{}

// An edit is refused by 16 exactly where nothing else refuses it and its line does not fit; an accepted one drops the later steps.
pub fn edit_step()
    ensures { EditStep }
{}

// A refused act leaves all as it was.
pub fn refused_keeps()
    ensures { RefusedKeeps }
{}

// The text of an edit by axis, line and name is that entry.
pub fn name_edit()
    ensures { NameEdit }
{}

// A name that is none is refused by 2.
pub fn no_name()
    ensures { NoName }
{}

ghost use Rattle.history_demands.specs.Answers.{HistoryAnswers, HistoryBook, HistoryOrder};
ghost use Rattle.history_demands.specs.Columns.{HistoryColumns};

// Every answer is that of the sheet's lines with the edits up to the panel's own step after them.
pub fn history_answers()
    ensures { HistoryAnswers }
{}

// Named lines and spans are those that CSS counts to over the name book.
pub fn history_book()
    ensures { HistoryBook }
{}

// Names may arrive in any order.
pub fn history_order()
    ensures { HistoryOrder }
{}

// Two histories that differ in row names and row template alone have the same column answers.
pub fn history_columns()
    ensures { HistoryColumns }
{}
