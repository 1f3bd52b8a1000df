//! What holds of the lines of a journal, whoever writes them.
#![tactic(auto)]

ghost use Rattle.std.specs.Prelude.{List};
ghost use Rattle.asp_job.specs.declared.entry.Entry.{Entry};
ghost use Rattle.asp_job.specs.Journal.{IsValidJournal};
ghost use Rattle.asp_job.specs.Rules.{Rules};
ghost use Rattle.asp_record.specs.EntryLines.{lines_in};
ghost use Rattle.asp_record.specs.Journal.{AreLines};
ghost use Rattle.asp_record.specs.Ranged.{AreRanged};
ghost use Rattle.asp_core.specs.Kernel.{AreWellFormed};

/// The lines of a valid journal may stand in one, where its entries are well formed and what their types say.
pub fn journals_have_lines()
    ensures { (rules : Rules) (past : List Entry) → IsValidJournal rules past → AreWellFormed past
        → AreRanged past → AreLines (lines_in past) }
{}
