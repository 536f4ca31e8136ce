//! The text of a run: a journal loses nothing when it is written down.
ghost use Rattle.std.specs.Prelude.{◌≡◌, ◌≤◌, ◌^◌, List, length};
ghost use Rattle.std.specs.List.{AllByRecursion};
ghost use Rattle.bal_model.specs.declared.config.Config.{Config};
ghost use Rattle.bal_model.specs.declared.row.Row.{Row};
ghost use Rattle.bal_model.specs.Entries.{Entry};
ghost use Rattle.bal_model.specs.Spelling.{IsRow};
ghost use Rattle.bal_model.specs.Text.{journal_text};
ghost use Rattle.bal_model.specs.Configs.{IsWithinLimits};
ghost use Rattle.bal_rules.specs.Interim.{Rule};
ghost use Rattle.bal_rules.specs.Run.{IsRun};
ghost use Rattle.bal_text.specs.Texts.{IsJournal};

/// Each event of a run has a line, whole runs and broken ones alike: under a configuration within its limits, and of at most
/// 2^20 rows in range, no number of an event is larger than its word can say, and what has to ascend does. So the text of a
/// run's journal is a journal's, and it is read back as exactly these events.
pub fn every_run_has_a_text()
    ensures is_a_journal { (rule : Rule) (c : Config) (rows : List Row) (entries : List Entry)
        → IsWithinLimits c
        → AllByRecursion (IsRow c.geometry) rows
        → length rows ≤ 2 ^ 20
        → IsRun rule c rows entries
        → IsJournal (journal_text entries) entries }
    ensures of_no_other { (rule : Rule) (c : Config) (rows : List Row) (entries other : List Entry)
        → IsWithinLimits c
        → AllByRecursion (IsRow c.geometry) rows
        → length rows ≤ 2 ^ 20
        → IsRun rule c rows entries
        → IsJournal (journal_text entries) other
        → other ≡ entries }
{}
