//! What holds of the definitions, whoever reads the bytes.
ghost use Rattle.std.specs.Prelude.{◌≡◌, ◌≤◌, ◌++◌, ℕ, List, [], length, MatchOption};
ghost use Rattle.asp_job.specs.declared.entry.Entry.{Entry};
ghost use Rattle.asp_record.specs.declared.journal.Line.{Line};
ghost use Rattle.asp_record.specs.declared.recording.Recording.{Recording as Recorded};
ghost use Rattle.asp_record.specs.Entries.{entry_text};
ghost use Rattle.asp_record.specs.EntryLines.{line_what};
ghost use Rattle.asp_record.specs.Generated.{generated};
ghost use Rattle.asp_record.specs.Journal.{IsJournal, IsNoJournalAt, line_text};
ghost use Rattle.asp_record.specs.Recorded.{IsRefusedAt, IsSound, Stands, most_bytes};
ghost use Rattle.asp_record.specs.Recording.{Says, Version, recording_text};

/// Bytes have at most one recording at their front.
pub fn one_recording()
    ensures { (bytes : List ℕ) (one other : Recorded) (end last : ℕ) → Stands bytes one end
        → Stands bytes other last → (one ≡ other) × (end ≡ last) }
{}

/// The text of a sound recording of at most 64 MiB, in a version that can say its rule, has that recording at its
/// front, whatever follows.
pub fn text_stands()
    ensures { (version : Version) (recording : Recorded) (rest : List ℕ) → IsSound recording
        → Says version recording.strict → length (recording_text version recording) ≤ most_bytes
        → Stands (recording_text version recording ++ rest) recording (length (recording_text version recording)) }
{}

/// Bytes with a recording at their front are refused nowhere.
pub fn recording_not_refused()
    ensures { (bytes : List ℕ) (recording : Recorded) (end offset : ℕ) → Stands bytes recording end
        → IsRefusedAt bytes offset → ⊥ }
{}

/// Where bytes of at least 66 MiB are refused, they are refused there whatever follows: no line has 2 MiB.
pub fn refusals_stay()
    ensures { (bytes more : List ℕ) (offset : ℕ) → 69206016 ≤ length bytes → IsRefusedAt bytes offset
        → IsRefusedAt (bytes ++ more) offset }
{}

/// What is generated is sound.
pub fn generated_sound()
    ensures { (count : ℕ) → count ≤ 10000 → IsSound (generated count) }
{}

/// The text of an entry is that of its line, and nothing where it has none.
pub fn entries_have_lines()
    ensures { (entry : Entry) → MatchOption (line_what entry.what) (entry_text entry ≡ [])
        (λ said. entry_text entry ≡ line_text (record { lane = entry.lane; what = said })) }
{}

/// Bytes are the lines of at most one list.
pub fn one_journal()
    ensures { (bytes : List ℕ) (lines others : List Line) → IsJournal bytes lines
        → IsJournal bytes others → lines ≡ others }
{}

/// Bytes that are lines are refused nowhere.
pub fn journal_not_refused()
    ensures { (bytes : List ℕ) (lines : List Line) (offset : ℕ) → IsJournal bytes lines
        → IsNoJournalAt bytes offset → ⊥ }
{}
