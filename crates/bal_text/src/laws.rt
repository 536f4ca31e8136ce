//! What follows from the definition of a journal's text: a text is that of one journal at most, and it has either a
//! journal or a first line that is no event's.
ghost use Rattle.std.specs.Prelude.{◌≡◌, ℕ, List};
ghost use Rattle.bal_model.specs.Entries.{Entry};
ghost use Rattle.bal_text.specs.Texts.{HasBadLine, IsJournal};

/// A text is the text of no other events.
pub fn a_text_is_one_journal()
    ensures { (text : List ℕ) (one other : List Entry)
        → IsJournal text one → IsJournal text other → one ≡ other }
{}

/// A text with a line that is no event's has no journal.
pub fn no_journal_has_a_bad_line()
    ensures { (text : List ℕ) (entries : List Entry) (n : ℕ)
        → IsJournal text entries → HasBadLine text n → ⊥ }
{}

/// Only one line of a text is the first that is no event's.
pub fn the_first_bad_line_is_one()
    ensures { (text : List ℕ) (n m : ℕ)
        → HasBadLine text n → HasBadLine text m → n ≡ m }
{}
