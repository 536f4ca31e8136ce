//! How runs are cut into paths, what is left open in them, and what is not: the order of rows, their replies, and when a heap
//! may be called full. A collector may be tuned in any way that keeps its runs legal, and these stay true.
ghost use Rattle.std.specs.Prelude.{ℕ, ◌≡◌, ◌++◌, ◌∷◌, [], IsTrue, List, Option, Some, false, true, length, take};
ghost use Rattle.std.specs.List.{AllByRecursion, range_with_len};
ghost use Rattle.bal_layout.specs.declared.geometry.Want.{Want};
ghost use Rattle.bal_model.specs.declared.config.Config.{Config};
ghost use Rattle.bal_model.specs.declared.row.Op.{Op};
ghost use Rattle.bal_model.specs.declared.row.Reply.TheVariants.{Full};
ghost use Rattle.bal_model.specs.declared.row.Row.{Row};
ghost use Rattle.bal_rules.specs.Board.{names_placed};
ghost use Rattle.bal_model.specs.Entries.{Entry, Spot, row, executed};
ghost use Rattle.bal_rules.specs.Full.{is_full_allowed};
ghost use Rattle.bal_rules.specs.Interim.{Rule, placing};
ghost use Rattle.bal_rules.specs.Path.{hard_room};
ghost use Rattle.bal_model.specs.Plain.{start};
ghost use Rattle.bal_rules.specs.RowEvents.{want_of};
ghost use Rattle.bal_rules.specs.Run.{Piece, ArePieces, events_of, IsRun, IsWholeRun, IsInFileOrder, IsNeverFull, board_of, rows_of, done_by, replies};
ghost use Rattle.bal_rules.specs.Sound.{AreOfThreads, IsAscending};
ghost use Rattle.bal_laws.specs.Replies.{numbers_of, plain_replies};

/// The row events of each thread are numbered 1, 2, 3 and so on, with no gap, whatever collections come between them and
/// however the threads are mixed. So the number in a line says how far its thread has come, and what became slow between
/// two of its rows can be found by their numbers.
pub fn row_events_are_numbered()
    ensures { (rule : Rule) (c : Config) (rows : List Row) (entries : List Entry)
        → IsRun rule c rows entries
        → (t : ℕ) → numbers_of t entries ≡ range_with_len 1 (done_by t entries) }
{}

/// What a run executes of a thread is the front of that thread's rows, in their order. Threads may take turns in any way,
/// but none of them sees its own rows exchanged or left out: neither a collection nor memory that was refused loses a row.
pub fn each_threads_rows_are_in_order()
    ensures { (rule : Rule) (c : Config) (rows : List Row) (entries : List Entry)
        → IsRun rule c rows entries
        → (t : ℕ) → rows_of t (executed entries) ≡ take (done_by t entries) (rows_of t rows) }
{}

/// A journal of whole paths is cut into them in one way. So each collection in it was made for one row, and its cost can be
/// charged to that row: no other reading of the same journal lets another row, or another thread, pay for it.
pub fn a_whole_run_has_one_cut()
    ensures { (rule : Rule) (c : Config) (rows : List Row) (one other : List Piece)
        → ArePieces rule c rows [] one
        → AllByRecursion (λ (p : Piece). p.whole ≡ true) one
        → ArePieces rule c rows [] other
        → AllByRecursion (λ (p : Piece). p.whole ≡ true) other
        → events_of one ≡ events_of other
        → one ≡ other }
{}

/// As long as no allocation is told that the heap is full, a run replies exactly what the plain graph replies, in which there
/// are no regions and no collections. So a program cannot tell from its replies that there is a collector at all.
pub fn replies_are_the_plain_graphs()
    ensures { (rule : Rule) (c : Config) (rows : List Row) (entries : List Entry)
        → IsRun rule c rows entries
        → IsNeverFull entries
        → replies entries ≡ plain_replies start (executed entries) }
{}

/// Two runs that execute the same rows in the same order and never say full reply the same, whatever their rules and
/// configurations are. So sizes and numbers of regions, ages, workers and limits may be tuned for speed alone: they are not
/// seen in what a program computes, as long as the heap is large enough.
pub fn two_configurations_reply_the_same()
    ensures { (rule other_rule : Rule) (c other_c : Config) (rows other_rows : List Row) (one other : List Entry)
        → IsRun rule c rows one
        → IsRun other_rule other_c other_rows other
        → executed one ≡ executed other
        → IsNeverFull one
        → IsNeverFull other
        → replies one ≡ replies other }
{}

/// If a run tells an allocation that the heap is full, there is no hard room for it, in the current region or in free ones.
/// Under a rule without collections that is all that it says. Under one with collections, what is reachable then and what is
/// asked for take more than regions can surely hold: such a heap is too small for its program, and no other choice of
/// regions, and no other packing of them, is sure to have found the room.
pub fn a_full_heap_is_really_full()
    ensures no_room { (rule : Rule) (c : Config) (rows : List Row) (before behind : List Entry) (t k : ℕ) (o : Op) (place : Option Spot) (w : Want)
        → IsRun rule c rows (before ++ row t k o Full place ∷ behind)
        → want_of c.geometry o ≡ Some w
        → hard_room c (board_of c before) w ≡ false }
    ensures too_much { (rule : Rule) (c : Config) (rows : List Row) (before behind : List Entry) (t k : ℕ) (o : Op) (place : Option Spot) (w : Want)
        → rule.goes_by_hard_room ≡ false
        → IsRun rule c rows (before ++ row t k o Full place ∷ behind)
        → want_of c.geometry o ≡ Some w
        → IsTrue (is_full_allowed c.geometry (board_of c before).plain w) }
{}

/// Without notes and collections, two whole runs in file order that execute as many rows are the same journal: nothing is
/// left open, also not where objects are placed.
pub fn a_file_has_one_whole_run()
    ensures { (c : Config) (rows : List Row) (one other : List Entry)
        → IsWholeRun placing c rows one
        → IsWholeRun placing c rows other
        → IsInFileOrder rows one
        → IsInFileOrder rows other
        → length (executed one) ≡ length (executed other)
        → one ≡ other }
{}
