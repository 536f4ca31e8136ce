//! How runs grow, and what holds of the board after every run. The other laws of runs are heavier, and stand in a crate of
//! their own.
ghost use Rattle.std.specs.Prelude.{◌≡◌, ◌≤◌, ◌<◌, ◌++◌, IsTrue, List, Some, false, length, true};
ghost use Rattle.std.specs.List.{AllByRecursion};
ghost use Rattle.bal_layout.specs.Shape.{IsShape};
ghost use Rattle.bal_layout.specs.declared.geometry.Want.{Want};
ghost use Rattle.bal_layout.specs.declared.name.Name.{Name};
ghost use Rattle.bal_model.specs.declared.config.Config.{Config};
ghost use Rattle.bal_model.specs.declared.event.Packed.{Packed};
ghost use Rattle.bal_model.specs.declared.row.Row.{Row};
ghost use Rattle.bal_model.specs.Entries.{Entry, executed, global};
ghost use Rattle.bal_model.specs.Spelling.{IsRow};
ghost use Rattle.bal_rules.specs.Board.{Board, is_present, names_placed};
ghost use Rattle.bal_rules.specs.Full.{is_full_allowed};
ghost use Rattle.bal_rules.specs.GlobalEvents.{IsGlobal, after_global};
ghost use Rattle.bal_rules.specs.Interim.{Rule};
ghost use Rattle.bal_rules.specs.Occupied.{IsOccupiedByObjects};
ghost use Rattle.bal_rules.specs.Path.{IsLegal, Stage, Turn, compacted, hard_room, own_at};
ghost use Rattle.bal_rules.specs.Range.{AreMadeByRows, AreObjectsInRange, IsWithinRegions};
ghost use Rattle.bal_rules.specs.Run.{Piece, MayComeNext, IsRun, board_of};
ghost use Rattle.bal_rules.specs.Sound.{AreOfThreads, IsAscending, IsMade};

/// A run and a piece that may come after it are a run.
pub fn a_run_grows()
    ensures { (rule : Rule) (c : Config) (rows : List Row) (entries : List Entry) (piece : Piece)
        → IsRun rule c rows entries
        → MayComeNext rule c rows entries piece
        → IsRun rule c rows (entries ++ piece.events) }
{}

/// After every run, whole or broken, the names of the present objects strictly ascend. So no object is ever in the heap
/// twice: whatever copies and moves a collection makes, it leaves one of each, and a look-up by name has one answer.
pub fn present_names_ascend()
    ensures { (rule : Rule) (c : Config) (rows : List Row) (entries : List Entry)
        → AreOfThreads rows
        → IsRun rule c rows entries
        → IsAscending (names_placed (board_of c entries).present) }
{}

/// After every run each present object is one that its thread has made: no collection invents a name.
pub fn present_objects_were_made()
    ensures { (rule : Rule) (c : Config) (rows : List Row) (entries : List Entry)
        → AreOfThreads rows
        → IsRun rule c rows entries
        → (x : Name) → IsTrue (is_present (board_of c entries) x)
        → IsMade (board_of c entries).plain x }
{}

/// A run makes no region and loses none, and the present objects, their leaves and the current region lie in those that
/// there are.
pub fn a_run_stays_in_its_regions()
    ensures { (rule : Rule) (c : Config) (rows : List Row) (entries : List Entry)
        → 0 < c.geometry.regions
        → IsRun rule c rows entries
        → IsWithinRegions c.geometry.regions (board_of c entries) }
{}

/// What the rows of a trace put into objects stays in the range of the rows.
pub fn objects_stay_in_range()
    ensures { (rule : Rule) (c : Config) (rows : List Row) (entries : List Entry)
        → IsShape c.geometry
        → AllByRecursion (IsRow c.geometry) rows
        → IsRun rule c rows entries
        → AreObjectsInRange (board_of c entries).plain }
{}

/// Each object takes a row, and each executed row is one of the trace. So the rows of a trace bound the objects of a run, of
/// each thread and in all.
pub fn each_object_takes_a_row()
    ensures objects { (rule : Rule) (c : Config) (rows : List Row) (entries : List Entry)
        → IsRun rule c rows entries
        → AreMadeByRows entries (board_of c entries) }
    ensures rows { (rule : Rule) (c : Config) (rows : List Row) (entries : List Entry)
        → AreOfThreads rows
        → IsRun rule c rows entries
        → length (executed entries) ≤ length rows }
{}

/// After every run each present object takes no more of its region than the largest may, and as many leaves as it asked for;
/// and each leaf is a present object's.
pub fn objects_take_what_they_asked_for()
    ensures { (rule : Rule) (c : Config) (rows : List Row) (entries : List Entry)
        → IsShape c.geometry
        → AllByRecursion (IsRow c.geometry) rows
        → IsRun rule c rows entries
        → IsOccupiedByObjects c (board_of c entries) }
{}

/// A global collection leaves room for a request, or the heap may be called full: then what can be reached, and what is asked
/// for, take more words than regions can surely hold.
pub fn a_global_leaves_room_or_a_full_heap()
    ensures { (c : Config) (b : Board) (dead : List Name) (packed : List Packed) (w : Want)
        → IsOccupiedByObjects c b
        → IsGlobal c b dead packed
        → hard_room c (after_global c b dead packed) w ≡ false
        → is_full_allowed c.geometry b.plain w ≡ true }
{}

/// So a legal run can always go on after a global collection: the row has an event of its own then, one that places it, one
/// that is told that the heap is full, or that of a `gc`.
pub fn a_run_goes_on_after_a_global()
    ensures { (rule : Rule) (c : Config) (rows : List Row) (entries : List Entry)
        (turn : Turn) (stage : Stage) (dead : List Name) (packed : List Packed)
        → IsShape c.geometry
        → AllByRecursion (IsRow c.geometry) rows
        → IsRun rule c rows entries
        → IsLegal rule c turn stage (board_of c entries) (global dead packed)
        → (own : Entry) × (own_at rule c turn compacted (after_global c (board_of c entries) dead packed) ≡ Some own) }
{}
