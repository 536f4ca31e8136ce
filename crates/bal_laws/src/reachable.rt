//! What is in the heap after every run: all that can be reached. A collector may be tuned in any way that keeps its runs
//! legal, in the choice of regions, the number of workers, the steps of a mark cycle, and these stay true.
ghost use Rattle.std.specs.Prelude.{ℕ, ◌≡◌, ◌↔◌, ◌⊎◌, IsTrue, List, [], ◌∷◌, ◌++◌};
ghost use Rattle.bal_layout.specs.declared.name.Abort.{Abort};
ghost use Rattle.bal_layout.specs.declared.name.Name.{Name};
ghost use Rattle.bal_model.specs.declared.config.Config.{Config};
ghost use Rattle.bal_model.specs.declared.event.Kept.{Kept};
ghost use Rattle.bal_model.specs.declared.event.Packed.{Packed};
ghost use Rattle.bal_model.specs.declared.row.Row.{Row};
ghost use Rattle.bal_rules.specs.Board.{is_present, names_placed, place_of};
ghost use Rattle.bal_model.specs.Entries.{Entry, partial, end, global};
ghost use Rattle.bal_layout.specs.Regions.{free_regions, is_in};
ghost use Rattle.bal_rules.specs.GlobalEvents.{region_before};
ghost use Rattle.bal_rules.specs.Interim.{Rule};
ghost use Rattle.bal_model.specs.Kept.{kept_ground};
ghost use Rattle.bal_layout.specs.Names.{is_among};
ghost use Rattle.bal_rules.specs.PartialEvents.{names_kept, placed_in, placed_outside};
ghost use Rattle.bal_rules.specs.Run.{IsRun, board_of};
ghost use Rattle.bal_model.specs.Walk.{Ground, EndsWalk, ends_of_walks, graph_ground, root_names, targets};
ghost use Rattle.bal_rules.specs.Sound.{AreOfThreads, IsAscending};

/// The closure by levels, by which the events say what is kept and what is dead, has exactly the names at the ends of walks,
/// in the order of the ground. Who marks in another order, or with more workers, has to come to the same list.
pub fn the_closure_is_the_ends_of_walks()
    ensures same { (g : Ground) (x : Name) → IsTrue (is_among x (ends_of_walks g)) ↔ EndsWalk g x }
    ensures in_order { (g : Ground) → IsAscending g.inside → IsAscending (ends_of_walks g) }
{}

/// After every run, whole or broken, each object that a walk from the registers and globals reaches is in the heap. So
/// nothing that a program can still use is given away, however often and in whatever order the collections come, and also
/// where memory was refused in the middle of a row.
pub fn each_reachable_object_is_present()
    ensures { (rule : Rule) (c : Config) (rows : List Row) (entries : List Entry)
        → AreOfThreads rows
        → IsRun rule c rows entries
        → (x : Name) → EndsWalk (graph_ground (board_of c entries).plain) x
        → IsTrue (is_present (board_of c entries) x) }
{}

/// After every run no reference dangles: what a register, a global or an object in the heap refers to is in the heap, and
/// that goes for garbage that waits for its collection too. So whoever goes over a region, to copy, to mark or to read its
/// cards, may follow each reference that he finds there.
pub fn no_reference_dangles()
    ensures in_objects { (rule : Rule) (c : Config) (rows : List Row) (entries : List Entry)
        → AreOfThreads rows
        → IsRun rule c rows entries
        → (x y : Name) → IsTrue (is_present (board_of c entries) x)
        → IsTrue (is_among y (targets (board_of c entries).plain x))
        → IsTrue (is_present (board_of c entries) y) }
    ensures in_roots { (rule : Rule) (c : Config) (rows : List Row) (entries : List Entry)
        → AreOfThreads rows
        → IsRun rule c rows entries
        → (x : Name) → IsTrue (is_among x (root_names (board_of c entries).plain))
        → IsTrue (is_present (board_of c entries) x) }
{}

/// Of the objects in the regions that it takes, a partial collection keeps exactly those that walks inside these regions reach
/// from what a register, a global or an object outside of them holds; and it lists them in order, each once. So no live
/// object is lost, and a dead one is kept only where garbage outside still leads to it: what a collection keeps and frees
/// follows from the choice of the regions alone, whatever its workers do.
pub fn a_partial_keeps_what_is_held_from_outside()
    ensures just_these { (rule : Rule) (c : Config) (rows : List Row) (before behind : List Entry)
        (chosen : List ℕ) (scans : ℕ) (kept : List Kept) (aborts : List Abort)
        → IsRun rule c rows (before ++ partial chosen scans kept aborts ∷ behind)
        → let b = board_of c before in
        (x : Name) → IsTrue (is_among x (names_kept kept))
        ↔ EndsWalk (kept_ground b.plain (names_placed b.present) (names_placed (placed_in chosen b))) x }
    ensures in_order { (rule : Rule) (c : Config) (rows : List Row) (before behind : List Entry)
        (chosen : List ℕ) (scans : ℕ) (kept : List Kept) (aborts : List Abort)
        → AreOfThreads rows
        → IsRun rule c rows (before ++ partial chosen scans kept aborts ∷ behind)
        → IsAscending (names_kept kept) }
{}

/// A global collection takes exactly the objects that no walk from the registers and globals reaches: it leaves no garbage
/// after, also none that a remembered card kept alive.
pub fn a_global_takes_just_what_cannot_be_reached()
    ensures { (rule : Rule) (c : Config) (rows : List Row) (before behind : List Entry) (dead : List Name) (packed : List Packed)
        → IsRun rule c rows (before ++ global dead packed ∷ behind)
        → let b = board_of c before in
        (x : Name) → IsTrue (is_among x dead) ↔ (IsTrue (is_present b x) × (EndsWalk (graph_ground b.plain) x → ⊥)) }
{}

/// After a partial collection exactly the objects outside of the regions that it took are in the heap, and those that it kept;
/// and each lies where it lay, or in a region that was free. So nothing outside moves, whoever reads a place there while the
/// collection copies reads the right one, and no copy is written over another object.
pub fn a_partial_leaves_the_outside_and_the_kept()
    ensures present { (rule : Rule) (c : Config) (rows : List Row) (before behind : List Entry)
        (chosen : List ℕ) (scans : ℕ) (kept : List Kept) (aborts : List Abort)
        → AreOfThreads rows
        → IsRun rule c rows (before ++ partial chosen scans kept aborts ∷ behind)
        → (x : Name) → IsTrue (is_present (board_of c (before ++ partial chosen scans kept aborts ∷ [])) x)
        ↔ (IsTrue (is_among x (names_placed (placed_outside chosen (board_of c before)))) ⊎ IsTrue (is_among x (names_kept kept))) }
    ensures places { (rule : Rule) (c : Config) (rows : List Row) (before behind : List Entry)
        (chosen : List ℕ) (scans : ℕ) (kept : List Kept) (aborts : List Abort)
        → IsRun rule c rows (before ++ partial chosen scans kept aborts ∷ behind)
        → let b = board_of c before in
        let d = board_of c (before ++ partial chosen scans kept aborts ∷ []) in
        (x : Name) → IsTrue (is_present d x)
        → (region_before (place_of d.present x) ≡ region_before (place_of b.present x))
        ⊎ IsTrue (is_in (region_before (place_of d.present x)) (free_regions b.regions)) }
{}

/// After a global collection exactly the objects that can be reached are in the heap.
pub fn a_global_leaves_what_can_be_reached()
    ensures { (rule : Rule) (c : Config) (rows : List Row) (before behind : List Entry) (dead : List Name) (packed : List Packed)
        → AreOfThreads rows
        → IsRun rule c rows (before ++ global dead packed ∷ behind)
        → let d = board_of c (before ++ global dead packed ∷ []) in
        (x : Name) → IsTrue (is_present d x) ↔ EndsWalk (graph_ground d.plain) x }
{}

/// The end of a mark cycle takes nothing that can be reached then, though references moved between the steps and no step
/// saw the whole graph.
pub fn a_mark_cycle_takes_nothing_that_can_be_reached()
    ensures { (rule : Rule) (c : Config) (rows : List Row) (before behind : List Entry) (dead : List Name)
        → IsRun rule c rows (before ++ end dead ∷ behind)
        → (x : Name) → IsTrue (is_among x dead) → EndsWalk (graph_ground (board_of c before).plain) x → ⊥ }
{}
