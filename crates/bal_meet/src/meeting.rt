//! What is changed in a heap, and which board it meets then.
ghost use Rattle.std.specs.Prelude.{◌≡◌, ℕ, ◌<◌, ◌∷◌, ◌++◌, Bool, IsTrue, List, Option, Some, map, not};
ghost use Rattle.std.specs.List.{list_any};
ghost use Rattle.bal_layout.specs.Names.{is_among};
ghost use Rattle.bal_layout.specs.Regions.{freed};
ghost use Rattle.bal_layout.specs.Shape.{Shape};
ghost use Rattle.bal_layout.specs.declared.geometry.Want.{Want};
ghost use Rattle.bal_layout.specs.declared.name.Kind.{Kind};
ghost use Rattle.bal_layout.specs.declared.name.Name.{Name};
ghost use Rattle.bal_layout.specs.declared.region_state.RegionState.{RegionState};
ghost use Rattle.bal_meet.specs.Decode.{placed_at};
ghost use Rattle.bal_meet.specs.Heap.{Account, ArePlaced, Heap, IsNoted, Meets, Moves, Places, account_of, next_made, spot_at, with_current, with_freed, with_noted, with_regions, with_root, with_things};
ghost use Rattle.bal_model.specs.Plain.{adopting, mutator, next_name, start, with_global, with_mutator, with_reference, with_register, with_value};
ghost use Rattle.bal_model.specs.declared.config.Config.{Config};
ghost use Rattle.bal_roots.specs.Roots.{global_place, null_roots, register_place};
ghost use Rattle.bal_rules.specs.Board.{Board, Placed, opening, placed_except};
ghost use Rattle.bal_rules.specs.NoteEvents.{IsNote, Slot, after_note, same_slot};
ghost use Rattle.bal_rules.specs.RowEvents.{board_with_object};
ghost use Rattle.bal_words.specs.Shown.{Finds, blank_object, name_behind};
ghost use Rattle.bal_words.specs.Things.{Thing, Things, Updated, with_ref, with_value as with_number};

/// A heap without objects, with null roots and the account of the opening board, meets that board.
pub fn an_empty_heap_meets_the_opening_board()
    ensures { (c : Config) (h : Heap) → ((a : ℕ) → h.things a ≡ None) → h.roots ≡ null_roots
        → h.account ≡ account_of (opening c) → Meets h (opening c) }
{}

/// A root takes a word: the register or the global then holds the object to which the word leads.
pub fn a_root_is_written()
    ensures register { (h : Heap) (b : Board) (t r word : ℕ) → Meets h b → t < 32 → r < 32 → Finds h.things word
        → Meets (with_root (register_place t r) word h) (record b { plain = with_register b.plain t r (name_behind h.things word) }) }
    ensures global { (h : Heap) (b : Board) (g word : ℕ) → Meets h b → g < 64 → Finds h.things word
        → Meets (with_root (global_place g) word h) (record b { plain = with_global b.plain g (name_behind h.things word) }) }
{}

/// A slot of an object takes a word or a number: the object has that reference or that number then.
pub fn a_slot_is_written()
    ensures reference { (h : Heap) (b : Board) (things : Things) (a slot word : ℕ) (x : Thing) → Meets h b
        → h.things a ≡ Some x → Finds h.things word → Updated h.things things a (Some (with_ref slot word x))
        → Meets (with_things things h) (record b { plain = with_reference b.plain x.name slot (name_behind h.things word) }) }
    ensures number { (h : Heap) (b : Board) (things : Things) (a slot number : ℕ) (x : Thing) → Meets h b
        → h.things a ≡ Some x → Updated h.things things a (Some (with_number slot number x))
        → Meets (with_things things h) (record b { plain = with_value b.plain x.name slot number }) }
{}

/// An object is placed: it is its thread's next, and the board has it there.
pub fn an_object_is_placed()
    ensures name { (h : Heap) (b : Board) (t : ℕ) → Meets h b → t < 32 → next_made h.account t ≡ next_name b.plain t }
    ensures placed { (before after : Heap) (b : Board) (t r refs values a : ℕ) (kind : Kind) (w : Want) → Meets before b → t < 32 → r < 32
        → Places before after t r kind refs values w a
        → Meets after (board_with_object (next_name b.plain t) w (spot_at after a)
        (record b { plain = with_mutator b.plain t (adopting t r (blank_object kind refs values) (mutator b.plain t)) })) }
{}

/// Roles, ages, estimates and remembered lists change, or the current region: the heap's regions and the board's change by
/// one function. Regions are freed by that function, in any number of steps.
pub fn regions_change()
    ensures regions { (h : Heap) (b : Board) (change : List RegionState → List RegionState) → Meets h b
        → Meets (with_regions (change h.account.regions) h) (record b { regions = change b.regions }) }
    ensures current { (h : Heap) (b : Board) (current : Option ℕ) → Meets h b → Meets (with_current current h) (record b { current = current }) }
    ensures freed { (h : Heap) (b : Board) (qs : List ℕ) → Meets h b
        → Meets (with_freed qs h) (record b { regions = freed h.shape qs b.regions }) }
    ensures one_by_one { (s : Shape) (qs more : List ℕ) (regions : List RegionState)
        → freed s more (freed s qs regions) ≡ freed s (more ++ qs) regions }
{}

/// A card is noted for a region, for the reference in a slot of an object that lies elsewhere: it is a legal note, unless that
/// slot was noted before, and the heap's list and the board's take the card alike.
pub fn a_card_is_noted()
    ensures legal { (c : Config) (h : Heap) (b : Board) (noted : List Slot) (q card a i : ℕ) (n : IsNoted h q card a i) → Meets h b
        → c.geometry ≡ h.shape → IsTrue (not (list_any (same_slot (record { holder = n.holder.name; number = i })) noted))
        → IsNote c b noted q card n.holder.name i }
    ensures meets { (c : Config) (h : Heap) (b : Board) (q card : ℕ) → Meets h b → Meets (with_noted c.cards q card h) (after_note c b q card) }
{}

/// Words of which no object tells are written, and what objects tell stays.
pub fn other_words_are_written()
    ensures { (h : Heap) (b : Board) (things : Things) → Meets h b → ((a : ℕ) → things a ≡ h.things a) → Meets (with_things things h) b }
{}

/// Objects are moved, and references and roots mended; or, with a map that leads each address to itself, the others are
/// removed. The heap then meets the board on which exactly the kept objects are present, each where it lies, with whatever the
/// collection made of the regions.
pub fn objects_are_moved()
    ensures moved { (before after : Heap) (middle : Things) (keeps : ℕ → Bool) (to : ℕ → ℕ) (b : Board) (now : List Placed)
        → Meets before b → Moves before after middle keeps to → ArePlaced before.things (spot_at after) keeps to now
        → Meets after (record b { present = now; regions = after.account.regions; current = after.account.current }) }
    ensures placed { (before after : Heap) (keeps : ℕ → Bool) (to : ℕ → ℕ) (b : Board) (lost : List Name) (move : Placed → Placed)
        → Meets before b
        → ((a : ℕ) (x : Thing) → before.things a ≡ Some x → keeps a ≡ not (is_among x.name lost))
        → ((p : Placed) → (move p).name ≡ p.name)
        → ((a : ℕ) (x : Thing) → before.things a ≡ Some x → IsTrue (keeps a)
        → move (placed_at x.name (spot_at before a)) ≡ placed_at x.name (spot_at after (to a)))
        → ArePlaced before.things (spot_at after) keeps to (map move (placed_except lost b.present)) }
{}
