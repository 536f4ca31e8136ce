//! What is seen of a heap whose objects were moved.
ghost use Rattle.std.specs.Prelude.{◌≡◌, ℕ, ◌⊎◌, List, Bool, false, IsTrue, Option, All, map};
ghost use Rattle.bal_layout.specs.declared.name.Name.{Name};
ghost use Rattle.bal_layout.specs.Graph.{Graph};
ghost use Rattle.bal_words.specs.Moved.{Carried, Closed, Fixed, Kept, LeadsToKept, Redirected, Relocated, word_to};
ghost use Rattle.bal_words.specs.Shown.{Shows, ShowsRoots};
ghost use Rattle.bal_words.specs.Things.{Thing, Things, Updated};

/// If the objects that are kept were carried to new addresses, no two to one, and then every reference mended once, the
/// heap shows the graph without the objects that are not kept, and the mended roots hold what they held. Whatever the
/// order in which it was done, and whether it was done by copying, packing or sliding, a program sees no difference.
pub fn moved_objects_show_the_graph_that_is_kept()
    ensures objects { (before middle after : Things) (g h : Graph) (keeps : ℕ → Bool) (to : ℕ → ℕ)
        → Shows before g → Carried before middle keeps to → Fixed middle after to
        → Closed before keeps → Kept before keeps g h → Shows after h }
    ensures roots { (before middle after : Things) (keeps : ℕ → Bool) (to : ℕ → ℕ) (words : List ℕ) (names : List (Option Name))
        → ShowsRoots before words names → Carried before middle keeps to → Fixed middle after to
        → All (LeadsToKept keeps) words → ShowsRoots after (map (word_to to) words) names }
{}

/// Objects are carried one by one: from a heap in which nothing was moved, each step moves one object to an address at
/// which none starts, and writes where it went, or takes one away that is not kept.
pub fn objects_are_carried_one_by_one()
    ensures start { (things : Things) (keeps : ℕ → Bool) → ((a : ℕ) (x : Thing) → things a ≡ Some x → IsTrue (keeps a))
        → Carried things things keeps (λ a. a) }
    ensures step { (before middle after : Things) (g : Graph) (keeps : ℕ → Bool) (old new : ℕ → ℕ) (from to : ℕ) (x : Thing)
        → Shows before g → Carried before middle keeps old
        → before from ≡ Some x → IsTrue (keeps from) → old from ≡ from → (middle to ≡ None) ⊎ (to ≡ from)
        → Relocated middle after from to → Redirected old new from to → Carried before after keeps new }
    ensures taken { (before middle after : Things) (g : Graph) (keeps now : ℕ → Bool) (to : ℕ → ℕ) (a : ℕ) (x : Thing)
        → Shows before g → Carried before middle keeps to → before a ≡ Some x → IsTrue (keeps a) → to a ≡ a
        → Updated middle after a None → now a ≡ false → ((b : ℕ) → (b ≡ a → ⊥) → now b ≡ keeps b)
        → Carried before after now to }
{}
