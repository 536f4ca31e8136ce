//! A global collection by one thread, with all threads stopped: what is dead is taken away, and what is left is packed together.
//!
//! 1. All remembered lists are emptied, as objects will lie elsewhere.
//! 2. What registers and globals reach is marked, and the rest is swept.
//! 3. The marked objects are packed from the lowest region on, and references and roots are led to where they went.
//! 4. The cards become dirty on which references between regions lie: the next flush notes them.
//!
//! No memory is taken: the names that are told have their room before anything changes.
#![tactic(auto)]

ghost use Rattle.std.specs.Prelude.{◌≡◌, ℕ, ◌*◌, ◌≤◌, ◌↔◌, [], All, IsTrue, List, None, length};
ghost use Rattle.bal_barrier.specs.Coverage.{IsCovered};
ghost use Rattle.bal_base.specs.Bits.{is_member};
ghost use Rattle.bal_global.specs.Cleared.{IsCleared};
ghost use Rattle.bal_global.specs.Global.{IsOnBoard};
ghost use Rattle.bal_layout.specs.Graph.{Graph};
ghost use Rattle.bal_model.specs.declared.config.Config.{Config};
ghost use Rattle.bal_plan.specs.Plan.{starts_of};
ghost use Rattle.bal_rebuild.specs.Crossings.{HasCrossing};
ghost use Rattle.bal_rules.specs.Board.{Board};
ghost use Rattle.bal_rules.specs.GlobalEvents.{IsGlobal, after_global};
ghost use Rattle.bal_table.specs.Table.{things_of};
ghost use Rattle.bal_words.specs.Shown.{Finds, Shows};

use bal_base::Items;
use bal_cards::Cards;
use bal_compact::compact;
use bal_layout::{Name, a_header_has_one_spelling};
use bal_mark::close_marks;
use bal_meet::meeting::objects_are_moved;
use bal_meet::read::a_path_ends_where_a_walk_does;
use bal_model::Packed;
use bal_rebuild::{empty_lists, rebuild_all};
use bal_roots::Roots;
use bal_sweep::sweep;
use bal_table::{Marks, Moves, Table};

/// Collects the whole heap, and tells the names of the dead and where each of the others was packed. Whatever board the words
/// met before, the event is one of its global collections, and they meet the board that it leaves. All lists are empty then,
/// and just those cards are dirty for the next flush on which references lie that lead into another region.
pub fn global(
    table: &mut Table,
    cards: &mut Cards,
    roots: &mut Roots,
    marks: &mut Marks,
    moves: &mut Moves,
    dead: &mut Items<Name>,
    packed: &mut Items<Packed>,
)
    requires shape { cards.old.shape ≡ table.old.shape }
    requires graph { (g : Graph) × Shows (things_of table.old) g }
    requires held { All (Finds (things_of table.old)) roots.old }
    requires marks { marks.old.words ≡ table.old.shape.regions * table.old.shape.words }
    requires moves { length moves.old.words ≡ table.old.shape.regions * table.old.shape.words }
    requires empty { (dead.old.list ≡ []) × (packed.old.list ≡ []) }
    requires room { (length (starts_of table.old) ≤ dead.old.spare) × (length (starts_of table.old) ≤ packed.old.spare) }
    ensures global { (c : Config) (b : Board) (made : List ℕ) → IsOnBoard c table.old roots.old made b
        → IsGlobal c b dead.new.list packed.new.list }
    ensures meets { (c : Config) (b : Board) (made : List ℕ) → IsOnBoard c table.old roots.old made b
        → IsOnBoard c table.new roots.new made (after_global c b dead.new.list packed.new.list) }
    ensures dirty { (card : ℕ) → IsTrue (is_member cards.new.list card) ↔ HasCrossing table.new None card }
    ensures covered { IsCovered table.new cards.new }
    ensures shape { cards.new.shape ≡ cards.old.shape }
    ensures marks { marks.new.words ≡ marks.old.words }
    ensures moves { length moves.new.words ≡ length moves.old.words }
{
    // What the laws say of paths, of headers and of moves holds of this heap.
    a_path_ends_where_a_walk_does();
    a_header_has_one_spelling();
    objects_are_moved();
    take_dead(table, cards, roots, marks, dead);
    compact(table, cards, roots, moves, packed);
    // It is a table: so its references are the words in its slots.
    let _ = table.geometry();
    rebuild_all(table, cards);
}

// Empties all lists, and takes away what the roots do not reach.
fn take_dead(
    table: &mut Table,
    cards: &mut Cards,
    roots: &Roots,
    marks: &mut Marks,
    dead: &mut Items<Name>,
)
    requires shape { cards.old.shape ≡ table.old.shape }
    requires graph { (g : Graph) × Shows (things_of table.old) g }
    requires held { All (Finds (things_of table.old)) roots.now }
    requires marks { marks.old.words ≡ table.old.shape.regions * table.old.shape.words }
    requires empty { dead.old.list ≡ [] }
    requires room { length (starts_of table.old) ≤ dead.old.spare }
    ensures cleared { IsCleared table.old table.new roots.now marks.new.order dead.new.list }
    ensures cards { cards.new.shape ≡ cards.old.shape }
    ensures marks { marks.new.words ≡ marks.old.words }
{
    // It is a table, before and after: so each object has its words.
    let _ = table.geometry();
    empty_lists(table);
    close_marks(table, roots, marks);
    sweep(table, cards, marks, dead);
    let _ = table.geometry();
}
