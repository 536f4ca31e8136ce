//! What is seen of a heap when one object is read, written or made.
ghost use Rattle.std.specs.Prelude.{◌≡◌, ℕ, ◌+◌, List, Option, All, length, replicate, slice_get, slice_set};
ghost use Rattle.std.specs.Option.{option_map};
ghost use Rattle.bal_layout.specs.declared.name.Kind.{Kind};
ghost use Rattle.bal_layout.specs.declared.name.Name.{Name};
ghost use Rattle.bal_layout.specs.Graph.{Graph, Object};
ghost use Rattle.bal_words.specs.Shown.{Finds, Shows, ShowsRoots, blank_object, kind_seen, name_behind, object_of, with_number, with_reference};
ghost use Rattle.bal_words.specs.Things.{Thing, Things, Updated, blank_thing, with_ref, with_value};

/// A heap shows one graph: the words leave nothing open.
pub fn one_graph_is_shown()
    ensures objects { (things : Things) (g h : Graph) → Shows things g → Shows things h → (n : Name) → g n ≡ h n }
    ensures roots { (things : Things) (words : List ℕ) (names others : List (Option Name))
        → ShowsRoots things words names → ShowsRoots things words others → names ≡ others }
{}

/// A reference word that is not null is followed to its object, and two words lead to one name only if they are one
/// word: so whoever compares and marks addresses compares and marks names.
pub fn a_word_is_followed_to_its_object()
    ensures found { (things : Things) (g : Graph) (word a : ℕ) → Shows things g → Finds things word → word ≡ a + 1
        → (x : Thing) × (things a ≡ Some x) × (name_behind things word ≡ Some x.name) × (g x.name ≡ Some (object_of things x)) }
    ensures same { (things : Things) (g : Graph) (one two : ℕ) → Shows things g → Finds things one → Finds things two
        → name_behind things one ≡ name_behind things two → one ≡ two }
    ensures reference { (things : Things) (g : Graph) (a slot word : ℕ) (x : Thing) → Shows things g → things a ≡ Some x
        → slice_get x.refs slot ≡ Some word → Finds things word }
    ensures root { (things : Things) (words : List ℕ) (names : List (Option Name)) (i word : ℕ) → ShowsRoots things words names
        → slice_get words i ≡ Some word → Finds things word × (slice_get names i ≡ Some (name_behind things word)) }
{}

/// What an object of the graph is, whom it refers to and its numbers are read from its words.
pub fn an_object_is_read_from_its_words()
    ensures kind { (things : Things) (g : Graph) (a : ℕ) (x : Thing) (o : Object)
        → Shows things g → things a ≡ Some x → g x.name ≡ Some o → o.kind ≡ kind_seen x.kind }
    ensures slots { (things : Things) (g : Graph) (a : ℕ) (x : Thing) (o : Object)
        → Shows things g → things a ≡ Some x → g x.name ≡ Some o → length o.refs ≡ length x.refs }
    ensures reference { (things : Things) (g : Graph) (a slot : ℕ) (x : Thing) (o : Object)
        → Shows things g → things a ≡ Some x → g x.name ≡ Some o
        → slice_get o.refs slot ≡ option_map (name_behind things) (slice_get x.refs slot) }
    ensures numbers { (things : Things) (g : Graph) (a : ℕ) (x : Thing) (o : Object)
        → Shows things g → things a ≡ Some x → g x.name ≡ Some o → o.values ≡ x.values }
{}

/// If one object is written and keeps its name, that object alone is another in the graph, and what roots hold stays.
pub fn a_written_object_is_shown()
    ensures written { (before after : Things) (g h : Graph) (a : ℕ) (x y : Thing)
        → Shows before g → before a ≡ Some x → y.name ≡ x.name → All (Finds before) y.refs
        → Updated before after a (Some y) → Updated g h x.name (Some (object_of before y)) → Shows after h }
    ensures reference { (before after : Things) (g h : Graph) (a slot word : ℕ) (x : Thing) (o : Object)
        → Shows before g → before a ≡ Some x → g x.name ≡ Some o → Finds before word
        → Updated before after a (Some (with_ref slot word x))
        → Updated g h x.name (Some (with_reference slot (name_behind before word) o)) → Shows after h }
    ensures number { (before after : Things) (g h : Graph) (a slot number : ℕ) (x : Thing) (o : Object)
        → Shows before g → before a ≡ Some x → g x.name ≡ Some o
        → Updated before after a (Some (with_value slot number x))
        → Updated g h x.name (Some (with_number slot number o)) → Shows after h }
    ensures roots { (before after : Things) (words : List ℕ) (names : List (Option Name)) (a : ℕ) (x y : Thing)
        → ShowsRoots before words names → before a ≡ Some x → y.name ≡ x.name
        → Updated before after a (Some y) → ShowsRoots after words names }
{}

/// If an object is placed at an address at which none started, the graph has that object more, and what roots hold
/// stays.
pub fn a_new_object_is_shown()
    ensures placed { (before after : Things) (g h : Graph) (a : ℕ) (y : Thing)
        → Shows before g → before a ≡ None → g y.name ≡ None → All (Finds before) y.refs
        → Updated before after a (Some y) → Updated g h y.name (Some (object_of before y)) → Shows after h }
    ensures blank { (before after : Things) (g h : Graph) (a refs values : ℕ) (name : Name) (kind : Kind)
        → Shows before g → before a ≡ None → g name ≡ None
        → Updated before after a (Some (blank_thing name kind refs values))
        → Updated g h name (Some (blank_object kind refs values)) → Shows after h }
    ensures roots { (before after : Things) (words : List ℕ) (names : List (Option Name)) (a : ℕ) (y : Thing)
        → ShowsRoots before words names → before a ≡ None → Updated before after a (Some y) → ShowsRoots after words names }
{}

/// If a root is written, it alone holds another object; and a heap with no object shows the empty graph.
pub fn roots_are_written()
    ensures written { (things : Things) (words : List ℕ) (names : List (Option Name)) (i word : ℕ)
        → ShowsRoots things words names → Finds things word
        → ShowsRoots things (slice_set words i word) (slice_set names i (name_behind things word)) }
    ensures null { (things : Things) (n : ℕ) → ShowsRoots things (replicate n 0) (replicate n None) }
    ensures empty { (things : Things) (g : Graph) → ((a : ℕ) → things a ≡ None) → ((n : Name) → g n ≡ None) → Shows things g }
{}
