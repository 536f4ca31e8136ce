//! What holds of the heap's regions after every event: how old they are, and what their lists may speak of.
ghost use Rattle.std.specs.Prelude.{ℕ, ◌≡◌, ◌≤◌, List, false, true};
ghost use Rattle.std.specs.List.{AllByRecursion};
ghost use Rattle.bal_layout.specs.Regions.{age_of, is_free, region_at};
ghost use Rattle.bal_layout.specs.declared.region_state.RegionState.{RegionState};
ghost use Rattle.bal_model.specs.declared.config.Config.{Config};
ghost use Rattle.bal_model.specs.declared.row.Row.{Row};
ghost use Rattle.bal_model.specs.Entries.{Entry};
ghost use Rattle.bal_rules.specs.After.{after};
ghost use Rattle.bal_rules.specs.Board.{Board};
ghost use Rattle.bal_rules.specs.Interim.{Rule};
ghost use Rattle.bal_rules.specs.Run.{IsRun, board_of};
ghost use Rattle.bal_laws.specs.Regions.{HaveNoCardOf};

/// After every run no region is older than 24. So there are never more than 25 ages, and five bits tell them apart.
pub fn no_region_is_older_than_24()
    ensures { (rule : Rule) (c : Config) (rows : List Row) (entries : List Entry)
        → IsRun rule c rows entries
        → AllByRecursion (λ (r : RegionState). age_of r.role ≤ 24) (board_of c entries).regions }
{}

/// If an event makes a region free, no list has a card of it afterwards, whatever the board was before. So what is placed
/// there next is not read for references that others left.
pub fn a_freed_region_is_on_no_list()
    ensures { (c : Config) (b : Board) (e : Entry) (q : ℕ)
        → is_free (region_at b.regions q).role ≡ false
        → is_free (region_at (after c b e).regions q).role ≡ true
        → HaveNoCardOf c.geometry q (after c b e).regions }
{}
