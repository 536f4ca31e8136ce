//! What the copies make of the regions.
ghost use Rattle.std.specs.Prelude.{◌≡◌, ℕ, IsTrue, Some};
ghost use Rattle.bal_core.specs.World.{At};
ghost use Rattle.bal_core.specs.declared.event.Decision.TheVariants as decision;
ghost use Rattle.bal_core.specs.Steps.{told};
ghost use Rattle.bal_dest.specs.declared.buffers.Destination.{Destination};
ghost use Rattle.bal_evacuate.specs.Course.{Course};
ghost use Rattle.bal_evacuate.specs.Plan.{IsCopied, IsCopyAt, Plan, words_in};
ghost use Rattle.bal_layout.specs.Addresses.{offset_of, region_of};
ghost use Rattle.bal_region.specs.Land.{object_at, starts_at};

/// Where an object was copied to, it starts, with its words; and no other object starts in a region of survivors.
pub fn copies_lie_where_they_were_copied_to()
    ensures there { (p : Plan) (c : Course) (i k a : ℕ) → IsCopied p c → At c.won i (told k (decision.Copied a))
        → (j : ℕ) × (d : Destination) × At c.buffers.regions j d × (d.region.number ≡ region_of p.shape a)
        × (object_at d.region (offset_of p.shape a) ≡ Some (words_in p.graph k)) }
    ensures only { (p : Plan) (c : Course) (j s : ℕ) (d : Destination) → IsCopied p c → At c.buffers.regions j d
        → IsTrue (starts_at d.region s) → IsCopyAt p c d.region.number s }
{}
