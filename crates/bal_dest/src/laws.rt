//! What a commit does to the objects of a worker's regions.
ghost use Rattle.std.specs.Prelude.{◌≡◌, ◌+◌, ℕ, List, None, Some, length};
ghost use Rattle.bal_dest.specs.Buffers.{Buffers, IsBuffers, age_at, land_at, with_copy};
ghost use Rattle.bal_dest.specs.declared.buffers.Reservation.{Reservation};
ghost use Rattle.bal_region.specs.Land.{IsObject, object_at};

/// A committed object starts where its words were reserved, at the end of what was given out, and no object started there. It
/// is the only change: all other objects of its region stay, and so do all other regions, and every age.
pub fn a_copy_is_the_only_change()
    ensures free { (b : Buffers) (r : Reservation) → IsBuffers b → b.reserved ≡ Some r
        → object_at (land_at b r.place) (land_at b r.place).used ≡ None }
    ensures placed { (b : Buffers) (r : Reservation) (object : List ℕ) → IsBuffers b → b.reserved ≡ Some r → r.words ≡ length object
        → IsObject b.shape.words object → object_at (land_at (with_copy b object) r.place) (land_at b r.place).used ≡ Some object }
    ensures stays { (b : Buffers) (r : Reservation) (object : List ℕ) (offset : ℕ) → IsBuffers b → b.reserved ≡ Some r → r.words ≡ length object
        → IsObject b.shape.words object → (offset ≡ (land_at b r.place).used → ⊥)
        → object_at (land_at (with_copy b object) r.place) offset ≡ object_at (land_at b r.place) offset }
    ensures used { (b : Buffers) (r : Reservation) (object : List ℕ) → IsBuffers b → b.reserved ≡ Some r
        → (land_at (with_copy b object) r.place).used ≡ (land_at b r.place).used + length object }
    ensures other { (b : Buffers) (r : Reservation) (object : List ℕ) (place : ℕ) → b.reserved ≡ Some r → (place ≡ r.place → ⊥)
        → land_at (with_copy b object) place ≡ land_at b place }
    ensures age { (b : Buffers) (object : List ℕ) (place : ℕ) → IsBuffers b → age_at (with_copy b object) place ≡ age_at b place }
{}
