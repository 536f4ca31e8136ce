//! Traces with their journals, worked out by hand: each journal is the one that `replay` may write, from the first event to
//! the last. What happens in a trace is told here; `specs/Worked.antt`, `specs/WorkedMore.antt`, `specs/WorkedGlobal.antt` and
//! `specs/WorkedPartial.antt` have its rows and its events.
ghost use Rattle.bal_laws.specs.Worked.{IsWorked, IsWorkedBy, first_load, nil_and_slot, held_by_a_global, held_three_times, a_held_ring, a_dropped_ring, held_by_an_old_object, held_by_garbage, an_overflowed_list, marked_in_place, abandoned_midway, a_drained_pool, a_dead_array, a_full_heap, too_large_an_array, a_mark_cycle, two_workers, one_of_two_stops};
ghost use Rattle.bal_laws.specs.WorkedGlobal.{full_when_nothing_dies, gc_of_an_empty_heap, seven_of_eight_die};
ghost use Rattle.bal_laws.specs.WorkedMore.{few_regions_for_four, floating_garbage, held_by_an_old_array, an_older_region, a_region_for_each_age, copied_to_the_limit, held_by_a_second_leaf, counted_anew, one_of_two_that_waste_as_much, the_one_that_wastes_more, full_with_gaps, few_regions_for_two_ages, sixteen_alive, noted_before_a_placement};
ghost use Rattle.bal_laws.specs.WorkedPartial.{marked_in_place_twice, full_after_four_collections};
ghost use Rattle.bal_rules.specs.Interim.{compacting, evacuating, noting};

/// A thread makes an object and loads its one reference: the reply is null.
pub fn a_new_object_refers_to_nothing()
    ensures { IsWorked first_load }
{}

/// A load through a register that is null replies `nil`, and one of a slot that the object lacks replies `slot`. Neither
/// allocates, so no collection comes.
pub fn a_load_through_null_or_past_the_slots()
    ensures { IsWorked nil_and_slot }
{}

/// Two registers and a global hold one object when eden is full. It is kept once, and afterwards a store through one
/// register is seen by a load through the other.
pub fn what_is_held_three_times_is_copied_once()
    ensures { IsWorked held_three_times }
{}

/// A global alone holds an object when eden is full. It is kept, and loaded from the global afterwards.
pub fn what_a_global_alone_holds_is_kept()
    ensures { IsWorked held_by_a_global }
{}

/// A register holds one object of a ring, and the evacuation copies the whole ring. No card is noted, since the
/// references stay inside the region.
pub fn a_held_ring_is_kept()
    ensures { IsWorked a_held_ring }
{}

/// The register lets go of the ring, and the next evacuation leaves it after, though its objects still refer to each
/// other.
pub fn a_dropped_ring_is_gone()
    ensures { IsWorked a_dropped_ring }
{}

/// An object that was copied out of eden comes to hold a young one that no register holds. The write barrier left a
/// card, the flush notes it, and the evacuation keeps the young object.
pub fn a_card_finds_the_old_holder()
    ensures { IsWorked held_by_an_old_object }
{}

/// The old holder is garbage, but lies in a region that no partial collection chooses, so the young object is kept with
/// it: nepotism. The global collection of a `gc` takes both.
pub fn garbage_still_keeps_what_it_holds()
    ensures { IsWorked held_by_garbage }
{}

/// A remembered list may hold one card and gets two, so it overflows. The collection chooses nothing then: the region
/// ages as it is, until a global collection empties its list and it is chosen like any other.
pub fn an_overflowed_region_is_passed_over()
    ensures { IsWorked an_overflowed_list }
{}

/// The worker wishes to stop before its first copy. The two live objects are marked where they lie, and the region stays
/// with the words of those that were not kept, as waste. So the next object goes to another region.
pub fn a_worker_that_wishes_at_once_marks_in_place()
    ensures { IsWorked marked_in_place }
{}

/// The worker wishes to stop after three copies. Three objects have moved and four are marked, so two regions are taken.
pub fn a_worker_that_wishes_midway_marks_the_rest()
    ensures { IsWorked abandoned_midway }
{}

/// Two regions of eden are full of live objects and one region is free. Half of the objects are copied there, the pool is
/// drained, and the others are marked.
pub fn a_drained_pool_marks_the_rest()
    ensures { IsWorked a_drained_pool }
{}

/// Nothing holds the array when eden is collected, so it is gone and its leaf is a free region again: the next collection
/// copies into it. No card of the store into the array is noted: a leaf is collected with its array.
pub fn a_dead_array_frees_its_leaf()
    ensures { IsWorked a_dead_array }
{}

/// Thread 0 fills the heap with live objects. Thread 1 asks for room, a partial and a global collection find none, and
/// the reply is `full`. Once thread 0 drops one object the same request is placed.
pub fn a_full_heap_is_told_and_has_room_again()
    ensures { IsWorked a_full_heap }
{}

/// An array wants more leaves than there are regions: `full`, after a partial and a global collection of nothing.
pub fn an_array_larger_than_the_heap_is_full()
    ensures { IsWorked too_large_an_array }
{}

/// A mark cycle runs over three steps while the program goes on. It moves a reference from an object that is not listed
/// yet to one that is, and the object after it stays. What was garbage at the beginning is gone at the end.
pub fn a_mark_cycle_keeps_what_was_moved()
    ensures { IsWorked a_mark_cycle }
{}

/// Two workers share an evacuation, and each fills a region of its own.
pub fn two_workers_copy_into_their_own_regions()
    ensures { IsWorked two_workers }
{}

/// Two workers may copy one object each. Both do, and one of them marks what is left.
pub fn one_worker_stops_and_the_other_goes_on()
    ensures { IsWorked one_of_two_stops }
{}

/// Four workers are there, and three free regions: at most half of the pool may lie in open buffers, so one worker copies
/// alone.
pub fn few_free_regions_feed_one_worker()
    ensures { IsWorked few_regions_for_four }
{}

/// An object is listed, comes to hold another one, and is dropped. Both stay at the end of the cycle, as floating garbage;
/// what was garbage when the cycle began goes.
pub fn floating_garbage_stays_for_a_cycle()
    ensures { IsWorked floating_garbage }
{}

/// An array was copied out of eden, its leaf stays where it is, and a slot of it comes to hold a young object. The card is
/// that of the slot in the leaf, and the evacuation keeps the young object.
pub fn a_card_of_a_leaf_finds_the_old_array()
    ensures { IsWorked held_by_an_old_array }
{}

/// The sweep of a mark cycle found dead words in an older region. The next partial collection takes it beside eden: what is
/// alive there moves on, the floating garbage is not kept, and the collection after that copies into the region.
pub fn an_older_region_with_waste_is_chosen()
    ensures { IsWorked an_older_region }
{}

/// One collection takes eden and an older region. What it copies gets the next age, so that the two ages go to two regions,
/// though one worker copies all and both regions have much room left.
pub fn each_age_has_its_own_copy_region()
    ensures { IsWorked a_region_for_each_age }
{}

/// The worker may copy seven objects, and seven are alive. It copies them all and does not wish to stop.
pub fn a_worker_at_its_limit_has_no_wish()
    ensures { IsWorked copied_to_the_limit }
{}

/// An array has two leaves, and a slot in the second comes to hold a young object. The card is that of the word in the second
/// leaf.
pub fn a_card_of_a_second_leaf_finds_the_old_array()
    ensures { IsWorked held_by_a_second_leaf }
{}

/// A mark cycle begins after two partial collections. A `gc` comes after the first, so none begins after the second.
pub fn a_global_collection_starts_the_count_anew()
    ensures { IsWorked counted_anew }
{}

/// Two older regions waste as many words, and one may be chosen: it is the lower one.
pub fn of_equal_waste_the_lower_region_is_chosen()
    ensures { IsWorked one_of_two_that_waste_as_much }
{}

/// Two older regions waste, and one may be chosen: it is the one that wastes more. Nothing in it is alive, so it is free
/// again, and takes the next object.
pub fn the_region_that_wastes_more_is_chosen()
    ensures { IsWorked the_one_that_wastes_more }
{}

/// Objects fill each region but for eight words. The heap has room for one more in all, but no region has, and the reply is
/// `full`.
pub fn a_heap_with_gaps_may_be_full()
    ensures { IsWorked full_with_gaps }
{}

/// Four workers are there, and six free regions. Copies get two ages, so that each worker would hold two buffers: one copies
/// alone.
pub fn two_ages_take_twice_the_regions()
    ensures { IsWorked few_regions_for_two_ages }
{}

/// Two workers are there, and one of them copies all sixteen objects into two full regions. The other has nothing to do.
pub fn one_of_two_workers_may_copy_all()
    ensures { IsWorked sixteen_alive }
{}

/// As far as the collector is built: no collection comes yet, but an object that finds no soft room is placed only after
/// the dirty cards were flushed, and the flush notes the reference from the full region into the next one.
pub fn a_flush_comes_before_a_placement()
    ensures { IsWorkedBy noting noted_before_a_placement }
{}

/// Where all collections are global, `gc` on an empty heap has its collection too: nothing dies, and nothing is packed.
pub fn a_gc_of_an_empty_heap_takes_nothing()
    ensures { IsWorkedBy compacting gc_of_an_empty_heap }
{}

/// Eight objects fill a region, and one of them is held when the ninth finds no soft room. The global collection takes the
/// other seven, and the ninth lies behind the one that is packed.
pub fn a_global_collection_makes_room()
    ensures { IsWorkedBy compacting seven_of_eight_die }
{}

/// Two regions may be eden, so the third and the fourth are begun after a global collection each, in which nothing dies. Only
/// when all four are full of live objects is the reply `full`. Once one object is dropped the others move up into the gap, and
/// the same request is placed.
pub fn nothing_dies_and_at_last_the_heap_is_full()
    ensures { IsWorkedBy compacting full_when_nothing_dies }
{}

/// Where partial collections come first and no mark cycle runs, what two registers and a global hold is kept once, too.
pub fn an_evacuation_copies_once_what_is_held_three_times()
    ensures { IsWorkedBy evacuating held_three_times }
{}

/// The worker may not copy at all, and wishes to stop at once: the two objects are marked where they lie.
pub fn an_evacuation_that_is_abandoned_at_once_moves_nothing()
    ensures { IsWorkedBy evacuating marked_in_place }
{}

/// Eden is collected twice, each time by a worker that may not copy. The first time its region is left with waste. So the second
/// collection chooses it beside eden, and what lives there is marked again.
pub fn a_region_that_was_marked_in_place_is_chosen_again()
    ensures { IsWorkedBy evacuating marked_in_place_twice }
{}

/// Four partial collections fill the heap, and no mark cycle begins after the fourth: a global collection comes at once. It takes
/// nothing, and the reply is `full`. Once one object is dropped the same request is placed.
pub fn a_global_collection_follows_where_an_evacuation_made_no_room()
    ensures { IsWorkedBy evacuating full_after_four_collections }
{}
