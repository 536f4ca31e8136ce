//! The worked journals with one event changed: no run, whether whole or broken, begins with the events up to it, whatever
//! comes after them, however it is cut into paths and whatever the order of the threads. `specs/Refused.antt` has the right
//! and the wrong event of each.
//!
//! The last ones begin no whole run, but may begin broken ones: memory may have been refused before the changed event, and a
//! second path of the row begins with it.
ghost use Rattle.bal_laws.specs.Refused.{IsRefusedThere, IsNotWholeThere, a_wrong_reply_of_a_load, a_wrong_place_of_an_allocation, a_wrong_leaf_of_an_array, a_wrong_name_of_an_object, a_row_that_was_skipped};
ghost use Rattle.bal_laws.specs.Refused.{a_wrong_number_of_a_row, a_row_that_is_not_in_the_trace, an_allocation_without_soft_room, full_without_a_collection, full_with_hard_room};
ghost use Rattle.bal_laws.specs.Refused.{full_with_soft_room, full_without_a_global_collection};
ghost use Rattle.bal_laws.specs.Refused.{a_note_of_no_reference, a_note_for_another_region, a_note_from_the_inside, a_note_of_a_card_elsewhere, a_note_of_another_card_of_a_leaf};
ghost use Rattle.bal_laws.specs.Refused.{a_card_noted_twice, a_note_into_an_overflowed_list, a_note_with_soft_room};
ghost use Rattle.bal_laws.specs.Refused.{a_survivor_left_out, one_kept_too_many, a_wrong_count_of_scans, a_wrong_choice, an_older_region_passed_over};
ghost use Rattle.bal_laws.specs.Refused.{an_overflowed_region_chosen, a_collection_before_its_notes, a_copy_into_a_used_region, more_copies_than_fit, two_loose_regions_of_a_worker};
ghost use Rattle.bal_laws.specs.Refused.{a_copy_region_shared_by_two_workers, a_worker_that_there_is_not, a_worker_beyond_the_crew, a_mark_without_a_cause, a_drained_pool_with_regions_left};
ghost use Rattle.bal_laws.specs.Refused.{a_copy_beyond_the_limit, a_wish_that_came_too_soon, a_wish_told_twice, a_collection_for_a_load};
ghost use Rattle.bal_laws.specs.Refused.{a_begin_that_is_not_due, a_global_collection_before_a_due_begin, a_second_begin, a_mark_of_a_name_that_is_not_owed, a_mark_of_a_name_before_its_holder};
ghost use Rattle.bal_laws.specs.Refused.{a_mark_of_a_listed_name, a_mark_step_with_fewer_names, a_mark_step_with_more_names, an_end_that_is_not_due, a_mark_step_where_an_end_is_due};
ghost use Rattle.bal_laws.specs.Refused.{an_end_that_takes_what_an_object_holds, an_end_that_takes_what_a_register_holds, an_end_that_takes_a_listed_name, an_end_that_takes_what_floating_garbage_holds, an_end_that_leaves_old_garbage};
ghost use Rattle.bal_laws.specs.Refused.{an_end_that_takes_what_is_gone};
ghost use Rattle.bal_laws.specs.Refused.{a_global_collection_that_keeps_garbage, a_global_collection_that_hides_a_dead_one, a_global_collection_that_loses_a_name, a_global_collection_that_packs_one_more, a_global_collection_that_packs_a_name_twice};
ghost use Rattle.bal_laws.specs.Refused.{a_global_collection_out_of_order, a_name_packed_into_the_wrong_region, a_global_collection_that_is_not_due, a_gc_without_a_collection};
ghost use Rattle.bal_laws.specs.Refused.{a_collection_with_soft_room, copies_of_two_ages_in_one_region, a_drained_pool_with_an_unused_region, a_drained_pool_of_two_workers_without_a_copy, a_wish_with_nothing_left_to_copy, a_global_collection_with_soft_room};
ghost use Rattle.bal_laws.specs.Refused.{the_higher_of_two_that_waste_as_much, the_one_that_wastes_less, one_older_region_more, a_worker_beyond_the_crew_of_two_ages, a_pool_drained_by_too_few_words};
ghost use Rattle.bal_laws.specs.Refused.{a_slot_noted_twice, an_end_that_was_left_out, a_begin_that_was_left_out};

/// The one reference of a new object is null, and the load replies a name.
pub fn a_wrong_reply_of_a_load_is_refused()
    ensures { IsRefusedThere a_wrong_reply_of_a_load }
{}

/// The lowest free region takes the first object, and not the second one.
pub fn a_wrong_place_of_an_allocation_is_refused()
    ensures { IsRefusedThere a_wrong_place_of_an_allocation }
{}

/// Leaves take the lowest free regions.
pub fn a_wrong_leaf_of_an_array_is_refused()
    ensures { IsRefusedThere a_wrong_leaf_of_an_array }
{}

/// The first object of thread 0 is 0.1.
pub fn a_wrong_name_of_an_object_is_refused()
    ensures { IsRefusedThere a_wrong_name_of_an_object }
{}

/// The first event of a thread is that of its first row, though the second row would reply so.
pub fn a_row_that_was_skipped_is_refused()
    ensures { IsRefusedThere a_row_that_was_skipped }
{}

/// A thread's rows are counted from 1.
pub fn a_wrong_number_of_a_row_is_refused()
    ensures { IsRefusedThere a_wrong_number_of_a_row }
{}

/// The trace has another row there.
pub fn a_row_that_is_not_in_the_trace_is_refused()
    ensures { IsRefusedThere a_row_that_is_not_in_the_trace }
{}

/// Eden is full: the object may not be placed in a free region before a collection.
pub fn an_allocation_without_soft_room_is_refused()
    ensures { IsRefusedThere an_allocation_without_soft_room }
{}

/// Each region is full of live objects, but nobody has looked.
pub fn full_without_a_collection_is_refused()
    ensures { IsRefusedThere full_without_a_collection }
{}

/// The global collection left room for one object in the last region.
pub fn full_with_hard_room_is_refused()
    ensures { IsRefusedThere full_with_hard_room }
{}

/// The row finds room in the current region after the collection.
pub fn full_with_soft_room_is_refused()
    ensures { IsRefusedThere full_with_soft_room }
{}

/// A partial collection found no room: before a heap may be called full a global one has to come.
pub fn full_without_a_global_collection_is_refused()
    ensures { IsRefusedThere full_without_a_global_collection }
{}

/// The holder has no such reference.
pub fn a_note_of_no_reference_is_refused()
    ensures { IsRefusedThere a_note_of_no_reference }
{}

/// The reference is there, but into region 0.
pub fn a_note_for_another_region_is_refused()
    ensures { IsRefusedThere a_note_for_another_region }
{}

/// The two objects of the ring lie in one region.
pub fn a_note_from_the_inside_is_refused()
    ensures { IsRefusedThere a_note_from_the_inside }
{}

/// The holder lies in region 1, whose cards are 4 to 7.
pub fn a_note_of_a_card_elsewhere_is_refused()
    ensures { IsRefusedThere a_note_of_a_card_elsewhere }
{}

/// The slot is word 130 of the leaf in region 1, and so on its third card.
pub fn a_note_of_another_card_of_a_leaf_is_refused()
    ensures { IsRefusedThere a_note_of_another_card_of_a_leaf }
{}

/// The list has that card already, for another holder of it.
pub fn a_card_noted_twice_is_refused()
    ensures { IsRefusedThere a_card_noted_twice }
{}

/// The second card overflowed the list, which takes no more.
pub fn a_note_into_an_overflowed_list_is_refused()
    ensures { IsRefusedThere a_note_into_an_overflowed_list }
{}

/// The reference is there, but the row finds room without a flush.
pub fn a_note_with_soft_room_is_refused()
    ensures { IsRefusedThere a_note_with_soft_room }
{}

/// An object of the ring that a register holds is lost.
pub fn a_survivor_left_out_is_refused()
    ensures { IsRefusedThere a_survivor_left_out }
{}

/// Nothing holds the ring, and it is dragged along.
pub fn one_kept_too_many_is_refused()
    ensures { IsRefusedThere one_kept_too_many }
{}

/// Each kept object is scanned once.
pub fn a_wrong_count_of_scans_is_refused()
    ensures { IsRefusedThere a_wrong_count_of_scans }
{}

/// The one region of eden has to be chosen.
pub fn a_wrong_choice_is_refused()
    ensures { IsRefusedThere a_wrong_choice }
{}

/// Region 1 has dead words since the sweep.
pub fn an_older_region_passed_over_is_refused()
    ensures { IsRefusedThere an_older_region_passed_over }
{}

/// Both regions waste 224 words.
pub fn the_higher_of_two_that_waste_as_much_is_refused()
    ensures { IsRefusedThere the_higher_of_two_that_waste_as_much }
{}

/// Region 0 wastes 192 words, and region 1 wastes 224.
pub fn the_one_that_wastes_less_is_refused()
    ensures { IsRefusedThere the_one_that_wastes_less }
{}

/// One older region may be chosen.
pub fn one_older_region_more_is_refused()
    ensures { IsRefusedThere one_older_region_more }
{}

/// Nobody knows which cards refer into it.
pub fn an_overflowed_region_chosen_is_refused()
    ensures { IsRefusedThere an_overflowed_region_chosen }
{}

/// The card of the old holder was not flushed: the region is referred to, and its list is empty.
pub fn a_collection_before_its_notes_is_refused()
    ensures { IsRefusedThere a_collection_before_its_notes }
{}

/// Region 1 is no free one.
pub fn a_copy_into_a_used_region_is_refused()
    ensures { IsRefusedThere a_copy_into_a_used_region }
{}

/// The ninth object no longer fits into the region.
pub fn more_copies_than_fit_is_refused()
    ensures { IsRefusedThere more_copies_than_fit }
{}

/// A worker takes a second region only when the first is well filled.
pub fn two_loose_regions_of_a_worker_is_refused()
    ensures { IsRefusedThere two_loose_regions_of_a_worker }
{}

/// Two workers bump the same region.
pub fn a_copy_region_shared_by_two_workers_is_refused()
    ensures { IsRefusedThere a_copy_region_shared_by_two_workers }
{}

/// The only worker is number 0.
pub fn a_worker_that_there_is_not_is_refused()
    ensures { IsRefusedThere a_worker_that_there_is_not }
{}

/// There are four workers, but three free regions feed one of them alone.
pub fn a_worker_beyond_the_crew_is_refused()
    ensures { IsRefusedThere a_worker_beyond_the_crew }
{}

/// Objects are marked in place only where the evacuation was abandoned.
pub fn a_mark_without_a_cause_is_refused()
    ensures { IsRefusedThere a_mark_without_a_cause }
{}

/// Three regions are free, and none of them was used.
pub fn a_drained_pool_with_regions_left_is_refused()
    ensures { IsRefusedThere a_drained_pool_with_regions_left }
{}

/// A worker may copy one object, and the second one copies two.
pub fn a_copy_beyond_the_limit_is_refused()
    ensures { IsRefusedThere a_copy_beyond_the_limit }
{}

/// The worker stops after two copies, where it may make three.
pub fn a_wish_that_came_too_soon_is_refused()
    ensures { IsRefusedThere a_wish_that_came_too_soon }
{}

/// Each cause stands once.
pub fn a_wish_told_twice_is_refused()
    ensures { IsRefusedThere a_wish_told_twice }
{}

/// The object finds room in the current region.
pub fn a_collection_with_soft_room_is_refused()
    ensures { IsRefusedThere a_collection_with_soft_room }
{}

/// Two objects come from an older region, and one from eden.
pub fn copies_of_two_ages_in_one_region_is_refused()
    ensures { IsRefusedThere copies_of_two_ages_in_one_region }
{}

/// The worker copies alone, and into none of the free regions.
pub fn a_drained_pool_with_an_unused_region_is_refused()
    ensures { IsRefusedThere a_drained_pool_with_an_unused_region }
{}

/// Seven regions are free, and two workers hold two of them at most.
pub fn a_drained_pool_of_two_workers_without_a_copy_is_refused()
    ensures { IsRefusedThere a_drained_pool_of_two_workers_without_a_copy }
{}

/// Six free regions feed one worker, if copies get two ages.
pub fn a_worker_beyond_the_crew_of_two_ages_is_refused()
    ensures { IsRefusedThere a_worker_beyond_the_crew_of_two_ages }
{}

/// Four regions are free and two workers hold two of them open. The other two would have more than 448 words, which is what was
/// copied.
pub fn a_pool_drained_by_too_few_words_is_refused()
    ensures { IsRefusedThere a_pool_drained_by_too_few_words }
{}

/// All that is kept was copied, so the worker had nothing to stop for.
pub fn a_wish_with_nothing_left_to_copy_is_refused()
    ensures { IsRefusedThere a_wish_with_nothing_left_to_copy }
{}

/// A row that asks for no room collects nothing.
pub fn a_collection_for_a_load_is_refused()
    ensures { IsRefusedThere a_collection_for_a_load }
{}

/// A cycle begins after two partial collections, and this was the first.
pub fn a_begin_that_is_not_due_is_refused()
    ensures { IsRefusedThere a_begin_that_is_not_due }
{}

/// The beginning of a cycle is due after the fourth partial collection.
pub fn a_global_collection_before_a_due_begin_is_refused()
    ensures { IsRefusedThere a_global_collection_before_a_due_begin }
{}

/// A cycle runs: a step of it is due.
pub fn a_second_begin_is_refused()
    ensures { IsRefusedThere a_second_begin }
{}

/// Nothing that was reached refers to the object.
pub fn a_mark_of_a_name_that_is_not_owed_is_refused()
    ensures { IsRefusedThere a_mark_of_a_name_that_is_not_owed }
{}

/// The object is owed only once its holder is listed.
pub fn a_mark_of_a_name_before_its_holder_is_refused()
    ensures { IsRefusedThere a_mark_of_a_name_before_its_holder }
{}

/// The step before listed it.
pub fn a_mark_of_a_listed_name_is_refused()
    ensures { IsRefusedThere a_mark_of_a_listed_name }
{}

/// The step may list one name, and two are owed.
pub fn a_mark_step_with_fewer_names_is_refused()
    ensures { IsRefusedThere a_mark_step_with_fewer_names }
{}

/// A step lists one name.
pub fn a_mark_step_with_more_names_is_refused()
    ensures { IsRefusedThere a_mark_step_with_more_names }
{}

/// The step before listed as many names as it may, so there may be more.
pub fn an_end_that_is_not_due_is_refused()
    ensures { IsRefusedThere an_end_that_is_not_due }
{}

/// The step before found no more names.
pub fn a_mark_step_where_an_end_is_due_is_refused()
    ensures { IsRefusedThere a_mark_step_where_an_end_is_due }
{}

/// The reference moved to an object that was listed before, so its target is never listed. It is alive all the same.
pub fn an_end_that_takes_what_an_object_holds_is_refused()
    ensures { IsRefusedThere an_end_that_takes_what_an_object_holds }
{}

/// The object was loaded before its holder was listed, and is never listed itself.
pub fn an_end_that_takes_what_a_register_holds_is_refused()
    ensures { IsRefusedThere an_end_that_takes_what_a_register_holds }
{}

/// The object became garbage once it was listed: it floats until the next cycle.
pub fn an_end_that_takes_a_listed_name_is_refused()
    ensures { IsRefusedThere an_end_that_takes_a_listed_name }
{}

/// The object is garbage and was never listed, but floating garbage refers to it.
pub fn an_end_that_takes_what_floating_garbage_holds_is_refused()
    ensures { IsRefusedThere an_end_that_takes_what_floating_garbage_holds }
{}

/// The object was garbage when the cycle began.
pub fn an_end_that_leaves_old_garbage_is_refused()
    ensures { IsRefusedThere an_end_that_leaves_old_garbage }
{}

/// An evacuation took the other object long before.
pub fn an_end_that_takes_what_is_gone_is_refused()
    ensures { IsRefusedThere an_end_that_takes_what_is_gone }
{}

/// Nothing refers to the last of the four.
pub fn a_global_collection_that_keeps_garbage_is_refused()
    ensures { IsRefusedThere a_global_collection_that_keeps_garbage }
{}

/// The last of the four is neither dead nor packed.
pub fn a_global_collection_that_hides_a_dead_one_is_refused()
    ensures { IsRefusedThere a_global_collection_that_hides_a_dead_one }
{}

/// A register holds the last object.
pub fn a_global_collection_that_loses_a_name_is_refused()
    ensures { IsRefusedThere a_global_collection_that_loses_a_name }
{}

/// One name is packed twice.
pub fn a_global_collection_that_packs_one_more_is_refused()
    ensures { IsRefusedThere a_global_collection_that_packs_one_more }
{}

/// One name is packed twice, and another one not at all.
pub fn a_global_collection_that_packs_a_name_twice_is_refused()
    ensures { IsRefusedThere a_global_collection_that_packs_a_name_twice }
{}

/// The lowest region is packed first.
pub fn a_global_collection_out_of_order_is_refused()
    ensures { IsRefusedThere a_global_collection_out_of_order }
{}

/// There is room left in region 0.
pub fn a_name_packed_into_the_wrong_region_is_refused()
    ensures { IsRefusedThere a_name_packed_into_the_wrong_region }
{}

/// An allocation makes a partial collection first.
pub fn a_global_collection_that_is_not_due_is_refused()
    ensures { IsRefusedThere a_global_collection_that_is_not_due }
{}

/// There is soft room after the partial collection.
pub fn a_global_collection_with_soft_room_is_refused()
    ensures { IsRefusedThere a_global_collection_with_soft_room }
{}

/// A `gc` has its global collection first.
pub fn a_gc_without_a_collection_is_refused()
    ensures { IsRefusedThere a_gc_without_a_collection }
{}

/// The slot was noted already, with another card of the same region.
pub fn a_slot_noted_twice_is_no_whole_run()
    ensures { IsNotWholeThere a_slot_noted_twice }
{}

/// The step before found no more names, so the end of the cycle is due.
pub fn an_end_that_was_left_out_is_no_whole_run()
    ensures { IsNotWholeThere an_end_that_was_left_out }
{}

/// The beginning of a cycle is due after the second partial collection.
pub fn a_begin_that_was_left_out_is_no_whole_run()
    ensures { IsNotWholeThere a_begin_that_was_left_out }
{}
