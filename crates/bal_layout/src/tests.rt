use crate::{
    Geometry, GeometryFault, Header, Kind, Name, Role, Want, charge, read_header, target_of,
    want_arr, want_new, word_of, write_header,
};
use std::process::Abort;
use std::test::Fail;

// Two numbers are no geometry, for this fault.
fn is_refused(rt: &impl Abort, regions: u64, words: u64, fault: GeometryFault) {
    let Err(found) = Geometry::new(regions, words) else {
        panic!(rt; "{regions} by {words}")
    };
    assert!(rt; found == fault, "{regions} by {words}");
}

// What is asked for is so many words and leaves, or too big.
fn asks(rt: &impl Abort, found: Option<Want>, expected: Option<(u32, u32)>) {
    match (found, expected) {
        (Some(want), Some((words, leaves))) => {
            assert!(rt;
                want.words == words && want.leaves == leaves,
                "{words} {leaves}"
            );
        }
        (None, None) => {}
        _ => panic!(rt; "too big, or not"),
    }
}

// An address, or none.
fn leads(rt: &impl Abort, word: u64, expected: Option<u32>) {
    if word <= 1 << 32 {
        assert_eq!(rt; target_of(word), expected);
    }
}

#[test]
fn a_geometry_is_refused_for_its_first_fault(rt: HostRuntime) {
    for (regions, words, fault) in [
        (3, 256, GeometryFault::RegionsRange),
        (3, 128, GeometryFault::RegionsRange),
        (4, 128, GeometryFault::WordsRange),
        (4, 300, GeometryFault::WordsPower),
        (257, 65536, GeometryFault::TooLarge),
    ] {
        is_refused(&rt, regions, words, fault);
    }
    assert!(rt; Geometry::new(256, 65536).is_ok());
}

// A region of 256 words has pieces of up to 32, of which the header and the name take two.
#[test]
fn an_object_is_as_large_as_an_eighth_of_a_region(rt: HostRuntime) -> Result<(), Fail> {
    let geometry = Geometry::new(4, 256)?;
    assert!(rt; geometry.regions() == 4 && geometry.words() == 256 && geometry.largest() == 32);
    asks(&rt, want_new(&geometry, 10, 20), Some((32, 0)));
    asks(&rt, want_new(&geometry, 10, 21), None);
    Ok(())
}

// Each header with its two words: the first word is kind + 256 * references + 2^32 * values, the second
// 2^32 * thread + ordinal.
#[test]
fn a_header_is_two_words(rt: HostRuntime) {
    for (kind, refs, values, thread, ordinal, first, second) in [
        (Kind::Plain, 1, 2, 0, 1, 8589934849, 1),
        (Kind::Plain, 0, 0, 3, 7, 1, 12884901895),
        (Kind::Array, 0, 0, 0, 1, 2, 1),
        (Kind::Array, 30, 0, 31, 4294967295, 7682, 137438953471),
        (Kind::Spine, 7680, 0, 0, 1, 1966083, 1),
        (Kind::Plain, 16777215, 0, 0, 1, 4294967041, 1),
        (Kind::Spine, 16777215, 0, 0, 1, 4294967043, 1),
        (Kind::Plain, 0, 16777215, 0, 1, 72057589742960641, 1),
    ] {
        let header = Header {
            kind,
            refs,
            values,
            name: Name { thread, ordinal },
        };
        assert!(rt;
            write_header(&header) == (first, second),
            "{first} {second}"
        );
        assert!(rt;
            read_header(first, second) == Some(header),
            "{first} {second}"
        );
    }
}

#[test]
fn other_words_are_no_header(rt: HostRuntime) {
    for (first, second) in [
        // No kind.
        (0, 1),
        (4, 1),
        (255, 1),
        // 2^24 values.
        (72057594037927937, 1),
        // An array and a spine with a value.
        (4294967298, 1),
        (4294967299, 1),
        // Ordinal 0, of thread 0 and of thread 3.
        (1, 0),
        (1, 12884901888),
        // Thread 32.
        (1, 137438953473),
        (u64::MAX, u64::MAX),
    ] {
        assert!(rt; read_header(first, second).is_none(), "{first} {second}");
    }
}

// With regions of 256 words an array of 30 slots takes 32 words, one of 31 has a spine, and a spine has room for 30
// leaves of 256 slots.
#[test]
fn an_array_asks_for_words_or_for_leaves(rt: HostRuntime) -> Result<(), Fail> {
    let geometry = Geometry::new(4, 256)?;
    for (len, words, leaves, whole) in [
        (0, 2, 0, 2),
        (30, 32, 0, 32),
        (31, 3, 1, 259),
        (256, 3, 1, 259),
        (257, 4, 2, 516),
        (7680, 32, 30, 7712),
    ] {
        asks(&rt, want_arr(&geometry, len), Some((words, leaves)));
        assert!(rt;
            charge(&geometry, &Want { words, leaves }) == whole,
            "{len}"
        );
    }
    for len in [7681, 16777215, 16777216, u64::MAX] {
        asks(&rt, want_arr(&geometry, len), None);
    }
    // With the largest regions it is the number of slots that is too large.
    let wide = Geometry::new(4, 65536)?;
    asks(&rt, want_arr(&wide, 16777215), Some((258, 256)));
    asks(&rt, want_arr(&wide, 16777216), None);
    Ok(())
}

#[test]
fn an_address_is_a_region_and_a_place_in_it(rt: HostRuntime) -> Result<(), Fail> {
    let geometry = Geometry::new(4, 256)?;
    for (region, offset, address, card) in [
        (0, 0, 0, 0),
        (0, 63, 63, 0),
        (0, 64, 64, 1),
        (0, 255, 255, 3),
        (1, 0, 256, 4),
        (2, 70, 582, 9),
        (3, 255, 1023, 15),
    ] {
        assert!(rt; geometry.address(region, offset) == address, "{address}");
        assert!(rt; geometry.region_of(address) == region, "{address}");
        assert!(rt; geometry.offset_of(address) == offset, "{address}");
        assert!(rt; geometry.card_of(address) == card, "{address}");
    }
    Ok(())
}

#[test]
fn a_reference_is_null_or_one_more_than_an_address(rt: HostRuntime) {
    leads(&rt, 0, None);
    for address in [0, 1, 582, u32::MAX] {
        leads(&rt, word_of(address), Some(address));
    }
}

#[test]
fn a_role_is_free_or_of_objects_or_neither(rt: HostRuntime) {
    for (role, free, object, eden) in [
        (Role::Free, true, false, false),
        (Role::Object { age: 0 }, false, true, true),
        (Role::Object { age: 24 }, false, true, false),
        (Role::Leaf, false, false, false),
    ] {
        assert!(rt; role.is_free() == free && role.is_object() == object && role.is_eden() == eden);
    }
}
