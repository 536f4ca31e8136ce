ghost use Rattle.std.specs.Prelude.{◌≡◌, ◌<◌, ◌≤◌, ◌^◌, IfSome, false, length};
ghost use Rattle.bal_region.specs.Land.{IsBehindHeaders, IsObject};

use crate::Region;
use bal_layout::{Header, Kind, Name, write_header};
use std::process::Abort;
use std::test::Fail;

// What may be sent to other threads, and be read by several at once.
fn crosses<T: Send + Sync>() {}

#[test]
fn a_region_may_cross_threads() {
    crosses::<Region>();
}

// An offset, or none.
fn finds(rt: &impl Abort, found: Option<u32>, expected: Option<u32>) {
    assert_eq!(rt; found, expected);
}

// The words of the object that has a word at an offset.
fn holds(rt: &impl Abort, region: &Region, offset: u32, expected: &[u64]) {
    assert!(rt; held(region, offset) == Some(expected));
}

// A word is that.
fn reads(rt: &impl Abort, region: &Region, offset: u32, expected: u64) {
    assert!(rt; read(region, offset) == Some(expected));
}

// How many words were given out.
fn gave(rt: &impl Abort, region: &Region, used: u32) {
    assert!(rt; region.used() == used);
}

// Places a new object with so many references, if it fits, and answers where.
fn put(region: &mut Region, refs: u32, ordinal: u32) -> Option<u32>
    requires few { refs < 2 ^ 24 }
    requires first { 1 ≤ ordinal }
{
    let (first, second) = write_header(&Header {
        kind: Kind::Plain,
        refs,
        values: 0,
        name: Name { thread: 0, ordinal },
    });
    if !region.fits(2 + refs) {
        return None;
    }
    Some(region.place_new(first, second, 2 + refs))
}

// The words of the object that has a word there.
fn held(region: &Region, offset: u32) -> Option<&[u64]>
    ensures { IfSome result (λ words. IsObject (length region.now.words) words.now) }
{
    let start = region.holder_of(offset)?;
    Some(region.object(start))
}

// Copies the object that has a word there to another region of this size, if it fits.
fn copy(from: &Region, offset: u32, to: &mut Region) -> Option<u32> {
    let words = held(from, offset)?;
    let size = u32::try_from(words.len()).ok()?;
    if from.words() != to.words() || !to.fits(size) {
        return None;
    }
    Some(to.place(words))
}

// Whether no word may be written there: no region's word, or an object's header or name.
fn is_fixed(region: &Region, offset: u32) -> bool
    ensures within { result ≡ false → offset < length region.now.words }
    ensures behind { result ≡ false → IsBehindHeaders region.now offset }
{
    if offset >= region.words() {
        return true;
    }
    let Some(start) = region.holder_of(offset) else {
        return false;
    };
    offset - start < 2
}

// Writes a word if one may be written.
fn write(region: &mut Region, offset: u32, value: u64) {
    if !is_fixed(region, offset) {
        region.set_word(offset, value);
    }
}

// Takes away the first object from an offset on.
fn take(region: &mut Region, offset: u32) -> Option<u32> {
    let start = region.first_from(offset)?;
    region.remove(start);
    Some(start)
}

// Moves the first object to the first word.
fn slide_first(region: &mut Region) -> Option<u32> {
    if region.used() == 0 {
        return None;
    }
    let start = region.first_from(0)?;
    region.slide(start, 0);
    Some(start)
}

// The word at an offset, if there is one.
fn read(region: &Region, offset: u32) -> Option<u64> {
    if offset >= region.words() {
        return None;
    }
    Some(region.word(offset))
}

// Objects of 5, 7 and 2 words.
fn three_objects(region: &mut Region) {
    put(region, 3, 1);
    put(region, 5, 2);
    put(region, 0, 3);
}

// The first word is kind + 256 * references, the second the ordinal.
#[test]
fn a_new_object_is_zero_behind_its_header(rt: HostRuntime) -> Result<(), Fail> {
    let mut region = Region::make(rt.alloc(), 256)?;
    for offset in 0..256 {
        write(&mut region, offset, 7);
    }
    finds(&rt, put(&mut region, 3, 9), Some(0));
    holds(&rt, &region, 0, &[769, 9, 0, 0, 0]);
    reads(&rt, &region, 5, 7);
    gave(&rt, &region, 5);
    Ok(())
}

#[test]
fn a_region_is_filled_to_its_last_word(rt: HostRuntime) -> Result<(), Fail> {
    let mut region = Region::make(rt.alloc(), 256)?;
    for (ordinal, offset) in [(1, 0), (2, 64), (3, 128)] {
        finds(&rt, put(&mut region, 62, ordinal), Some(offset));
    }
    assert!(rt; region.fits(64));
    assert!(rt; !region.fits(65));
    finds(&rt, put(&mut region, 62, 4), Some(192));
    assert!(rt; region.fits(0));
    assert!(rt; !region.fits(1));
    finds(&rt, put(&mut region, 0, 5), None);
    finds(&rt, region.holder_of(255), Some(192));
    Ok(())
}

#[test]
fn an_object_is_found_by_each_of_its_words(rt: HostRuntime) -> Result<(), Fail> {
    let mut region = Region::make(rt.alloc(), 256)?;
    finds(&rt, region.holder_of(0), None);
    three_objects(&mut region);
    for (offset, start) in [
        (0, Some(0)),
        (2, Some(0)),
        (4, Some(0)),
        (5, Some(5)),
        (11, Some(5)),
        (12, Some(12)),
        (13, Some(12)),
        (14, None),
        (255, None),
        (u32::MAX, None),
    ] {
        finds(&rt, region.holder_of(offset), start);
    }
    Ok(())
}

#[test]
fn objects_are_gone_over_in_order(rt: HostRuntime) -> Result<(), Fail> {
    let mut region = Region::make(rt.alloc(), 256)?;
    finds(&rt, region.first_from(0), None);
    three_objects(&mut region);
    for (offset, start) in [
        (0, Some(0)),
        (1, Some(5)),
        (5, Some(5)),
        (6, Some(12)),
        (12, Some(12)),
        (13, None),
        (256, None),
    ] {
        finds(&rt, region.first_from(offset), start);
    }
    Ok(())
}

// The objects have 200, 2 and 2 words.
#[test]
fn an_object_is_found_from_afar(rt: HostRuntime) -> Result<(), Fail> {
    let mut region = Region::make(rt.alloc(), 2048)?;
    put(&mut region, 198, 1);
    put(&mut region, 0, 2);
    put(&mut region, 0, 3);
    for (offset, first, holder) in [
        (0, Some(0), Some(0)),
        (63, Some(200), Some(0)),
        (64, Some(200), Some(0)),
        (199, Some(200), Some(0)),
        (200, Some(200), Some(200)),
        (201, Some(202), Some(200)),
        (203, None, Some(202)),
        (2047, None, None),
    ] {
        finds(&rt, region.first_from(offset), first);
        finds(&rt, region.holder_of(offset), holder);
    }
    finds(&rt, take(&mut region, 1), Some(200));
    finds(&rt, region.first_from(1), Some(202));
    finds(&rt, region.holder_of(200), None);
    finds(&rt, region.holder_of(199), Some(0));
    Ok(())
}

#[test]
fn an_object_is_written_and_copied(rt: HostRuntime) -> Result<(), Fail> {
    let mut region = Region::make(rt.alloc(), 256)?;
    three_objects(&mut region);
    write(&mut region, 7, 70);
    write(&mut region, 11, 110);
    // A header word stays.
    write(&mut region, 12, 120);
    holds(&rt, &region, 9, &[1281, 2, 70, 0, 0, 0, 110]);
    holds(&rt, &region, 13, &[1, 3]);
    let mut other = Region::make(rt.alloc(), 256)?;
    put(&mut other, 0, 4);
    finds(&rt, copy(&region, 9, &mut other), Some(2));
    holds(&rt, &other, 8, &[1281, 2, 70, 0, 0, 0, 110]);
    gave(&rt, &other, 9);
    Ok(())
}

#[test]
fn an_object_is_taken_away(rt: HostRuntime) -> Result<(), Fail> {
    let mut region = Region::make(rt.alloc(), 256)?;
    three_objects(&mut region);
    finds(&rt, take(&mut region, 1), Some(5));
    finds(&rt, region.holder_of(5), None);
    finds(&rt, region.holder_of(4), Some(0));
    finds(&rt, region.first_from(1), Some(12));
    gave(&rt, &region, 14);
    finds(&rt, put(&mut region, 0, 4), Some(14));
    Ok(())
}

// The object of 7 words is moved by 5.
#[test]
fn an_object_is_moved_over_its_own_words(rt: HostRuntime) -> Result<(), Fail> {
    let mut region = Region::make(rt.alloc(), 256)?;
    three_objects(&mut region);
    write(&mut region, 7, 70);
    write(&mut region, 11, 110);
    finds(&rt, take(&mut region, 0), Some(0));
    finds(&rt, slide_first(&mut region), Some(5));
    holds(&rt, &region, 0, &[1281, 2, 70, 0, 0, 0, 110]);
    finds(&rt, region.first_from(1), Some(12));
    finds(&rt, slide_first(&mut region), Some(0));
    holds(&rt, &region, 6, &[1281, 2, 70, 0, 0, 0, 110]);
    holds(&rt, &region, 13, &[1, 3]);
    Ok(())
}

#[test]
fn a_region_is_cut_behind_its_last_object(rt: HostRuntime) -> Result<(), Fail> {
    let mut region = Region::make(rt.alloc(), 256)?;
    region.cut();
    gave(&rt, &region, 0);
    three_objects(&mut region);
    take(&mut region, 0);
    region.cut();
    gave(&rt, &region, 14);
    take(&mut region, 12);
    region.cut();
    gave(&rt, &region, 12);
    take(&mut region, 0);
    region.cut();
    gave(&rt, &region, 0);
    finds(&rt, put(&mut region, 0, 4), Some(0));
    Ok(())
}

#[test]
fn a_region_is_emptied(rt: HostRuntime) -> Result<(), Fail> {
    let mut region = Region::make(rt.alloc(), 256)?;
    region.set_number(9);
    three_objects(&mut region);
    region.reset();
    assert!(rt; region.number() == 9);
    assert!(rt; region.words() == 256);
    gave(&rt, &region, 0);
    finds(&rt, region.first_from(0), None);
    for offset in 0..256 {
        reads(&rt, &region, offset, 0);
    }
    finds(&rt, put(&mut region, 1, 1), Some(0));
    Ok(())
}
