ghost use Rattle.std.specs.Prelude.{◌≡◌, ◌+◌, ◌<◌, ◌≤◌, IfOk, IfSome, length};
ghost use Rattle.bal_dest.specs.Trials.{IsTrial};
ghost use Rattle.bal_region.specs.Land.{IsObject};

use crate::Buffers;
use bal_layout::{Geometry, Header, Kind, Name, write_header};
use bal_region::Region;
use std::alloc::Global;
use std::process::Abort;
use std::test::Fail;

// What may be sent to other threads, and be read by several at once.
fn crosses<T: Send + Sync>() {}

#[test]
fn buffers_may_cross_threads() {
    crosses::<Buffers>();
}

// Room for four regions of 256 words.
fn four_regions(alloc: Global) -> Result<Buffers, Fail>
    ensures trial { IfOk result IsTrial }
    ensures room { IfOk result (λ buffers. buffers.room ≡ 4) }
{
    Ok(Buffers::make(alloc, Geometry::new(4, 256)?, 4)?)
}

// Places a plain object with so many references, if it fits.
fn put(region: &mut Region, refs: u8)
    requires { length region.old.words ≡ 256 }
    ensures { length region.new.words ≡ 256 }
{
    let words = 2 + u32::from(refs);
    let (first, second) = write_header(&Header {
        kind: Kind::Plain,
        refs: u32::from(refs),
        values: 0,
        name: Name {
            thread: 0,
            ordinal: words,
        },
    });
    if region.fits(words) {
        region.place_new(first, second, words);
    }
}

// Objects to be copied: of 32 words at offset 0, of 30 at 32, of 2 at 62, and of 3 at 64.
fn survivors(alloc: Global) -> Result<Region, Fail>
    ensures { IfOk result (λ region. length region.words ≡ 256) }
{
    let mut region = Region::make(alloc, 256)?;
    put(&mut region, 30);
    put(&mut region, 28);
    put(&mut region, 0);
    put(&mut region, 1);
    Ok(region)
}

// The words of the object that has a word there.
fn held(region: &Region, offset: u32) -> Option<&[u64]>
    ensures { IfSome result (λ words. IsObject (length region.now.words) words.now) }
{
    let start = region.holder_of(offset)?;
    Some(region.object(start))
}

// Adds a region if the age wants one for an object of 32 words, and answers whether it did.
fn add(alloc: Global, buffers: &mut Buffers, number: u32, age: u8) -> Result<bool, Fail>
    requires trial { IsTrial buffers.old }
    requires room { 1 ≤ buffers.old.room }
    requires number { number < 4 }
    requires age { age ≤ 24 }
    ensures trial { IsTrial buffers.new }
    ensures room { buffers.old.room ≤ buffers.new.room + 1 }
{
    if !buffers.wants_region(age, 32) {
        return Ok(false);
    }
    let mut region = Region::make(alloc, 256)?;
    region.set_number(number);
    buffers.add_region(age, region);
    Ok(true)
}

// Copies the object that has a word there, and answers its new address: None if there is no room.
fn copy(buffers: &mut Buffers, from: &Region, offset: u32, age: u8) -> Option<u32>
    requires trial { IsTrial buffers.old }
    requires words { length from.now.words ≡ 256 }
    ensures trial { IsTrial buffers.new }
    ensures room { buffers.new.room ≡ buffers.old.room }
{
    let words = held(from, offset)?;
    let size = u32::try_from(words.len()).ok()?;
    if age > 24 || size == 0 || buffers.wants_region(age, size) {
        return None;
    }
    let address = buffers.reserve(age, size);
    buffers.commit(words);
    Some(address)
}

// Copies objects, each by an offset, an age and its new address.
fn copies(
    rt: &impl Abort,
    buffers: &mut Buffers,
    from: &Region,
    expected: &[(u32, u8, Option<u32>)],
)
    requires trial { IsTrial buffers.old }
    requires words { length from.now.words ≡ 256 }
    ensures trial { IsTrial buffers.new }
    ensures room { buffers.new.room ≡ buffers.old.room }
{
    for (offset, age, address) in expected {
        assert_eq!(rt; copy(buffers, from, *offset, *age), *address);
    }
}

// Reserves words and withdraws, and answers their address.
fn withdraw(buffers: &mut Buffers, age: u8, words: u32) -> Option<u32>
    requires trial { IsTrial buffers.old }
    ensures trial { IsTrial buffers.new }
    ensures room { buffers.new.room ≡ buffers.old.room }
{
    if age > 24 || words == 0 || buffers.wants_region(age, words) {
        return None;
    }
    let address = buffers.reserve(age, words);
    buffers.withdraw();
    Some(address)
}

// Takes the next region out: its number, its age, and how many words were given out.
fn take(rt: &impl Abort, buffers: &mut Buffers, expected: Option<(u32, u8, u32)>) -> Option<Region>
    requires trial { IsTrial buffers.old }
    ensures trial { IsTrial buffers.new }
    ensures room { buffers.new.room ≡ buffers.old.room }
{
    let Some((number, age, region)) = buffers.take_region() else {
        assert!(rt; expected.is_none());
        return None;
    };
    assert!(rt; expected == Some((number, age, region.used())), "{number}");
    Some(region)
}

#[test]
fn a_region_is_filled_to_its_last_word(rt: HostRuntime) -> Result<(), Fail> {
    let mut buffers = four_regions(rt.alloc())?;
    let from = survivors(rt.alloc())?;
    assert!(&rt; buffers.wants_region(3, 2));
    assert!(&rt; add(rt.alloc(), &mut buffers, 2, 3)?);
    let seven = [
        (0, 3, Some(512)),
        (0, 3, Some(544)),
        (0, 3, Some(576)),
        (0, 3, Some(608)),
        (0, 3, Some(640)),
        (0, 3, Some(672)),
        (0, 3, Some(704)),
    ];
    copies(&rt, &mut buffers, &from, &seven);
    // 32 words are left: so no other region may be added.
    assert!(&rt; !add(rt.alloc(), &mut buffers, 0, 3)?);
    // After 30 words more two are left, and three do not fit.
    let last = [
        (32, 3, Some(736)),
        (64, 3, None),
        (62, 3, Some(766)),
        (62, 3, None),
    ];
    copies(&rt, &mut buffers, &from, &last);
    assert!(&rt; !buffers.wants_region(3, 0) && buffers.wants_region(3, 1));
    assert!(&rt; add(rt.alloc(), &mut buffers, 0, 3)?);
    copies(
        &rt,
        &mut buffers,
        &from,
        &[(64, 3, Some(0)), (0, 3, Some(3))],
    );
    Ok(())
}

#[test]
fn two_ages_are_filled_beside_each_other(rt: HostRuntime) -> Result<(), Fail> {
    let mut buffers = four_regions(rt.alloc())?;
    let from = survivors(rt.alloc())?;
    assert!(&rt; add(rt.alloc(), &mut buffers, 1, 1)?);
    assert!(&rt; add(rt.alloc(), &mut buffers, 3, 24)?);
    let both = [
        (0, 1, Some(256)),
        (62, 24, Some(768)),
        (64, 1, Some(288)),
        (0, 24, Some(770)),
        (0, 2, None),
    ];
    copies(&rt, &mut buffers, &from, &both);
    let first = take(&rt, &mut buffers, Some((1, 1, 35)));
    // Age 1 has no region any more; the other one is open as before.
    copies(
        &rt,
        &mut buffers,
        &from,
        &[(62, 1, None), (62, 24, Some(802))],
    );
    assert!(&rt; add(rt.alloc(), &mut buffers, 0, 1)?);
    copies(
        &rt,
        &mut buffers,
        &from,
        &[(62, 1, Some(0)), (64, 24, Some(804))],
    );
    take(&rt, &mut buffers, Some((3, 24, 39)));
    take(&rt, &mut buffers, Some((0, 1, 2)));
    take(&rt, &mut buffers, None);
    let Some(region) = first else {
        return Ok(());
    };
    for (offset, old) in [(0, 0), (31, 31), (32, 64), (34, 66)] {
        assert!(&rt; held(&region, offset) == held(&from, old), "{offset}");
    }
    assert!(&rt; region.holder_of(35).is_none());
    Ok(())
}

#[test]
fn withdrawn_words_are_reserved_again(rt: HostRuntime) -> Result<(), Fail> {
    let mut buffers = four_regions(rt.alloc())?;
    let from = survivors(rt.alloc())?;
    assert!(&rt; add(rt.alloc(), &mut buffers, 1, 5)?);
    assert_eq!(&rt; withdraw(&mut buffers, 5, 256), Some(256));
    assert_eq!(&rt; withdraw(&mut buffers, 5, 257), None);
    copies(&rt, &mut buffers, &from, &[(64, 5, Some(256))]);
    assert_eq!(&rt; withdraw(&mut buffers, 5, 32), Some(259));
    copies(&rt, &mut buffers, &from, &[(0, 5, Some(259))]);
    assert_eq!(&rt; withdraw(&mut buffers, 5, 2), Some(291));
    take(&rt, &mut buffers, Some((1, 5, 35)));
    // A region without a copy is handed out too.
    assert!(&rt; add(rt.alloc(), &mut buffers, 2, 0)?);
    take(&rt, &mut buffers, Some((2, 0, 0)));
    take(&rt, &mut buffers, None);
    Ok(())
}
