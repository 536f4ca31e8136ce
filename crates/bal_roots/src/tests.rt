use crate::Roots;
use std::process::Abort;
use std::test::Fail;

// A word is what it should be.
fn is(rt: &impl Abort, word: u64, expected: u64) {
    assert_eq!(rt; word, expected);
}

// What may be sent to other threads, and be read by several at once.
fn crosses<T: Send + Sync>() {}

#[test]
fn roots_may_cross_threads() {
    crosses::<Roots>();
}

#[test]
fn registers_and_globals_are_apart(rt: HostRuntime) -> Result<(), Fail> {
    let mut roots = Roots::make(rt.alloc())?;
    is(&rt, u64::from(roots.root_count()), 1088);
    for index in 0..1088u32 {
        is(&rt, roots.root(index), 0);
    }
    roots.set_register(0, 31, 5);
    roots.set_register(1, 0, 6);
    roots.set_register(31, 31, 7);
    roots.set_global(0, 8);
    roots.set_global(63, 9);
    for (thread, number, word) in [(0, 31, 5), (1, 0, 6), (0, 30, 0), (31, 31, 7)] {
        is(&rt, roots.register(thread, number), word);
    }
    for (number, word) in [(0, 8), (62, 0), (63, 9)] {
        is(&rt, roots.global(number), word);
    }
    for (index, word) in [(31, 5), (32, 6), (1023, 7), (1024, 8), (1087, 9)] {
        is(&rt, roots.root(index), word);
    }
    roots.set_root(1087, 1);
    roots.set_root(32, 2);
    is(&rt, roots.global(63), 1);
    is(&rt, roots.register(1, 0), 2);
    Ok(())
}
