use crate::read_words;
use bal_model::{Config, Geometry};
use std::alloc::{AllocError, Global};
use std::process::Abort;
use std::test::Fail;

// The configuration that the words of a line give, which have this character between them.
fn read_by(alloc: Global, line: &str, between: char) -> Result<Option<Config>, AllocError> {
    let mut words = Vec::new(alloc);
    for word in line.split(between) {
        words.push(String::from_str(alloc, word)?)?;
    }
    Ok(read_words(words.as_slice()))
}

// The same of words with a space between them.
fn read(alloc: Global, line: &str) -> Result<Option<Config>, AllocError> {
    read_by(alloc, line, ' ')
}

// The numbers of a configuration.
fn numbers_of(config: &Config) -> ([u32; 8], Option<u64>) {
    let numbers = [
        config.geometry.regions(),
        config.geometry.words(),
        config.eden,
        config.older,
        config.cards,
        config.workers,
        config.mark_every,
        config.mark_step,
    ];
    (numbers, config.abort_after)
}

fn same_config(rt: &impl Abort, found: Option<Config>, config: &Config, line: &str) {
    let Some(found) = found else {
        return assert!(rt; false, "{line}");
    };
    assert_eq!(rt; numbers_of(&found), numbers_of(config), "{line}");
}

fn is_refused(rt: &impl Abort, found: Option<Config>, line: &str) {
    assert!(rt; found.is_none(), "{line}");
}

#[test]
fn replay_alone_has_the_defaults(rt: HostRuntime) -> Result<(), Fail> {
    let config = read(rt.alloc(), "replay")?;
    same_config(&rt, config, &Config::without_options(), "replay");
    let defaults = Config {
        geometry: Geometry::new(64, 1024)?,
        eden: 8,
        older: 2,
        cards: 64,
        workers: 4,
        mark_every: 4,
        mark_step: 256,
        abort_after: None,
    };
    same_config(&rt, config, &defaults, "replay");
    Ok(())
}

// This test and the next two take each range from end to end, in both ways of writing.
#[test]
fn the_ends_of_the_ranges_of_regions_and_cards_are_taken(rt: HostRuntime) -> Result<(), Fail> {
    let given = Config::without_options();
    for (line, config) in [
        ("replay --eden 1", Config { eden: 1, ..given }),
        ("replay --eden=32", Config { eden: 32, ..given }),
        ("replay --older=0", Config { older: 0, ..given }),
        ("replay --older 64", Config { older: 64, ..given }),
        ("replay --cards 1", Config { cards: 1, ..given }),
        (
            "replay --cards=1024",
            Config {
                cards: 1024,
                ..given
            },
        ),
    ] {
        same_config(&rt, read(rt.alloc(), line)?, &config, line);
    }
    Ok(())
}

#[test]
fn the_ends_of_the_ranges_of_an_evacuation_are_taken(rt: HostRuntime) -> Result<(), Fail> {
    let given = Config::without_options();
    for (line, config) in [
        (
            "replay --workers=1",
            Config {
                workers: 1,
                ..given
            },
        ),
        (
            "replay --workers 32",
            Config {
                workers: 32,
                ..given
            },
        ),
        (
            "replay --abort-after 0",
            Config {
                abort_after: Some(0),
                ..given
            },
        ),
        (
            "replay --abort-after=1000000",
            Config {
                abort_after: Some(1_000_000),
                ..given
            },
        ),
    ] {
        same_config(&rt, read(rt.alloc(), line)?, &config, line);
    }
    Ok(())
}

#[test]
fn the_ends_of_the_ranges_of_marking_are_taken(rt: HostRuntime) -> Result<(), Fail> {
    let given = Config::without_options();
    for (line, config) in [
        (
            "replay --mark-every 1",
            Config {
                mark_every: 1,
                ..given
            },
        ),
        (
            "replay --mark-every=1000",
            Config {
                mark_every: 1000,
                ..given
            },
        ),
        (
            "replay --mark-step=1",
            Config {
                mark_step: 1,
                ..given
            },
        ),
        (
            "replay --mark-step 1000000",
            Config {
                mark_step: 1_000_000,
                ..given
            },
        ),
    ] {
        same_config(&rt, read(rt.alloc(), line)?, &config, line);
    }
    Ok(())
}

// The numbers of regions, of words and of eden regions. Half of the regions may be eden, and eight are if nothing
// else is said and half are no fewer.
#[test]
fn a_heap_is_as_large_as_it_is_said(rt: HostRuntime) -> Result<(), Fail> {
    for (line, regions, words, eden) in [
        ("replay --regions 4", 4, 1024, 2),
        ("replay --regions=5", 5, 1024, 2),
        ("replay --regions 10", 10, 1024, 5),
        ("replay --regions=16", 16, 1024, 8),
        ("replay --regions 64", 64, 1024, 8),
        ("replay --regions=2047", 2047, 1024, 8),
        ("replay --words 256", 64, 256, 8),
        ("replay --words=512", 64, 512, 8),
        ("replay --words 65536", 64, 65536, 8),
        ("replay --regions 256 --words 65536", 256, 65536, 8),
        ("replay --words=65536 --regions=256", 256, 65536, 8),
        ("replay --regions=2047 --words 8192", 2047, 8192, 8),
        ("replay --regions 4 --eden 2", 4, 1024, 2),
        ("replay --eden 2 --regions 4", 4, 1024, 2),
        ("replay --eden=1023 --regions=2047", 2047, 1024, 1023),
    ] {
        let config = Config {
            geometry: Geometry::new(regions, words)?,
            eden,
            ..Config::without_options()
        };
        same_config(&rt, read(rt.alloc(), line)?, &config, line);
    }
    Ok(())
}

#[test]
fn options_come_in_any_order(rt: HostRuntime) -> Result<(), Fail> {
    let config = Config {
        geometry: Geometry::new(8, 512)?,
        eden: 3,
        older: 5,
        cards: 7,
        workers: 9,
        mark_every: 11,
        mark_step: 13,
        abort_after: Some(15),
    };
    for line in [
        "replay --regions 8 --words 512 --eden 3 --older 5 --cards 7 --workers 9 --mark-every 11 --mark-step 13 --abort-after 15",
        "replay --abort-after=15 --mark-step=13 --mark-every=11 --workers=9 --cards=7 --older=5 --eden=3 --words=512 --regions=8",
        "replay --cards 7 --eden=3 --abort-after 15 --words=512 --workers 9 --older=5 --regions 8 --mark-step=13 --mark-every 11",
    ] {
        same_config(&rt, read(rt.alloc(), line)?, &config, line);
    }
    Ok(())
}

#[test]
fn a_number_out_of_range_is_refused(rt: HostRuntime) -> Result<(), Fail> {
    for line in [
        "replay --regions 3",
        "replay --regions=2048",
        "replay --words 255",
        "replay --words=257",
        "replay --words 300",
        "replay --words=128",
        "replay --words 65535",
        "replay --words=131072",
        "replay --regions 257 --words 65536",
        "replay --words=65536 --regions=257",
        "replay --regions=2047 --words 16384",
        "replay --eden 0",
        "replay --eden 33",
        "replay --eden=3 --regions=4",
        "replay --regions 4 --eden 3",
        "replay --regions 5 --eden 3",
        "replay --eden 1024 --regions 2047",
        "replay --older 65",
        "replay --cards 0",
        "replay --cards=1025",
        "replay --workers 0",
        "replay --workers=33",
        "replay --mark-every 0",
        "replay --mark-every=1001",
        "replay --mark-step 0",
        "replay --mark-step=1000001",
        "replay --abort-after 1000001",
        "replay --abort-after=18446744073709551615",
        "replay --abort-after 18446744073709551616",
        "replay --older 10000000000000000000",
    ] {
        is_refused(&rt, read(rt.alloc(), line)?, line);
    }
    Ok(())
}

// Lines that do not begin with the one command, or have a word where an option is to stand.
#[test]
fn another_command_is_refused(rt: HostRuntime) -> Result<(), Fail> {
    for line in [
        "",
        "Replay",
        "race",
        "replay ",
        "replay replay",
        "--older 1",
        "--older 1 replay",
        "replay 1",
        "replay --",
        "replay -- --older 1",
        "replay --older 1 --",
        "replay --eden 1 2",
        "replay --eden=1 2",
    ] {
        is_refused(&rt, read(rt.alloc(), line)?, line);
    }
    Ok(())
}

#[test]
fn an_unknown_option_is_refused(rt: HostRuntime) -> Result<(), Fail> {
    for line in [
        "replay --help",
        "replay -h",
        "--help",
        "replay --version",
        "replay --seed 1",
        "replay --rows=1",
        "replay --threads 4",
        "replay -o 1",
        "replay -e 1",
        "replay older 1",
        "replay -older 1",
        "replay --Older 1",
        "replay --old 1",
        "replay --olders 1",
        "replay --mark 1",
        "replay --mark_every 1",
        "replay --=1",
        "replay =1",
    ] {
        is_refused(&rt, read(rt.alloc(), line)?, line);
    }
    Ok(())
}

// Options with no number after them, or with something that is not spelled as a number is.
#[test]
fn a_number_out_of_form_is_refused(rt: HostRuntime) -> Result<(), Fail> {
    for line in [
        "replay --older",
        "replay --older=",
        "replay --older ",
        "replay --older --cards 1",
        "replay --eden=08",
        "replay --regions 08",
        "replay --older 00",
        "replay --older=+1",
        "replay --older -1",
        "replay --older 0x1",
        "replay --older 1.0",
        "replay --older one",
        "replay --older==1",
        "replay --older= 1",
        "replay --older =1",
        "replay --older=1=",
    ] {
        is_refused(&rt, read(rt.alloc(), line)?, line);
    }
    Ok(())
}

#[test]
fn an_option_given_twice_is_refused(rt: HostRuntime) -> Result<(), Fail> {
    for line in [
        "replay --older 1 --older 1",
        "replay --older=1 --older=2",
        "replay --older 1 --older=1",
        "replay --older=1 --cards 2 --older 3",
    ] {
        is_refused(&rt, read(rt.alloc(), line)?, line);
    }
    Ok(())
}

// Words that have spaces, and none at all.
#[test]
fn other_words_are_refused(rt: HostRuntime) -> Result<(), Fail> {
    let alloc = rt.alloc();
    for line in [
        "replay --older 1",
        "replay|--older 1",
        "replay|--older| 1",
        "replay|--older|1 ",
        "replay|--older=1 ",
        "replay|--older |1",
        "replay|--older\n|1",
        " replay",
    ] {
        is_refused(&rt, read_by(alloc, line, '|')?, line);
    }
    is_refused(&rt, read_words(&[]), "no words");
    let line = "replay|--older|2";
    let config = read_by(alloc, line, '|')?;
    same_config(&rt, config, &Config::without_options(), line);
    Ok(())
}
