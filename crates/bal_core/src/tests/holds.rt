//! What can be computed of the invariant, part by part, by plain search.
use crate::row::CoreRow;
use crate::state::Race;
use crate::{Decision, Drawn, Told};
use bal_layout::OLDEST;

// How often a worker won the object.
fn wins(row: &CoreRow, object: usize) -> usize {
    row.won
        .as_slice()
        .iter()
        .filter(|told| told.object as usize == object)
        .count()
}

// How often all workers together won the object.
fn wins_of_all(race: &Race, object: usize) -> usize {
    let mut wins_so_far: usize = 0;
    for row in &race.crew {
        wins_so_far = wins_so_far.saturating_add(wins(row, object));
    }
    wins_so_far
}

// An object that is decided was won once, and no other was.
fn are_won_once(race: &Race) -> bool {
    race.words.iter().enumerate().all(|(object, word)| wins_of_all(race, object)
        == usize::from(word.is_some()))
}

// These decisions are what the words hold.
fn are_held(race: &Race, list: &[Told]) -> bool {
    list.iter()
        .all(|told| race.word(told.object) == Some(told.decision))
}

// A worker knows what it won.
fn knows_what_it_won(row: &CoreRow) -> bool {
    row.won.as_slice().iter().all(|won| {
        row.known
            .as_slice()
            .iter()
            .any(|known| known.object == won.object)
    })
}

// A root, or one of these known objects, holds the object.
fn is_held(race: &Race, known: &[Told], object: u32) -> bool {
    race.roots.iter().any(|root| *root == object)
        || known.iter().any(|told| {
            race.targets
                .get(told.object as usize)
                .is_some_and(|slots| slots.iter().any(|slot| *slot == Some(object)))
        })
}

// Each object that the worker knows was held by what it knew before.
fn came_to_all(race: &Race, row: &CoreRow) -> bool {
    let known = row.known.as_slice();
    known.iter().enumerate().all(|(place, told)| is_held(
        race,
        known.get(..place).unwrap_or(&[]),
        told.object,
    ))
}

fn are_known(race: &Race) -> bool {
    race.crew.iter().all(|row| {
        are_held(race, row.known.as_slice())
            && are_held(race, row.won.as_slice())
            && knows_what_it_won(row)
            && came_to_all(race, row)
    })
}

// How often a worker drew the region at this place of the pool.
fn draws(row: &CoreRow, ordinal: u64) -> usize {
    row.drawn
        .as_slice()
        .iter()
        .filter(|drawn| drawn.ordinal == ordinal)
        .count()
}

// How often all workers together drew it.
fn draws_of_all(race: &Race, ordinal: u64) -> usize {
    let mut draws_so_far: usize = 0;
    for row in &race.crew {
        draws_so_far = draws_so_far.saturating_add(draws(row, ordinal));
    }
    draws_so_far
}

// A region that was drawn is the pool's at that place.
fn is_of_pool(race: &Race, drawn: &Drawn) -> bool {
    race.pool.get(drawn.ordinal as usize) == Some(&drawn.region) && drawn.age <= OLDEST
}

// The regions before the counter were drawn once each, and no others.
fn are_drawn_once(race: &Race) -> bool {
    (0..race.pool.len() as u64).all(|ordinal| draws_of_all(race, ordinal)
        == usize::from(ordinal < race.counter))
        && race.crew.iter().all(|row| {
            row.drawn
                .as_slice()
                .iter()
                .all(|drawn| is_of_pool(race, drawn))
        })
}

fn size(race: &Race, object: u32) -> u32 {
    race.sizes.get(object as usize).copied().unwrap_or(0)
}

// The words of a region that these decisions filled.
fn filled(race: &Race, region: u32, won: &[Told]) -> u32 {
    let words = race.geometry.words();
    let mut filled_so_far: u32 = 0;
    for told in won {
        if let Decision::Copied(address) = told.decision {
            if address / words == region {
                filled_so_far = filled_so_far.saturating_add(size(race, told.object));
            }
        }
    }
    filled_so_far
}

// A copy lies in this region, directly behind those before it.
fn fits(race: &Race, drawn: &Drawn, before: &[Told], object: u32, address: u32) -> bool {
    let words = race.geometry.words();
    let age = race.ages.get(object as usize).copied().unwrap_or(0);
    let offset = address % words;
    address / words == drawn.region
        && drawn.age == OLDEST.min(age.saturating_add(1))
        && offset == filled(race, drawn.region, before)
        && offset.saturating_add(size(race, object)) <= words
}

// Each copy of a worker lies in a region that it drew, directly behind those before it.
fn packs(race: &Race, row: &CoreRow) -> bool {
    let won = row.won.as_slice();
    won.iter().enumerate().all(|(place, told)| match told.decision {
        Decision::Marked => true,
        Decision::Copied(address) => row.drawn.as_slice().iter().any(|drawn| {
            fits(
                race,
                drawn,
                won.get(..place).unwrap_or(&[]),
                told.object,
                address,
            )
        }),
    })
}

// An abort has a cause, and each wish was its worker's.
fn is_raised(race: &Race) -> bool {
    let raised = race.drained || race.wished.iter().any(|wished| *wished);
    let marked = race
        .words
        .iter()
        .any(|word| *word == Some(Decision::Marked));
    (raised || !marked)
        && race.crew.iter().all(|row| raised || !row.saw)
        && race.crew.iter().all(|row| row.saw || !row.raised)
        && race.wished.iter().enumerate().all(|(worker, wished)| {
            !*wished || race.crew.get(worker).is_some_and(|row| row.raised)
        })
}

// As many workers got no region as draws came after the last one.
fn is_drained(race: &Race) -> bool {
    let dry = race.crew.iter().filter(|row| row.dry).count() as u64;
    let regions = race.pool.len() as u64;
    dry == race.counter.saturating_sub(regions) && (!race.drained || regions < race.counter)
}

/// The invariant holds, as far as search tells.
pub(crate) fn holds(race: &Race) -> bool {
    are_won_once(race)
        && are_known(race)
        && are_drawn_once(race)
        && race.crew.iter().all(|row| packs(race, row))
        && is_raised(race)
        && is_drained(race)
}
