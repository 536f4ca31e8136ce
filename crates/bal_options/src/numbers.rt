//! The numbers that the options are given, and the configuration by them.
ghost use Rattle.std.specs.Prelude.{IfSome, ◌≡◌, ◌↔◌, ◌≤◌, ◌*◌, ◌^◌, ℕ, IsTrue, MatchOption, Some, None};
ghost use Rattle.bal_options.specs.CommandLine.{config_of};
ghost use Rattle.bal_options.specs.Numbers.{AreAllowed, no_numbers, number_in, with_number};
ghost use Rattle.bal_options.specs.Settings.{IsInRange};
ghost use Rattle.bal_options.specs.declared.setting.Setting.{Setting};

use crate::setting::{SETTINGS, Setting};
use bal_model::{Config, Geometry};
use std::cmp::min;

/// The number that each option is given, if it is given one.
#[derive(Clone, Copy)]
pub struct Numbers {
    regions: Option<u64>,
    words: Option<u64>,
    eden: Option<u64>,
    older: Option<u64>,
    cards: Option<u64>,
    workers: Option<u64>,
    mark_every: Option<u64>,
    mark_step: Option<u64>,
    abort_after: Option<u64>,
}

impl Numbers {
    /// None at all.
    pub fn none() -> Numbers
        ensures { result ≡ no_numbers }
    {
        Numbers {
            regions: None,
            words: None,
            eden: None,
            older: None,
            cards: None,
            workers: None,
            mark_every: None,
            mark_step: None,
            abort_after: None,
        }
    }

    /// The number of an option.
    pub fn get(&self, setting: Setting) -> Option<u64>
        ensures { result ≡ number_in self.now setting }
    {
        match setting {
            Setting::Regions => self.regions,
            Setting::Words => self.words,
            Setting::Eden => self.eden,
            Setting::Older => self.older,
            Setting::Cards => self.cards,
            Setting::Workers => self.workers,
            Setting::MarkEvery => self.mark_every,
            Setting::MarkStep => self.mark_step,
            Setting::AbortAfter => self.abort_after,
        }
    }

    /// Gives an option this number.
    pub fn set(&mut self, setting: Setting, number: u64)
        ensures { self.new ≡ with_number self.old setting number }
    {
        let number = Some(number);
        match setting {
            Setting::Regions => self.regions = number,
            Setting::Words => self.words = number,
            Setting::Eden => self.eden = number,
            Setting::Older => self.older = number,
            Setting::Cards => self.cards = number,
            Setting::Workers => self.workers = number,
            Setting::MarkEvery => self.mark_every = number,
            Setting::MarkStep => self.mark_step = number,
            Setting::AbortAfter => self.abort_after = number,
        }
    }

    /// Whether an option has no number, or one that it takes in a heap of so many regions.
    fn is_in_range(&self, setting: Setting, regions: u64) -> bool
        ensures { IsTrue result ↔ IfSome (number_in self.now setting) (IsInRange regions setting) }
    {
        match self.get(setting) {
            Some(number) => setting.takes(number, regions),
            None => true,
        }
    }

    /// Whether this holds of each option.
    fn are_in_range(&self, regions: u64) -> bool
        ensures { IsTrue result
            ↔ ((s : Setting) → IfSome (number_in self.now s) (IsInRange regions s)) }
    {
        for setting in &SETTINGS {
            if !self.is_in_range(*setting, regions) {
                return false;
            }
        }
        true
    }

    /// The configuration by these numbers, if each is in the range of its option and the heap is not too large.
    pub fn config(&self) -> Option<Config>
        ensures { MatchOption result (AreAllowed (number_in self.now) → ⊥)
            (λ config. AreAllowed (number_in self.now) × (config ≡ config_of (number_in self.now))) }
    {
        let regions = self.regions.unwrap_or(64);
        if !self.are_in_range(regions) {
            return None;
        }
        let Ok(geometry) = Geometry::new(regions, self.words.unwrap_or(1024)) else {
            return None;
        };
        Some(Config {
            geometry,
            eden: self.eden.unwrap_or(min(8, regions / 2)) as u32,
            older: self.older.unwrap_or(2) as u32,
            cards: self.cards.unwrap_or(64) as u32,
            workers: self.workers.unwrap_or(4) as u32,
            mark_every: self.mark_every.unwrap_or(4) as u32,
            mark_step: self.mark_step.unwrap_or(256) as u32,
            abort_after: self.abort_after,
        })
    }
}
