//! The options of the command line: what each is called, and which numbers it takes.
ghost use Rattle.std.specs.Prelude.{◌≡◌, ◌↔◌, IsTrue, MatchOption};
ghost use Rattle.bal_options.specs.Settings.{IsInRange, name_of};
ghost use Rattle.bal_options.specs.declared.setting.Setting.{Setting};

use bal_layout::{FEWEST_REGIONS, FEWEST_WORDS, MOST_REGIONS, MOST_WORDS, WORKERS};

/// An option of the command line.
#[derive(Clone, Copy)]
pub enum Setting {
    Regions,
    Words,
    Eden,
    Older,
    Cards,
    Workers,
    MarkEvery,
    MarkStep,
    AbortAfter,
}

/// All options.
pub const SETTINGS: [Setting; 9] = [
    Setting::Regions,
    Setting::Words,
    Setting::Eden,
    Setting::Older,
    Setting::Cards,
    Setting::Workers,
    Setting::MarkEvery,
    Setting::MarkStep,
    Setting::AbortAfter,
];

impl Setting {
    /// The option that a word names, with its two dashes.
    pub fn from_name(name: &str) -> Option<Setting>
        ensures { MatchOption result ((s : Setting) → name.now ≡ name_of s → ⊥) (λ s. name.now ≡ name_of s) }
    {
        match name {
            "--regions" => Some(Setting::Regions),
            "--words" => Some(Setting::Words),
            "--eden" => Some(Setting::Eden),
            "--older" => Some(Setting::Older),
            "--cards" => Some(Setting::Cards),
            "--workers" => Some(Setting::Workers),
            "--mark-every" => Some(Setting::MarkEvery),
            "--mark-step" => Some(Setting::MarkStep),
            "--abort-after" => Some(Setting::AbortAfter),
            _ => None,
        }
    }

    /// Whether the option takes this number, in a heap of so many regions.
    pub fn takes(self, number: u64, regions: u64) -> bool
        ensures { IsTrue result ↔ IsInRange regions self number }
    {
        let (least, most) = match self {
            Setting::Regions => (u64::from(FEWEST_REGIONS), u64::from(MOST_REGIONS)),
            Setting::Words => (u64::from(FEWEST_WORDS), u64::from(MOST_WORDS)),
            Setting::Eden => (1, regions / 2),
            Setting::Older => (0, 64),
            Setting::Cards => (1, 1024),
            Setting::Workers => (1, u64::from(WORKERS)),
            Setting::MarkEvery => (1, 1000),
            Setting::MarkStep => (1, 1_000_000),
            Setting::AbortAfter => (0, 1_000_000),
        };
        least <= number && number <= most
    }
}
