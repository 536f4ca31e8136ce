//! The words of the command line, read.
ghost use Rattle.std.specs.Prelude.{◌≡◌, ◌<◌, ◌^◌, ◌++◌, ℕ, List, Bool, Option, IfSome, MatchOption, codes, flat_map, map, string_bytes};
ghost use Rattle.std.specs.Fmt.{decimal};
ghost use Rattle.bal_options.specs.CommandLine.{Given, IsCommandLine, words_of};
ghost use Rattle.bal_options.specs.Numbers.{IsReadAs, number_in};
ghost use Rattle.bal_options.specs.Settings.{name_of};
ghost use Rattle.bal_model.specs.Configs.{IsWithinLimits};
ghost use Rattle.bal_model.specs.declared.config.Config.{Config};
ghost use Rattle.bal_options.specs.declared.setting.Setting.{Setting};

use crate::numbers::Numbers;
use crate::setting::Setting;
use bal_base::read_number;
use bal_model::Config;

/// An option as it is given, and the words after it.
struct Read<'a> {
    setting: Setting,
    number: u64,
    rest: &'a [String],
}

/// The option of this name with the number that is spelled so.
fn read_given<'a>(name: &str, value: &str, rest: &'a [String]) -> Option<Read<'a>>
    ensures { MatchOption result
        ((s : Setting) (n : ℕ) → n < 2 ^ 64 → name.now ≡ name_of s → value.now ≡ decimal n → ⊥)
        (λ read. (read.number < 2 ^ 64) × (name.now ≡ name_of read.setting) × (value.now ≡ decimal read.number)
        × (read.rest.now ≡ rest.now)) }
{
    Some(Read {
        setting: Setting::from_name(name)?,
        number: read_number(value.as_bytes())?,
        rest,
    })
}

/// Reads the option at the front of the words: `--name=number`, or `--name` and `number`.
fn read_option<'a>(words: &'a [String]) -> Option<Read<'a>>
    ensures { MatchOption result
        ((g : Given) (rest : List (List ℕ)) → g.number < 2 ^ 64
        → map string_bytes words.now ≡ words_of g ++ rest → ⊥)
        (λ read. (read.number < 2 ^ 64) × ((in_one_word : Bool) × (map string_bytes words.now
        ≡ words_of (record { setting = read.setting; number = read.number; in_one_word = in_one_word })
        ++ map string_bytes read.rest.now))) }
{
    let [word, rest @ ..] = words else {
        return None;
    };
    match word.split_once('=') {
        Some((name, value)) => read_given(name, value, rest),
        None => {
            let [value, rest @ ..] = rest else {
                return None;
            };
            read_given(word.as_str(), value.as_str(), rest)
        }
    }
}

/// The numbers that the options in these words are given.
fn read_numbers(words: &[String]) -> Option<Numbers>
    ensures { MatchOption result
        ((given : Setting → Option ℕ) → IsReadAs (map string_bytes words.now) given → ⊥)
        (λ numbers. IsReadAs (map string_bytes words.now) (number_in numbers)) }
{
    let mut numbers = Numbers::none();
    let mut left = words;
    while !left.is_empty() {
        let Read {
            setting,
            number,
            rest,
        } = read_option(left)?;
        if numbers.get(setting).is_some() {
            return None;
        }
        numbers.set(setting, number);
        left = rest;
    }
    Some(numbers)
}

/// The configuration that a command line gives: the word `replay`, and after it options with their numbers, in any
/// order. It keeps to the limits, with what the words say and with what they leave to the defaults.
pub fn read_words(words: &[String]) -> Option<Config>
    ensures read { MatchOption result
        ((config : Config) → IsCommandLine (map string_bytes words.now) config → ⊥)
        (IsCommandLine (map string_bytes words.now)) }
    ensures within_limits { IfSome result IsWithinLimits }
{
    let [command, options @ ..] = words else {
        return None;
    };
    if command.as_str() != "replay" {
        return None;
    }
    read_numbers(options)?.config()
}
