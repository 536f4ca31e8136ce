//! What `read_words` and its callers build on.
ghost use Rattle.std.specs.Prelude.{◌≡◌, ◌∷◌, [], ℕ, List, codes};
ghost use Rattle.bal_model.specs.Configs.{without_options};
ghost use Rattle.bal_model.specs.declared.config.Config.{Config};
ghost use Rattle.bal_options.specs.CommandLine.{IsCommandLine};

/// No words give two configurations.
pub fn words_give_one_configuration()
    ensures { (words : List (List ℕ)) (a b : Config) → IsCommandLine words a → IsCommandLine words b → a ≡ b }
{}

/// The word `replay` alone is the command line without options.
pub fn replay_alone_has_the_defaults()
    ensures { IsCommandLine (codes "replay" ∷ []) without_options }
{}
