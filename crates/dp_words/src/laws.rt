//! Laws of command lines. Each function does nothing: its contract is the law.

ghost use Rattle.std.specs.Prelude.{◌≡◌, List, [], ◌∷◌, Some, None, codes};
ghost use Rattle.clap.specs.Walk.{Text};
ghost use Rattle.dp_words.specs.declared.command_line.CommandLine.{CommandLine};
ghost use Rattle.dp_words.specs.declared.command_line.CommandLine.TheVariants.{Local, Join, Listen};
ghost use Rattle.dp_words.specs.declared.command_line.LocalCommand.TheVariants.{Replay, World};
ghost use Rattle.dp_words.specs.declared.command_line.LocalCommand.TheVariants.{Play, Drill};
ghost use Rattle.dp_words.specs.declared.command_line.Service.TheVariants.{Session};
ghost use Rattle.dp_words.specs.CommandLines.{AsksFor, IsCommandLine};
ghost use Rattle.dp_words.specs.Several.{HasPlaces};

use dp_lines::one_number;

/// Words ask for at most one thing.
pub fn one_command_line()
    ensures { (words : List Text) (line other : CommandLine)
        → AsksFor words line → AsksFor words other → line ≡ other }
{
    one_number();
}

/// Words of each kind ask for what they should, and others for nothing.
pub fn some_command_lines()
    ensures replay { AsksFor (codes "replay" ∷ []) (Local Replay) }
    ensures world { AsksFor (codes "world" ∷ []) (Local World) }
    ensures play { AsksFor (codes "play" ∷ []) (Local (Play None 1)) }
    ensures play_at { AsksFor (codes "play" ∷ codes "--at" ∷ codes "30" ∷ [])
        (Local (Play (Some 30) 1)) }
    ensures play_at_one_word { AsksFor (codes "play" ∷ codes "--at=30" ∷ [])
        (Local (Play (Some 30) 1)) }
    ensures play_workers { AsksFor (codes "play" ∷ codes "--workers" ∷ codes "7" ∷ [])
        (Local (Play None 7)) }
    ensures drill { AsksFor (codes "drill" ∷ codes "18446744073709551615" ∷ codes "100000"
        ∷ codes "64" ∷ []) (Local (Drill 18446744073709551615 100000 64)) }
    ensures join { AsksFor (codes "join" ∷ codes "localhost:7" ∷ codes "ann" ∷ [])
        (Join (codes "localhost:7") (codes "ann")) }
    ensures serve { AsksFor (codes "serve" ∷ codes "localhost:7" ∷ codes "--workers" ∷ codes "2"
        ∷ []) (Listen (codes "localhost:7") 2 None (Session None)) }
    ensures serve_conns { AsksFor (codes "serve" ∷ codes "localhost:7" ∷ codes "--workers"
        ∷ codes "64" ∷ codes "--conns" ∷ codes "1" ∷ [])
        (Listen (codes "localhost:7") 64 (Some 1) (Session None)) }
    ensures serve_journal { AsksFor (codes "serve" ∷ codes "localhost:7" ∷ codes "--workers"
        ∷ codes "2" ∷ codes "--journal" ∷ codes "a.db" ∷ [])
        (Listen (codes "localhost:7") 2 None (Session (Some (codes "a.db")))) }
    ensures no_workers { ¬ IsCommandLine (codes "serve" ∷ codes "localhost:7" ∷ []) }
    ensures no_seed { ¬ IsCommandLine (codes "drill" ∷ codes "1" ∷ codes "1" ∷ []) }
    ensures no_word { ¬ IsCommandLine [] }
    ensures another_word { ¬ IsCommandLine (codes "paint" ∷ []) }
    ensures a_word_too_many { ¬ IsCommandLine (codes "replay" ∷ codes "replay" ∷ []) }
    ensures help { ¬ IsCommandLine (codes "--help" ∷ []) }
    ensures signed { ¬ IsCommandLine (codes "play" ∷ codes "--at=+3" ∷ []) }
    ensures no_number { ¬ IsCommandLine (codes "play" ∷ codes "--at" ∷ []) }
    ensures no_name { ¬ IsCommandLine (codes "join" ∷ codes "localhost:7" ∷ []) }
{}

/// If a form's last words may be several, `clap` finds all of them, in order.
pub fn several_words_are_found()
    ensures one { HasPlaces (codes "seek" ∷ codes "5" ∷ codes "7" ∷ []) (codes "7" ∷ []) }
    ensures several { HasPlaces (codes "seek" ∷ codes "5" ∷ codes "7" ∷ codes "0" ∷ codes "7" ∷ [])
        (codes "7" ∷ codes "0" ∷ codes "7" ∷ []) }
{}
