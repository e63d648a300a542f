//! Laws of lines, words, numbers and digits. Each function does nothing: its contract is the law.
//!
//! The rule: docs/protocol.md, "Lines".

ghost use Rattle.std.specs.Prelude.{◌≡◌, ◌≢◌, ◌↔◌, ℕ, ◌+◌, ◌%◌, ◌<◌, ◌≤◌, true};
ghost use Rattle.std.specs.Prelude.{List, [], ◌∷◌, ◌++◌, length, Some, IsSome};
ghost use Rattle.std.specs.List.{All, AllPass, flat_map, join_with_byte};
ghost use Rattle.hex.specs.Hex.{is_hex_digit};
ghost use Rattle.dp_lines.specs.declared.line.Line.{Line};
ghost use Rattle.dp_lines.specs.Ends.{LinesEnd, LinesComeTo, AreSteps, IsDoable, seen};
ghost use Rattle.dp_lines.specs.Held.{Held, IsLeft, NextIsLong, ended_from, lines_from};
ghost use Rattle.dp_lines.specs.Hexadecimal.{hex_bytes, hex_text};
ghost use Rattle.dp_lines.specs.Lines.{newline, pieces, Lacks, ended, open_rest, lines};
ghost use Rattle.dp_lines.specs.Lines.{is_overlong, numbered};
ghost use Rattle.dp_lines.specs.Numbers.{IsNumber};

/// What a step is: a line after the lines before it. For laws alone, which are called at a type
/// that says it.
pub trait StepRule {
    ghost use Rattle.std.specs.Prelude.{List};
    ghost use Rattle.dp_lines.specs.declared.line.Line.{Line};

    ghost is_step: { List Line → Line → Type 0 };
}

/// Bytes have their parts around a separator in one way.
pub fn one_way()
    ensures joined { (separator : ℕ) (bytes : List ℕ)
        → join_with_byte separator (pieces separator bytes) ≡ bytes }
    ensures some { (separator : ℕ) (bytes : List ℕ) → pieces separator bytes ≢ [] }
    ensures lacking { (separator : ℕ) (bytes : List ℕ)
        → All (Lacks separator) (pieces separator bytes) }
    ensures only { (separator : ℕ) (parts : List (List ℕ))
        → parts ≢ [] → All (Lacks separator) parts
        → pieces separator (join_with_byte separator parts) ≡ parts }
{}

/// Bytes are in one way lines with their newlines, and then a rest without one.
pub fn whole_lines()
    ensures whole { (bytes : List ℕ)
        → bytes ≡ flat_map (λ line. line ++ newline ∷ []) (ended bytes) ++ open_rest bytes }
    ensures each { (bytes : List ℕ) → All (Lacks newline) (ended bytes) }
    ensures rest { (bytes : List ℕ) → Lacks newline (open_rest bytes) }
    ensures only { (lines : List (List ℕ)) (rest : List ℕ)
        → All (Lacks newline) lines → Lacks newline rest
        → let bytes = flat_map (λ line. line ++ newline ∷ []) lines ++ rest in
        (ended bytes ≡ lines) × (open_rest bytes ≡ rest) }
{}

/// What is left of a text, from its first piece to its end: so in whatever pieces it comes, the
/// lines that are given are its lines.
pub fn still_left()
    ensures at_first { IsLeft [] [] (record { count = 0; bytes = []; fed = 0 }) }

    // More bytes are fed.
    ensures fed { (all more : List ℕ) (done : List Line) (old new : Held)
        → IsLeft all done old
        → new.bytes ≡ old.bytes ++ more → new.count ≡ old.count → new.fed ≡ old.fed + length more
        → IsLeft (all ++ more) done new }

    // Ended lines are given, or none.
    ensures given { (all : List ℕ) (done prefix : List Line) (old new : Held)
        → IsLeft all done old
        → ended_from old ≡ prefix ++ ended_from new
        → new.count + length (ended new.bytes) ≡ old.count + length (ended old.bytes)
        → open_rest new.bytes ≡ open_rest old.bytes → new.fed ≡ old.fed
        → IsLeft all (done ++ prefix) new }

    // Nothing more is fed.
    ensures at_end { (all : List ℕ) (done : List Line) (held : Held)
        → IsLeft all done held → numbered 0 (lines all) ≡ done ++ lines_from held }
{}

/// What was given of a prefix of an input that counts is the prefix of the lines that are seen of
/// it.
pub fn lines_seen()
    ensures given { (limit : ℕ) (all more : List ℕ) (done : List Line) (held : Held)
        → IsLeft all done held → length all ≤ limit
        → (after : List Line) × (seen limit (all ++ more) ≡ done ++ after) }

    // A next line that is too long is the next that is seen.
    ensures long { (limit : ℕ) (all more : List ℕ) (done : List Line) (held : Held) (n : ℕ)
        → IsLeft all done held → length all ≤ limit → NextIsLong held n
        → (line : Line) × (after : List Line) × (seen limit (all ++ more) ≡ done ++ line ∷ after)
        × (is_overlong line.bytes ≡ true) × (line.number ≡ n) }

    // If the limit is reached, no ended line is left and the rest isn't too long, all is given.
    ensures cut { (limit : ℕ) (all more : List ℕ) (done : List Line) (held : Held)
        → IsLeft all done held → length all ≡ limit → more ≢ []
        → ended_from held ≡ [] → ((n : ℕ) → ¬ NextIsLong held n)
        → seen limit (all ++ more) ≡ done }

    // If the input ends within the limit, what is left are the lines to come.
    ensures whole { (limit : ℕ) (all : List ℕ) (done : List Line) (held : Held)
        → IsLeft all done held → length all ≤ limit
        → seen limit all ≡ done ++ lines_from held }
{}

/// No lines are steps, and steps with a line after them that is doable there are steps.
pub fn further_step<S: StepRule>()
    ensures none { AreSteps S.is_step [] }
    ensures more { (done : List Line) (line : Line)
        → AreSteps S.is_step done → IsDoable S.is_step done line
        → AreSteps S.is_step (done ++ line ∷ []) }
{}

/// An input comes to at most one end, with one list of lines that are done.
pub fn one_end<S: StepRule>()
    ensures lines { (limit : ℕ) (bytes : List ℕ) (done others : List Line) (end last : LinesEnd)
        → LinesComeTo S.is_step limit bytes done end
        → LinesComeTo S.is_step limit bytes others last → done ≡ others }
    ensures end { (limit : ℕ) (bytes : List ℕ) (done others : List Line) (end last : LinesEnd)
        → LinesComeTo S.is_step limit bytes done end
        → LinesComeTo S.is_step limit bytes others last → end ≡ last }
{}

/// A word is at most one number.
pub fn one_number()
    ensures { (word : List ℕ) (m n : ℕ) → IsNumber word m → IsNumber word n → m ≡ n }
{}

/// A word spells bytes exactly if it has an even number of hexadecimal digits, and the digits of
/// bytes spell them.
pub fn hex_read_back()
    ensures digits { (word : List ℕ)
        → IsSome (hex_bytes word) ↔ ((length word % 2 ≡ 0) × AllPass is_hex_digit word) }
    ensures back { (bytes : List ℕ)
        → All (λ byte. byte < 256) bytes → hex_bytes (hex_text bytes) ≡ Some bytes }
{}
