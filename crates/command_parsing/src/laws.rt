//! The laws of what words ask for. Each law is a contract of an empty function.

ghost use Rattle.std.specs.Prelude.{◌≡◌, ℕ, List};
ghost use Rattle.command_words.specs.Check.{CheckGiven};
ghost use Rattle.command_words.specs.Widths.{WidthsGiven};
ghost use Rattle.query_tree.specs.Asked.{Asked};
ghost use Rattle.command_parsing.specs.Commands.{AskScan, AskScanWrongly, AskVariant, AskVariantWrongly, Load, AskLoad, AskLoadWrongly, FileQuery, AskQuery, AskQueryWrongly, AskCheck, AskCheckWrongly};
ghost use Rattle.command_parsing.specs.declared.fault.BadWords.{BadWords};

/// Words that ask for something are wrong in no way.
pub fn asked_words_are_right()
    ensures scan { (words : List (List ℕ)) (asked : Asked) (bad : BadWords) → AskScan words asked → AskScanWrongly words bad → ⊥ }
    ensures variant { (words : List (List ℕ)) (widths : WidthsGiven) (bad : BadWords) → AskVariant words widths → AskVariantWrongly words bad → ⊥ }
    ensures load { (words : List (List ℕ)) (load : Load) (bad : BadWords) → AskLoad words load → AskLoadWrongly words bad → ⊥ }
    ensures query { (words : List (List ℕ)) (query : FileQuery) (bad : BadWords) → AskQuery words query → AskQueryWrongly words bad → ⊥ }
    ensures check { (words : List (List ℕ)) (check : CheckGiven) (bad : BadWords) → AskCheck words check → AskCheckWrongly words bad → ⊥ }
{}

/// Words ask for one thing at most.
pub fn words_ask_once()
    ensures scan { (words : List (List ℕ)) (asked other : Asked) → AskScan words asked → AskScan words other → asked ≡ other }
    ensures variant { (words : List (List ℕ)) (widths other : WidthsGiven) → AskVariant words widths → AskVariant words other → widths ≡ other }
    ensures load { (words : List (List ℕ)) (load other : Load) → AskLoad words load → AskLoad words other → load ≡ other }
    ensures query { (words : List (List ℕ)) (query other : FileQuery) → AskQuery words query → AskQuery words other → query ≡ other }
    ensures check { (words : List (List ℕ)) (check other : CheckGiven) → AskCheck words check → AskCheck words other → check ≡ other }
{}
