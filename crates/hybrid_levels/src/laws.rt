//! What is written decodes to its numbers. The law is a contract of an empty function.

ghost use Rattle.std.specs.Prelude.{◌≡◌, ◌<◌, ◌^◌, ◌++◌, ℕ, List, length, slice_index, Ok};
ghost use Rattle.hybrid_levels.specs.Hybrid.{decoded};
ghost use Rattle.hybrid_levels.specs.Written.{encoded};

/// The bytes that are written for numbers decode to the numbers, whatever bytes follow them.
pub fn written_numbers_read_back()
    ensures { (width : ℕ) (ns more : List ℕ) → ((k : ℕ) → slice_index ns k < 2 ^ width) → length ns < 2 ^ 31 → decoded width (length ns) (encoded width ns ++ more) ≡ Ok (ns, length (encoded width ns)) }
{}
