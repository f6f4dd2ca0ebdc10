// What is true of the words of tapes.
ghost use Rattle.std.specs.Prelude.{◌≡◌, ℕ, List, All, Ok};
ghost use Rattle.tape_file.specs.Format.{read_of, read_own_of};
ghost use Rattle.tape_file.specs.Seeds.{seed_tapes};
ghost use Rattle.tape_file.specs.Tapes.{AreOfWords, FourTapes, IsWord};

/// Law: all words of tapes have 64 bits, of those that are read from a file of four tapes or of one, and of those that are drawn from a
/// seed.
pub fn tapes_are_of_words()
    ensures read { (bytes : List ℕ) (tapes : FourTapes) → read_of bytes ≡ Ok tapes → AreOfWords tapes }
    ensures own { (wanted : ℕ) (bytes : List ℕ) (tape : List ℕ) → read_own_of wanted bytes ≡ Ok tape → All IsWord tape }
    ensures seeded { (seed : List ℕ) (words : ℕ) → AreOfWords (seed_tapes seed words) }
{}
