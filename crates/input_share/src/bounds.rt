// What is true of inputs that are read.
ghost use Rattle.std.specs.Prelude.{◌≡◌, ℕ, List, Ok};
ghost use Rattle.value_file.specs.declared.inputs.Entry.{Entry};
ghost use Rattle.value_file.specs.declared.public.PublicEntry.{PublicEntry};
ghost use Rattle.value_file.specs.Input.{read_of};
ghost use Rattle.value_file.specs.Public.{part_bytes};
ghost use Rattle.value_file.specs.PublicFile.{read_public_of};
ghost use Rattle.input_share.specs.OfWords.{AreRead, ArePublicRead, AreSharesRead};
ghost use Rattle.input_share.specs.Reading.{read_share_of};
ghost use Rattle.input_share.specs.ShareFile.{MinerFile};

/// Law: inputs that are read from a file may stand in one, and each element of them, a number or a truth value, is a word of 64 bits; so it
/// is with what is read of a public file.
pub fn read_entries_are_of_words()
    ensures inputs { (bytes : List ℕ) (entries : List Entry) → read_of bytes ≡ Ok entries → AreRead entries }
    ensures public { (bytes : List ℕ) (part : List PublicEntry) → read_public_of bytes ≡ Ok part → ArePublicRead part }
{}

/// Law: what is read of a share file may stand in one, and each element of its public values and each share word is a word of 64 bits.
pub fn read_shares_are_of_words()
    ensures { (wanted : ℕ) (bytes : List ℕ) (file : MinerFile) → read_share_of wanted bytes ≡ Ok file → AreSharesRead file.entries }
{}

/// Law: the text of a public part that may stand in a file is read as this part, if its numbers are words of 64 bits.
pub fn public_parts_are_read_again()
    ensures { (part : List PublicEntry) → ArePublicRead part → read_public_of (part_bytes part) ≡ Ok part }
{}
