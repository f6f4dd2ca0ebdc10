// What holds of every miner's text.
ghost use Rattle.std.specs.Prelude.{◌≡◌, ℕ, List, Ok};
ghost use Rattle.miner_text.specs.declared.line.MinerLine.{MinerLine};
ghost use Rattle.miner_text.specs.Lines.{text_of};
ghost use Rattle.miner_text.specs.Reading.{read_of};
ghost use Rattle.miner_text.specs.Texts.{IsText};

/// Law: the text of lines of which the last is the end, and no other, is read as these lines.
pub fn texts_are_read_again()
    ensures { (lines : List MinerLine) → IsText lines → read_of (text_of lines) ≡ Ok lines }
{}

/// Law: what is read are such lines, and the text is that of these.
pub fn what_is_read_was_written()
    ensures { (bytes : List ℕ) (lines : List MinerLine) → read_of bytes ≡ Ok lines → IsText lines × (text_of lines ≡ bytes) }
{}
