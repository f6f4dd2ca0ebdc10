ghost use Rattle.std.specs.Prelude.{◌≡◌, ℕ, List, Ok, Err};
ghost use Rattle.sc_text.specs.declared.elements.Element.{Element};
ghost use Rattle.view_text.specs.View.{AreOpened};
ghost use Rattle.view_reader.specs.FirstWrong.{IsFirstWrong};
ghost use Rattle.view_reader.specs.Opened.{opened_bytes, opened_words, opened_of, openings_of};

/// Law: a file of opened values is read as the openings that it was written of, and as their words.
pub fn opened_values_are_read_again()
    ensures openings { (openings : List (List Element)) → AreOpened openings → openings_of (opened_bytes openings) ≡ Ok openings }
    ensures words { (openings : List (List Element)) → AreOpened openings → opened_of (opened_bytes openings) ≡ Ok (opened_words openings) }
{}

/// Law: what is read of a file of opened values are openings, and the file is the text of these.
pub fn opened_values_that_are_read_were_written()
    ensures { (bytes : List ℕ) (openings : List (List Element)) → openings_of bytes ≡ Ok openings → AreOpened openings × (opened_bytes openings ≡ bytes) }
{}

/// Law: where a file of opened values isn't read, the number is that of its first wrong line: openings stand before it, and
/// what is left begins with no line of an opening.
pub fn first_wrong_opening_is_named()
    ensures { (bytes : List ℕ) (number : ℕ) → openings_of bytes ≡ Err number → IsFirstWrong bytes number }
{}
