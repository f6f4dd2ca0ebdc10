ghost use Rattle.std.specs.Prelude.{◌≡◌, ℕ, List, [], ◌∷◌, Ok, Err};
ghost use Rattle.sc_text.specs.declared.elements.Element.{Element};
ghost use Rattle.sc_text.specs.declared.end.End.{End};
ghost use Rattle.sc_text.specs.declared.event.Event.TheVariants.{Open};
ghost use Rattle.sc_text.specs.End.{end_line};
ghost use Rattle.sc_text.specs.Event.{event_line};
ghost use Rattle.view_text.specs.View.{View, IsView};
ghost use Rattle.view_text.specs.Text.{Opened, Ended, lines_bytes, view_bytes};
ghost use Rattle.view_text.specs.Reading.{read_view_of};
ghost use Rattle.view_text.specs.FirstWrong.{IsFirstWrong};

/// Law: the text of a view is read as this view.
pub fn views_are_read_again()
    ensures { (v : View) → IsView v → read_view_of (view_bytes v) ≡ Ok v }
{}

/// Law: what is read is a view, and the text is that of this view.
pub fn what_is_read_was_written()
    ensures { (bytes : List ℕ) (v : View) → read_view_of bytes ≡ Ok v → IsView v × (view_bytes v ≡ bytes) }
{}

/// Law: views whose texts are equal are equal.
pub fn equal_texts_are_equal_views()
    ensures { (v w : View) → IsView v → IsView w → view_bytes v ≡ view_bytes w → v ≡ w }
{}

/// Law: a text that isn't read is that of no view, and the number named is that of its first wrong line: the lines before it
/// begin the text of some view, and no view's text has this line after them; or the text stops there, or the line has no end.
pub fn first_wrong_line_is_named()
    ensures { (bytes : List ℕ) (number : ℕ) → read_view_of bytes ≡ Err number → IsFirstWrong bytes number }
{}

/// Law: the lines of openings and of the end are those of a run's text.
pub fn views_end_as_runs_do()
    ensures opened { (elements : List Element) → lines_bytes (Opened elements ∷ []) ≡ event_line (Open elements) }
    ensures end { (end : End) → lines_bytes (Ended end ∷ []) ≡ end_line end }
{}
