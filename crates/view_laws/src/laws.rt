// What is true of each miner's view of a program's run.
ghost use Rattle.std.specs.Prelude.{◌≡◌, ℕ, List};
ghost use Rattle.language_model.specs.Effects.{World};
ghost use Rattle.language_model.specs.Reports.{evaluated};
ghost use Rattle.view_reader.specs.Opened.{opened_words};
ghost use Rattle.program_views.specs.Views.{openings};
ghost use Rattle.program_trees.specs.TypedPrograms.{TypedProgramTree};
ghost use Rattle.proto_core.specs.declared.party.Number.{Number};
ghost use Rattle.protocol_model.specs.Network.{Delivery};
ghost use Rattle.value_file.specs.declared.inputs.Entry.{Entry};
ghost use Rattle.tape_file.specs.Tapes.{FourTapes};
ghost use Rattle.view_text.specs.View.{View};
ghost use Rattle.view_laws.specs.Views.{ViewsAreOfTheirForm, IsReadAgain, AreEqualByTheirTexts};
ghost use Rattle.view_laws.specs.Openings.{IsReadAsOpened};

/// Law: what a miner sees of the run of an accepted program is of a view's form: its inputs have names, its shares, drawn words, messages
/// and opened values are of words of 64 bits, and the numbers of its end have room in the text. This is so under every delivery, also
/// where the budget or a tape ends the run.
pub fn views_are_of_their_form()
    ensures { (i : Number) (p : TypedProgramTree) (entries : List Entry) (t : FourTapes) (budget : ℕ) (delivery : Delivery) →
        ViewsAreOfTheirForm i p entries t budget delivery }
{}

/// Law: so the text of such a view is read as this view.
pub fn view_texts_are_read_again()
    ensures { (view : View) → IsReadAgain view }
{}

/// Law: and two of them whose texts are equal are equal, of whichever miners and runs they are.
pub fn equal_view_texts_are_of_equal_views()
    ensures { (one other : View) → AreEqualByTheirTexts one other }
{}

/// Law: the words that a run opens are those of the openings that it tells, one after another; in the clear, and for one who is told them. So
/// who reads the `open` lines of a run knows all that is opened, and the simulator is told no more.
pub fn runs_open_what_they_tell()
    ensures { (w : World) (p : TypedProgramTree) (budget : ℕ) (answers : List ℕ) →
        (evaluated w p budget answers).opened ≡ opened_words (openings (evaluated w p budget answers).events) }
{}

/// Law: so the file of `open` lines of an accepted program's run is read as the words that it opens.
pub fn opened_files_are_read_again()
    ensures { (p : TypedProgramTree) (entries : List Entry) (t : FourTapes) (budget : ℕ) → IsReadAsOpened p entries t budget }
{}
