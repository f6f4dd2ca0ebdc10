// What three miners' texts are together.
ghost use Rattle.honest_miners.specs.Texts.{TextsOfARunAreItsText};

/// Law: where three miners tell what stands beside events, which are told under names and are paid for by the run's cost, and each has written its text with
/// the same end, whose numbers have room in it, the three texts are read and put together to the text of these events and this end.
pub fn texts_of_a_run_are_its_text()
    ensures { TextsOfARunAreItsText }
{}
