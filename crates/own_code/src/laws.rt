// What is true of the values that a miner holds.
ghost use Rattle.std.specs.Prelude.{ℕ, List};
ghost use Rattle.proto_core.specs.declared.party.Number.{Number};
ghost use Rattle.proto_core.specs.Strand.{Mail};
ghost use Rattle.gates.specs.declared.gate.Gate.{Gate};
ghost use Rattle.gates.specs.Clear.{Values};
ghost use Rattle.language_model.specs.Effects.{World};
ghost use Rattle.verified_code.specs.Steps.{Function};
ghost use Rattle.code_places.specs.Places.{Place};
ghost use Rattle.own_code.specs.LettingGo.{MakeWhatTheyCount, GatesNeedWhatTheyTake, CodeNeedsWhatItNames};

/// Law: whatever messages come, gates that come to an end have made as many values as they count, after those that were there.
pub fn gates_make_what_they_count()
    ensures { (i : Number) (dealt : Values) (gates : List Gate) (values : Values) (tape : List ℕ) (mail : Mail) →
        MakeWhatTheyCount i dealt gates values tape mail }
{}

/// Law: a miner runs gates alike on two lists of as many values that have the same of all numbers which the gates take.
pub fn gates_need_what_they_take()
    ensures { (i : Number) (dealt : Values) (gates : List Gate) (values held : Values) (tape : List ℕ) →
        GatesNeedWhatTheyTake i dealt gates values held tape }
{}

/// Law: a miner that runs code sends, opens and tells the same, and stands at the same place, where of its values it holds only those
/// that its machine names and the one that was made last.
pub fn code_needs_what_it_names()
    ensures { (w : World) (c : List Function) (i : Number) (dealt : Values) (fuel : ℕ) (p : Place) (values held : Values) (tape : List ℕ) →
        CodeNeedsWhatItNames w c i dealt fuel p values held tape }
{}
