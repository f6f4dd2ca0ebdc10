// What three miners that run code, each by itself, come to.
ghost use Rattle.std.specs.Prelude.{ℕ, List};
ghost use Rattle.proto_core.specs.declared.party.Number.{Number};
ghost use Rattle.proto_core.specs.declared.link.Link.{Link};
ghost use Rattle.proto_core.specs.Strand.{Mail};
ghost use Rattle.protocol_model.specs.Runs.{Tapes};
ghost use Rattle.tape_file.specs.Tapes.{FourTapes};
ghost use Rattle.value_file.specs.declared.inputs.Entry.{Entry};
ghost use Rattle.language_model.specs.Reports.{Offered};
ghost use Rattle.program_trees.specs.TypedPrograms.{TypedProgramTree};
ghost use Rattle.verified_code.specs.Steps.{Function};
ghost use Rattle.code_places.specs.Dealt.{Dealt};
ghost use Rattle.miner_core.specs.Story.{Story};
ghost use Rattle.miner_runs.specs.Laws.{OwnMinersRunTheCode};
ghost use Rattle.miner_runs.specs.Stories.{DoesItsPart, HaveDoneWhereAccepted};
ghost use Rattle.miner_runs.specs.Laws.{OwnRunsWhereAccepted};

/// Law: three miners run code that may run in the clear, each by its shares of the inputs and its own values and tape alone: it tests its
/// gates on its own values, and is told what is opened by its own last value. No gate is found unfit, and no tape too short. They send the
/// messages of the joint run of the report's gates, end with their shares of all its values, and stop where the report says. They open the
/// words of its openings, truth values packed, and tell its events in order: public values all three alike, private ones as shares of the
/// words of what is published. This is so under every order of delivery. What a delivery comes to, from the start or from any mail that was
/// delivered, and how many messages are sent on a link, is counted by the scripts of the gates; the default order and all shuffled ones are
/// accepted; an accepted order is complete, and brings each miner the run's messages.
pub fn own_miners_run_the_code()
    ensures { (o : Offered) (d : Dealt) (c : List Function) (budget : ℕ) (tapes : Tapes) → OwnMinersRunTheCode o d c budget tapes }
{}

/// Law: a miner at work with the code, its own shares and its own tape, which has received its messages of some mail, has done what the node
/// of its number does with this mail in the net. So three of them that received what an accepted order brings have ended as the report
/// does, have opened the words of its openings and told its events.
pub fn miners_at_work_are_own_miners()
    ensures part { (o : Offered) (d : Dealt) (c : List Function) (budget : ℕ) (tapes : Tapes) (i : Number) (mail : Mail) (s : Story) →
        DoesItsPart o d c budget tapes i mail s }
    ensures done { (o : Offered) (d : Dealt) (c : List Function) (budget : ℕ) (tapes : Tapes) (order : List Link) (stories : Number → Story) →
        HaveDoneWhereAccepted o d c budget tapes order stories }
{}

/// Law: so three miners, each by its shares of a file's inputs and its own values and tape alone, run the code of an accepted program as
/// its evaluation in the clear reports, where the dealer's tape suffices for the inputs, with tapes of these lengths.
pub fn own_miners_run_programs()
    ensures { (p : TypedProgramTree) (entries : List Entry) (t : FourTapes) (budget : ℕ) → OwnRunsWhereAccepted p entries t budget }
{}
