ghost use Rattle.std.specs.Prelude.{◌≡◌, ℕ, List};
ghost use Rattle.proto_core.specs.declared.party.Number.{Number};
ghost use Rattle.protocol_model.specs.Runs.{Tapes};
ghost use Rattle.gates.specs.Clear.{Values};
ghost use Rattle.shared_gates.specs.Shares.{Kind};
ghost use Rattle.runs_in_sequence.specs.Sequences.{Leg, Kept, RunOn, to_views, from_views, AreMappedOf, made_all, seen_all, opened_all};
ghost use Rattle.runs_in_sequence.specs.Results.{Held, Meaning, AreComputed};
ghost use Rattle.runs_in_sequence.specs.Twins.{AllFit, AreSized, redealt, DealtTheSame, Opens, AreTwins};

/// Law: the tapes of runs in sequence, each run with tapes of its own, correspond one to one with those that a miner's views of all of them
/// are made of: each later run's along the shares that the earlier ones made.
pub fn tapes_of_sequences_correspond()
    ensures there_and_back { (i : Number) (kept : Kept) (legs : List Leg) (tapes : List Tapes) →
        RunOn kept legs tapes → from_views i kept legs (to_views i kept legs tapes) ≡ tapes }
    ensures back_and_there { (i : Number) (kept : Kept) (legs : List Leg) (mapped : List Tapes) →
        AreMappedOf i kept legs mapped → to_views i kept legs (from_views i kept legs mapped) ≡ mapped }
{}

/// Law: what comes to a miner in all runs is what the simulator makes, run after run, of the opened words and the mapped tapes of each run, and
/// of the shares that it has itself made in the runs before. It is told no share of another miner.
pub fn sequences_are_simulated()
    ensures { (i : Number) (kept : Kept) (legs : List Leg) (tapes : List Tapes) → RunOn kept legs tapes →
        seen_all i kept legs tapes ≡ made_all i (kept i) legs (opened_all kept legs tapes) (to_views i kept legs tapes) }
{}

/// Law: where the miners hold shares of values before the first run, each run that suits what was kept before it computes what its gates do of
/// these values and of what is dealt for it; what is kept of it are shares of what it hands over.
pub fn sequences_compute()
    ensures { (kinds : List Kind) (values : Values) (kept : Kept) (legs : List Leg) (meanings : List Meaning) (tapes : List Tapes) →
        Held kinds values kept → RunOn kept legs tapes → AreComputed kinds values kept legs meanings tapes }
{}

/// Law: where each run takes values of the sizes that it wants, and has words enough, all of them go to their ends, whatever the values are.
pub fn runs_that_fit_go_to_their_ends()
    ensures { (sizes : List ℕ) (kept : Kept) (legs : List Leg) (tapes : List Tapes) →
        AreSized sizes kept → AllFit sizes legs tapes → RunOn kept legs tapes }
{}

/// Law: where other values are dealt before the first run and for each of them, so that a miner is dealt the same shares and the same words are
/// opened whatever is drawn, all tapes have twins with which the miner sees the same in all runs, and twinned back these are the first.
pub fn twins_of_sequences_see_the_same()
    ensures { (i : Number) (sizes : List ℕ) (first second : Kept) (legs : List Leg) (dealt : List (Number → Values)) (opened : List (List ℕ))
        (tapes : List Tapes) → AreSized sizes first → AreSized sizes second → second i ≡ first i → DealtTheSame i legs dealt →
        Opens sizes first legs opened → Opens sizes second (redealt legs dealt) opened →
        AllFit sizes legs tapes → AllFit sizes (redealt legs dealt) tapes → AreTwins i sizes first legs second (redealt legs dealt) tapes }
{}
