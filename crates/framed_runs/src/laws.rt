ghost use Rattle.std.specs.Prelude.{ℕ, List};
ghost use Rattle.proto_core.specs.declared.party.Number.{Number};
ghost use Rattle.proto_core.specs.Net.{MailBegins, posted};
ghost use Rattle.gates.specs.declared.gate.Gate.{Gate};
ghost use Rattle.gates.specs.Clear.{Values};
ghost use Rattle.protocol_model.specs.Runs.{Shares, Tapes, Ready, nodes_of, run_messages};
ghost use Rattle.proto_core.specs.Strand.{Mail};
ghost use Rattle.shared_gates.specs.Model.{run_gates};
ghost use Rattle.framed_runs.specs.Framing.{CanBeFramed};

/// Law: where the shares are as large as the gates want them and the tapes as long, each message of a run of gates has 1 to 2,048 words
/// of 64 bits, so it can be framed.
pub fn messages_of_runs_can_be_framed()
    ensures { (dealt : Number → Values) (dealt_sizes sizes : List ℕ) (gates : List Gate) (values : Shares) (tapes : Tapes) →
        Ready (run_gates dealt dealt_sizes sizes gates) values tapes →
        CanBeFramed (run_messages (run_gates dealt dealt_sizes sizes gates) values tapes) }
{}

/// Law: so can all that the three miners send, as long as what came to them begins the messages of the run.
pub fn what_miners_send_can_be_framed()
    ensures { (dealt : Number → Values) (dealt_sizes sizes : List ℕ) (gates : List Gate) (values : Shares) (tapes : Tapes) (mail : Mail) →
        Ready (run_gates dealt dealt_sizes sizes gates) values tapes →
        MailBegins mail (run_messages (run_gates dealt dealt_sizes sizes gates) values tapes) →
        CanBeFramed (posted (nodes_of (run_gates dealt dealt_sizes sizes gates) values tapes) mail) }
{}
