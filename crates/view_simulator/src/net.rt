// What a delivery comes to.
ghost use Rattle.std.specs.Prelude.{ℕ, List, []};
ghost use Rattle.proto_core.specs.declared.party.Number.{Number};
ghost use Rattle.counted_net.specs.Answers.{delivery_seen, IsNetAnswer};
ghost use Rattle.view_simulator.specs.Sizes.{SizesFit};
ghost use Rattle.view_model.specs.Dealing.{hidden_sizes};
ghost use Rattle.view_simulator.specs.Simulating.{scripts_made};

use crate::gate_by_gate::scripts;
use crate::sizes::hidden_sizes;
use counted_net::{Delivery, DeliveryErr, deliver_counts};
use gates::Gate;
use proto_core::Link;
use std::alloc::Global;
use value_file::PublicPart;

/// The links on which the messages of these gates are delivered, whatever the shares of the inputs, or why the delivery is refused. None of
/// the gates takes 2^64 elements.
pub(crate) fn delivered(
    alloc: Global,
    part: &PublicPart,
    gates: &[Gate],
    delivery: &Delivery,
) -> Result<Vec<Link>, DeliveryErr>
    requires { SizesFit (hidden_sizes part.now) [] gates.now }
    ensures { (i : Number) (dealer : List ℕ) → IsNetAnswer (scripts_made i part.now dealer gates.now) (delivery_seen delivery.now) result }
{
    let sizes = hidden_sizes(alloc, part.entries())?;
    let scripts = scripts(alloc, &sizes, gates)?;
    deliver_counts(alloc, &scripts, delivery)
}
