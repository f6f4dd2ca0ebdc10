// The tapes of a whole run, mapped for the client.
ghost use Rattle.std.specs.Prelude.{◌≡◌, ◌<◌, [], length, IfOk};
ghost use Rattle.input_share.specs.Dealing.{need_of};
ghost use Rattle.view_model.specs.Dealing.{dealt_to, private_sizes};
ghost use Rattle.view_model.specs.TapeMaps.{miners_of, four_of, CanRun};
ghost use Rattle.handed_shares.specs.Handed.{all_of};
ghost use Rattle.client_model.specs.ClientMaps.{to_client, from_client};
ghost use Rattle.tape_twin.specs.Maps.{client_map};

use crate::tape_maps::{copied, mapped};
use crate::way::{Looker, TapeMap, Way};
use gates::Gate;
use joint_steps::dealt_values;
use std::alloc::{AllocError, Global};
use tape_file::Tapes;
use value_file::Inputs;

/// The tapes mapped either way. Where the dealer's tape is too short for the inputs there are no gates, and all words stay.
fn client_mapped(
    alloc: Global,
    way: Way,
    inputs: &Inputs,
    gates: &[Gate],
    tapes: &Tapes,
) -> Result<Tapes, AllocError>
    requires can { CanRun inputs.now gates.now tapes.now }
    requires none { length tapes.now.dealer < need_of inputs.now → gates.now ≡ [] }
    ensures { IfOk result (λ made. made ≡ four_of tapes.now.dealer (client_map way (dealt_to inputs.now tapes.now.dealer) (private_sizes inputs.now) gates.now
        (miners_of tapes.now))) }
{
    let Some(dealt) = dealt_values(alloc, inputs, tapes.dealer())? else {
        return copied(alloc, tapes);
    };
    let dealer = tapes.dealer().to_vec(alloc)?;
    let looker = Looker::Client;
    mapped(alloc, TapeMap { looker, way }, gates, &dealt, dealer, tapes)
}

/// The tapes that the client's view of the run of these gates is made of: as many words of each party, the dealer's and the third miner's as
/// they are.
///
/// An error comes where memory runs short.
pub fn to_client(
    alloc: Global,
    inputs: &Inputs,
    gates: &[Gate],
    tapes: &Tapes,
) -> Result<Tapes, AllocError>
    requires can { CanRun inputs.now gates.now tapes.now }
    requires none { length tapes.now.dealer < need_of inputs.now → gates.now ≡ [] }
    ensures { IfOk result (λ made. made ≡ four_of tapes.now.dealer (to_client all_of (dealt_to inputs.now tapes.now.dealer) (private_sizes inputs.now)
        gates.now (miners_of tapes.now))) }
{
    client_mapped(alloc, Way::ToView, inputs, gates, tapes)
}

/// The way back: the tapes of the run whose client's view is made of these.
///
/// An error comes where memory runs short.
pub fn from_client(
    alloc: Global,
    inputs: &Inputs,
    gates: &[Gate],
    tapes: &Tapes,
) -> Result<Tapes, AllocError>
    requires can { CanRun inputs.now gates.now tapes.now }
    requires none { length tapes.now.dealer < need_of inputs.now → gates.now ≡ [] }
    ensures { IfOk result (λ made. made ≡ four_of tapes.now.dealer (from_client all_of (dealt_to inputs.now tapes.now.dealer) (private_sizes inputs.now)
        gates.now (miners_of tapes.now))) }
{
    client_mapped(alloc, Way::FromView, inputs, gates, tapes)
}
