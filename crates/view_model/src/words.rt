// What is known of the words of tapes.
ghost use Rattle.std.specs.Prelude.{◌<◌, ◌^◌, length};
ghost use Rattle.proto_core.specs.declared.party.Number.{Number};
ghost use Rattle.view_model.specs.TapeMaps.{miners_of, AreTapes};

use input_share::see_words;
use tape_file::Tapes;

/// For proofs: from here on each word of the tapes is known to be below 2^64, and so is how many words each miner's tape has. Nothing is
/// changed or answered.
pub fn see_tapes(tapes: &Tapes)
    ensures words { AreTapes tapes.now }
    ensures few { (i : Number) → length (miners_of tapes.now i) < 2 ^ 64 }
{
    see_words(tapes.dealer());
    see_words(tapes.miner1());
    see_words(tapes.miner2());
    see_words(tapes.miner3());
}
