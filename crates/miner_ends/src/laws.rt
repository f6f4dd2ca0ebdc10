// How a miner at work ends.
ghost use Rattle.proto_core.specs.declared.party.Number.{Number};
ghost use Rattle.input_share.specs.ShareFile.{MinerFile};
ghost use Rattle.miner_core.specs.Story.{Story};
ghost use Rattle.miner_ends.specs.Given.{EndsWhereItCan, AnswersNoOtherEnd};
ghost use Rattle.miner_ends.specs.ShareFiles.{SharesEndWhereTheyCan, SharesAnswerNoOtherEnd};

/// Law: a miner that was given verified code, what everybody knows of the inputs, shares of the private ones of their sizes, a tape of the
/// length that is told, and any budget, ends as the code's evaluation can, whatever messages came to it: with some words for it to be told,
/// evaluation ends so, at this cost, with so many words drawn and these opened. No gate is ever unfit for it, no words are missing, and it
/// never goes on for more steps than such code can have.
pub fn miners_end_as_evaluation_can()
    ensures ends { (i : Number) (s : Story) → EndsWhereItCan i s }
    ensures answers { (i : Number) (s : Story) → AnswersNoOtherEnd i s }
{}

/// Law: a miner that was given verified code, the public part and the shares of its share file as they are read, a tape of the length that the
/// file says of it, and any budget, ends as the code's evaluation can, whatever messages came to it. It never answers that a gate was unfit,
/// that words were missing, or that no steps were left.
pub fn miners_of_share_files_end_as_evaluation_can()
    ensures ends { (share : MinerFile) (s : Story) → SharesEndWhereTheyCan share s }
    ensures answers { (share : MinerFile) (s : Story) → SharesAnswerNoOtherEnd share s }
{}
