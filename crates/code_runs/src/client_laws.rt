// What the client makes of what three miners tell.
ghost use Rattle.code_runs.specs.ClientLaws.{ToldTogetherAreTheEvents};

/// Law: where what three miners tell stands beside events, the client who puts their notices together is told these events: shares of
/// numbers are added up, and of truth values the bits are read of the words that the three come to by xor.
pub fn told_together_are_the_events()
    ensures { ToldTogetherAreTheEvents }
{}
