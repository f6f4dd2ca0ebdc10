// What is true of the raw code of steps.
ghost use Rattle.std.specs.Prelude.{List};
ghost use Rattle.verified_code.specs.Steps.{Function};
ghost use Rattle.code_model.specs.StepLaws.{IsVerifiedWhereRight, SettlesWhereRight};

/// Law: where the steps of code are right, its raw code is verified, and settles to these steps.
pub fn steps_are_what_their_instructions_settle_to()
    ensures verified { (c : List Function) → IsVerifiedWhereRight c }
    ensures settles { (c : List Function) → SettlesWhereRight c }
{}
