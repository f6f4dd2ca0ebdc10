ghost use Rattle.bytecode.specs.Raw.{RawCode};
ghost use Rattle.verified_code.specs.Signs.{BoolsAreSigned, IntsAreSigned, WordsAreSigned};
ghost use Rattle.verified_code.specs.Sound.{IsSound};
ghost use Rattle.verified_code.specs.Verified.{IsVerified};

/// Law: in verified code each function's head and each instruction is as it has to be.
pub fn verified_code_is_sound()
    ensures { (code : RawCode) → IsVerified code → IsSound code }
{}

/// Law: code in which all are so is verified.
pub fn sound_code_is_verified()
    ensures { (code : RawCode) → IsSound code → IsVerified code }
{}

/// Law: the operators of code are those that the language's signs mean, between numbers without a sign, with one, and between bools.
pub fn operators_are_those_of_signs()
    ensures words { WordsAreSigned }
    ensures ints { IntsAreSigned }
    ensures bools { BoolsAreSigned }
{}
