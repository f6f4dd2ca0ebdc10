/// What is wrong at an instruction.
#[derive(Clone, Copy)]
pub enum CodeProblem {
    /// A register, a function or a name isn't there.
    BadRegister,
    /// A register, an operand or the function's head is of another kind than is wanted.
    BadKind,
    /// A target isn't there, a jump doesn't go forward, or a function goes on after its last instruction.
    BadJump,
}

/// The first fault of code: at which instruction of which function, counted from 0.
#[derive(Clone, Copy)]
pub struct VerifyErr {
    pub problem: CodeProblem,
    pub function: usize,
    pub instruction: usize,
}
