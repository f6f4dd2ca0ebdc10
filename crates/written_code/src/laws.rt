// What is true of the words, lines and names in the code of a program.
ghost use Rattle.std.specs.Prelude.{Bool, List, ℕ};
ghost use Rattle.program_trees.specs.TypedPrograms.{TypedProgramTree};
ghost use Rattle.reached_instances.specs.Instances.{Instance};
ghost use Rattle.written_code.specs.Laws.{SaysWhatTreesSay, WellTypedSaysWords};

/// Law: whatever test the words of literals, the lines of constructs and the names of inputs and results pass in the typed trees of a
/// program's instances, they pass it in each step of the instances' code, where truth values and the line 0 pass it.
pub fn code_says_what_its_trees_say()
    ensures { (is_word is_line : ℕ → Bool) (is_text : List ℕ → Bool) (p : TypedProgramTree) (is : List Instance) →
        SaysWhatTreesSay is_word is_line is_text p is }
{}

/// Law: the literals of a well-typed program are words.
pub fn well_typed_trees_say_words()
    ensures { (p : TypedProgramTree) (is : List Instance) → WellTypedSaysWords p is }
{}
