// How many registers the code of a program's `main` has.
use crate::sources::typed;
use bytecode::Code;
use lowering::lower;
use reached_instances::reached_instances;
use row_files::Lines;
use std::alloc::Global;

// The code of a `main` that adds 1 to a variable so many times, one statement after another.
fn additions(alloc: Global, count: usize) -> Option<Code> {
    let statements = "x = x + 1; ".repeat(alloc, count).ok()?;
    let text = format!(in alloc; "void main() {{ uint64 x = 0; {statements}}}").ok()?;
    let program = typed(alloc, text.as_str())?;
    let instances = reached_instances(alloc, &program).ok()?;
    lower(alloc, &program, &instances).ok()
}

fn tell_main(lines: &mut Lines, code: &Code) {
    if code.functions.is_empty() {
        lines.add(" no function\n");
    } else {
        write!(lines, " {} registers\n", code.registers(0));
    }
}

/// The lines of registers, which statement after statement uses again.
pub fn tell(alloc: Global, lines: &mut Lines) {
    for count in [1, 800] {
        write!(lines, "{count} additions:");
        match additions(alloc, count) {
            Some(code) => tell_main(lines, &code),
            None => lines.add(" no code\n"),
        }
    }
}
