// The typed tree of a program with a template, and a program that has none.
use crate::sources::program;
use name_resolution::{ResolveErr, resolve};
use program_trees::{
    DataType, Program, Returned, Slot, SlotDomain, TypedExpression, TypedFunction, TypedProgram,
    TypedStatement,
};
use program_typing::type_program;
use row_files::Lines;
use std::alloc::Global;

// Line 2 fills an array whose size is asked for in line 3.
const PROGRAM: &str = "\
template <domain D> D uint64 f(D uint64 x) { return x; }
void main() { bool[[1]] b
(f(2)); }
";

fn tell_slot(lines: &mut Lines, slot: Slot) {
    match slot.domain {
        SlotDomain::Public => lines.add("public "),
        SlotDomain::Private(number) => write!(lines, "private {number} "),
        SlotDomain::Variable(number) => write!(lines, "variable {number} "),
    }
    lines.add(match slot.shape.element {
        DataType::Uint64 => "uint64",
        DataType::Int64 => "int64",
        DataType::Bool => "bool",
    });
    lines.add(if slot.shape.array { "[[1]]" } else { "" });
}

// What a function gives back.
fn tell_returned(lines: &mut Lines, returned: Returned) {
    match returned {
        Returned::Nothing => lines.add("nothing"),
        Returned::Value(slot) => tell_slot(lines, slot),
    }
}

// The first statement of a function, where it is of the kinds that stand in the program.
fn tell_first(lines: &mut Lines, body: &[TypedStatement]) {
    match body.first() {
        Some(
            TypedStatement::Fill(
                line,
                slot,
                TypedExpression::Call(place, function, _),
                TypedExpression::Truth(truth),
            ),
        ) => write!(
            lines,
            "line {line} fills slot {slot} with {truth}, function {function} is called in line {place}\n"
        ),
        Some(TypedStatement::Return(Some(TypedExpression::Variable(slot)))) => {
            write!(lines, "returns slot {slot}\n")
        }
        _ => lines.add("another statement\n"),
    }
}

fn tell_function(lines: &mut Lines, function: &TypedFunction) {
    write!(
        lines,
        "typed {}: size {}, parameters {}, gives ",
        function.name.as_str(),
        function.size,
        function.parameters
    );
    tell_returned(lines, function.given);
    lines.add(": ");
    tell_first(lines, &function.body);
}

// The functions of a program in the order of their calls.
fn tell_functions(lines: &mut Lines, typed: &TypedProgram) {
    for function in &typed.functions {
        tell_function(lines, function);
    }
}

fn tell_typed(alloc: Global, lines: &mut Lines, program: &Program) {
    match type_program(alloc, program) {
        Ok(typed) => tell_functions(lines, &typed),
        Err(_) => lines.add("not typed\n"),
    }
}

// A program with a name that means nothing.
fn tell_unresolved(alloc: Global, lines: &mut Lines, program: &Program) {
    match resolve(alloc, program) {
        Ok(_) => lines.add("x is resolved\n"),
        Err(ResolveErr::Unresolved) => lines.add("x is not resolved\n"),
        Err(ResolveErr::Memory) => lines.run_short(),
    }
}

fn tell_program(alloc: Global, lines: &mut Lines) {
    match program(alloc, PROGRAM) {
        Some(program) => tell_typed(alloc, lines, &program),
        None => lines.add("typed: no program\n"),
    }
}

/// The lines of the typed functions, and of a name that means nothing.
pub fn tell(alloc: Global, lines: &mut Lines) {
    tell_program(alloc, lines);
    match program(alloc, "void main() { x; }") {
        Some(program) => tell_unresolved(alloc, lines, &program),
        None => lines.add("x: no program\n"),
    }
}
