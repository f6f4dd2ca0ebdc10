// Which instances programs reach, program by program, in the order in which they are first called, and which are checked.
use crate::sources::{program, typed};
use domain_types::{Instance as CheckedInstance, Protection, check};
use program_trees::{Program, TypedProgram};
use reached_instances::{BoundDomain, Instance, reached_instances, template_count};
use row_files::Lines;
use std::alloc::{AllocError, Global};

// What stands before each program: `p` is the private domain 0, `r` is 1.
const DECLARED: &str = "import shared3p; domain p shared3p; domain r shared3p;\n";

// Each program, with what it shows.
const PROGRAMS: [(&str, &str); 14] = [
    (
        "calls in calls",
        "uint64 g(uint64 x) { return x; } uint64 f(uint64 x) { return g(x); } uint64 h() { return 1; }
void main() { uint64 y = f(1); y = g(2); }",
    ),
    (
        "a template called with all domains",
        "template <domain D> D uint64 f(D uint64 x) { return x; }
void main() { p uint64 a; a = f(1); a = f(a); f(2); }",
    ),
    (
        "a template in a template",
        "template <domain D> void f(D uint64 x) { g(x); } template <domain E> void g(E uint64 y) { }
void main() { p uint64 a; f(a); f(1); }",
    ),
    (
        "a template that calls itself with its domains exchanged",
        "template <domain D, domain E> void f(D uint64 x, E uint64 y) { f(y, x); }
void main() { p uint64 a; f(a, 1); }",
    ),
    (
        "one domain variable for two parameters",
        "template <domain D> D uint64 f(D uint64 x, D uint64 y) { return x + y; }
void main() { p uint64 a; r uint64 b; f(1, a); f(b, b); f(b, 2); f(1, 2); }",
    ),
    (
        "calls as arguments",
        "template <domain D> D uint64 f(D uint64 x) { return x; } template <domain D> void g(D uint64 x, D uint64 y) { }
void main() { p uint64 a; g(f(1), f(a)); }",
    ),
    (
        "domains of what operators and functions give",
        "template <domain D, domain E> void f(D bool x, E uint64 y) { }
void main() { p uint64[[1]] a (2); f(a[0] < 1, size(a)); f(declassify(a[0] < 1), sum(a)); f(!(bool) a[0], 1); f(true && (bool) a[1], 2); }",
    ),
    (
        "joined arrays",
        "template <domain D> void g(D uint64[[1]] x) { h(bitExtract(x)); } template <domain D> void h(D bool[[1]] x) { }
void main() { uint64[[1]] b (1); p uint64[[1]] a (2); g(cat(b, a)); g(cat(b, b)); }",
    ),
    (
        "a for loop",
        "template <domain D> D uint64 f(D uint64 x) { return x; }
void main() { p uint64 a; r uint64 b; for (; f(1) < 2; a = f(a)) { b = f(b); } }",
    ),
    (
        "a do loop",
        "template <domain D> D uint64 f(D uint64 x) { return x; }
void main() { p uint64 a; do { a = f(a); } while (f(1) < 2); }",
    ),
    (
        "sizes, initial values and elements",
        "template <domain D> D uint64 f(D uint64 x) { return x; }
void main() { p uint64 a; p uint64[[1]] c (f(1)) = f(a); r uint64 b; r uint64[[1]] d (1); d[f(1)] = f(b); }",
    ),
    (
        "a function that is not called",
        "template <domain D> void f(D uint64 x) { } void other() { p uint64 a; f(a); }
void main() { f(1); }",
    ),
    (
        "if and else",
        "template <domain D> D uint64 f(D uint64 x) { return x; } template <domain D> void g(D uint64 x) { }
void main() { p uint64 a; g(f(a)); g(declassify(f(a))); if (f(1) == 1) { g(f(1)); } else f(a); }",
    ),
    (
        "a private argument for a public value",
        "p uint64 q(p uint64 x) { return f(x); } template <domain D : shared3p> D uint64 f(D uint64 x) { return x; }
void main() { p uint64 a = q(1); }",
    ),
];

fn add_binding(lines: &mut Lines, binding: &[BoundDomain]) {
    for domain in binding {
        match domain {
            BoundDomain::Public => lines.add(" public"),
            BoundDomain::Private(number) => write!(lines, " {number}"),
        }
    }
    lines.add(";")
}

fn add_instances(lines: &mut Lines, instances: &[Instance]) {
    for instance in instances {
        write!(lines, " {}", instance.function);
        add_binding(lines, &instance.binding);
    }
}

// The number of each function that is reached, with what its domain variables are bound to; and how many are of templates.
fn tell_reached(alloc: Global, lines: &mut Lines, typed: &TypedProgram) {
    match reached_instances(alloc, typed) {
        Ok(instances) => {
            add_instances(lines, instances.as_slice());
            let count = template_count(instances.as_slice(), typed);
            write!(lines, " {count} of templates\n");
        }
        Err(AllocError) => lines.run_short(),
    }
}

// The typed tree of a program after what stands before each.
fn typed_behind(alloc: Global, rest: &str) -> Option<TypedProgram> {
    let source = format!(in alloc; "{DECLARED}{rest}").ok()?;
    typed(alloc, source.as_str())
}

fn tell_program(alloc: Global, lines: &mut Lines, title: &str, rest: &str) {
    write!(lines, "{title}:");
    match typed_behind(alloc, rest) {
        Some(typed) => tell_reached(alloc, lines, &typed),
        None => lines.add(" no program\n"),
    }
}

// Function 0 is a template that nobody calls, function 1 one with two bindings, which calls function 2.
const CHECKED: &str = "\
import shared3p; domain p shared3p; domain r shared3p;
template <domain D> void f(D uint64 x) { y = 1; }
template <domain D> void g(D uint64 x) { h(x, true); }
template <domain D, domain E> void h(D uint64 x, E bool y) { g(x); }
void main() { r uint64 a; g(1); g(a); g(2); }
";

fn add_protections(lines: &mut Lines, binding: &[Protection]) {
    for domain in binding {
        match domain {
            Protection::Public => lines.add(" public"),
            Protection::Private(number) => write!(lines, " {number}"),
        }
    }
    lines.add(";")
}

fn tell_instances(lines: &mut Lines, instances: &[CheckedInstance]) {
    for instance in instances {
        write!(lines, " {}", instance.function);
        add_protections(lines, &instance.binding);
    }
    lines.add("\n");
}

// The instances of a program that are checked.
fn tell_checked(alloc: Global, lines: &mut Lines, program: &Program) {
    lines.add("checked once for each binding:");
    match check(alloc, program) {
        Ok(instances) => tell_instances(lines, &instances),
        Err(_) => lines.add(" refused\n"),
    }
}

/// The lines of instances that are reached and of those that are checked.
pub fn tell(alloc: Global, lines: &mut Lines) {
    for (title, rest) in PROGRAMS {
        tell_program(alloc, lines, title, rest);
    }
    match program(alloc, CHECKED) {
        Some(program) => tell_checked(alloc, lines, &program),
        None => lines.add("checked: no program\n"),
    }
}
