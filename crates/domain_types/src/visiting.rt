// The visit of each instance that is checked.
ghost use Rattle.std.specs.Prelude.{◌≡◌, ◌||◌, ℕ, [], IfOk, map, if◌then◌else◌};
ghost use Rattle.std.specs.BTreeSet.{contains};
ghost use Rattle.std.specs.Ordering.{nat_cmp};
ghost use Rattle.program_trees.specs.Programs.{function_tree};
ghost use Rattle.domain_types.specs.FunctionTypes.{domain_variables_faults};
ghost use Rattle.domain_types.specs.Types.{is_without};
ghost use Rattle.declarations.specs.Views.{declared, tree_at};
ghost use Rattle.domain_types.specs.Views.{call_seen, calls_seen};
ghost use Rattle.domain_types.specs.Instances.{instance_seen};
ghost use Rattle.domain_types.specs.inner.WorkList.{with_binding, with_calls, with_plain, plain_instances, instance_faults, instance_calls, gathered};
ghost use Rattle.domain_types.specs.inner.WorkList.{is_called, heads_faults, AreVisited};
ghost use Rattle.domain_types.specs.inner.LeastFault.{least};

use crate::calls::{Call, Found};
use crate::fault::TypeFault;
use crate::functions::function;
use crate::heads::head;
use crate::instance::Instance;
use crate::protections::Protections;
use crate::setting::Setting;
use crate::work_list::WorkList;
use declarations::Declarations;
use program_trees::Function;
use std::alloc::{AllocError, Global};
use std::collections::BTreeSet;

/// What the checker has visited.
#[derive(Drop)]
pub struct Visits {
    /// The instances that are checked.
    pub list: WorkList,
    /// The numbers of the functions that they call.
    pub called: BTreeSet<usize>,
}

// Whether a function has no domain variables.
fn is_plain(function: &Function) -> bool
    ensures { result ≡ is_without (function_tree function.now).variables }
{
    function.variables.is_empty()
}

// The instances of the plain functions.
fn plain(alloc: Global, functions: &[&Function]) -> Result<WorkList, AllocError>
    ensures { IfOk result (λ list. list ≡ with_plain [] 0 (map tree_at functions.now)) }
{
    let mut list = WorkList::new(alloc);
    for number in 0..functions.len() {
        if is_plain(functions[number]) {
            list = list.with(alloc, number, &[])?;
        }
    }
    Ok(list)
}

// Checks an instance; its calls.
fn visit<'p>(
    alloc: Global,
    least_fault: &mut Option<TypeFault>,
    declarations: &Declarations<'p>,
    instance: &Instance,
) -> Result<Vec<Call>, AllocError>
    ensures least_fault { IfOk result
        (λ _. least_fault.new ≡ least least_fault.old (instance_faults (declared declarations.now) (instance_seen instance.now))) }
    ensures calls { IfOk result (λ calls. calls_seen calls.items ≡ instance_calls (declared declarations.now) (instance_seen instance.now)) }
{
    let mut found = Found {
        least_fault: *least_fault,
        calls: Vec::new(alloc),
    };
    if let Some(each) = declarations.functions.get(instance.function) {
        let here = Setting {
            alloc,
            declarations,
            function: *each,
            binding: &instance.binding,
        };
        function(&mut found, &here)?;
    }
    let Found {
        least_fault: now,
        calls,
    } = found;
    *least_fault = now;
    Ok(calls)
}

// The work list after a call.
fn with_call(alloc: Global, list: WorkList, call: &Call) -> Result<WorkList, AllocError>
    ensures { IfOk result (λ l. l ≡ with_binding list (call_seen call.now).function (call_seen call.now).binding) }
{
    match &call.binding {
        None => Ok(list),
        Some(binding) => list.with(alloc, call.function, binding),
    }
}

// The work list after these calls, whose functions are noted as called.
fn with_calls(
    alloc: Global,
    list: WorkList,
    called: &mut BTreeSet<usize>,
    calls: &[Call],
) -> Result<WorkList, AllocError>
    ensures list { IfOk result (λ l. l ≡ with_calls list (calls_seen calls.now)) }
    ensures called { IfOk result (λ _. (k : ℕ) → contains nat_cmp called.new k ≡ contains nat_cmp called.old k || is_called k (calls_seen calls.now)) }
{
    let mut list = list;
    for call in calls {
        called.insert(call.function)?;
        list = with_call(alloc, list, call)?;
    }
    Ok(list)
}

/// Checks each plain function, and each instance that a call in a checked one gives.
pub fn visit_all<'p>(
    alloc: Global,
    least_fault: &mut Option<TypeFault>,
    declarations: &Declarations<'p>,
) -> Result<Visits, AllocError>
    ensures least_fault { IfOk result (λ v. least_fault.new ≡ least least_fault.old (gathered (instance_faults (declared declarations.now)) v.list)) }
    ensures list { IfOk result (λ v. AreVisited (declared declarations.now) (plain_instances (declared declarations.now)) v.list v.list) }
    ensures called { IfOk result (λ v. (k : ℕ) → contains nat_cmp v.called k ≡ is_called k (gathered (instance_calls (declared declarations.now)) v.list)) }
{
    let mut list = plain(alloc, &declarations.functions)?;
    let mut called = BTreeSet::new(alloc);
    let mut next = 0;
    while next < list.len() {
        let calls = visit(alloc, least_fault, declarations, list.instance(next))?;
        list = with_calls(alloc, list, &mut called, &calls)?;
        next += 1;
    }
    Ok(Visits { list, called })
}

// Checks the head of a function where it is wanted.
fn head_if<'p>(
    least_fault: &mut Option<TypeFault>,
    declarations: &Declarations<'p>,
    protections: &Protections<'p>,
    wanted: bool,
    function: &'p Function,
)
    ensures { least_fault.new ≡ least least_fault.old
        (if wanted then domain_variables_faults (declared declarations.now) protections.now (function_tree function.now).parameters []
        (function_tree function.now).variables else []) }
{
    if wanted {
        head(least_fault, declarations, protections, function);
    }
}

/// Checks the head of each function that is called.
#[tactic(auto, using(crate::proofs::Faults::joins))]
pub fn called_heads<'p>(
    least_fault: &mut Option<TypeFault>,
    declarations: &Declarations<'p>,
    protections: &Protections<'p>,
    called: &BTreeSet<usize>,
)
    ensures { least_fault.new ≡ least least_fault.old
        (heads_faults (declared declarations.now) protections.now (contains nat_cmp called.now) 0 (declared declarations.now).functions) }
{
    let functions = declarations.functions.as_slice();
    for number in 0..functions.len() {
        let wanted = called.contains(&number);
        head_if(
            least_fault,
            declarations,
            protections,
            wanted,
            functions[number],
        );
    }
}
