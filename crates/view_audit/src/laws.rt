// What is true of three views, and of the steps of an audit.
ghost use Rattle.std.specs.Prelude.{◌≡◌, ◌≢◌, ◌+◌, ℕ, List, [], length, Some, None};
ghost use Rattle.program_trees.specs.Programs.{ProgramTree};
ghost use Rattle.program_trees.specs.TypedPrograms.{TypedProgramTree};
ghost use Rattle.reached_instances.specs.Instances.{Instance};
ghost use Rattle.proto_core.specs.declared.link.Link.{Link};
ghost use Rattle.proto_core.specs.declared.party.Number.{Number};
ghost use Rattle.value_file.specs.declared.public.PublicEntry.{PublicEntry};
ghost use Rattle.view_text.specs.View.{View};
ghost use Rattle.merged_orders.specs.Merging.{Orders, Stuck, links_to};
ghost use Rattle.merged_views.specs.Unreached.{NoneIsLeftBelow};
ghost use Rattle.view_audit.specs.Audit.{IsRefuted, first_of_five, orders};
ghost use Rattle.view_audit.specs.Found.{scripts};
ghost use Rattle.view_audit.specs.Laws.{IsAuditable, PassedViewsAreOneRun, ViewsOfOneRunPass};
ghost use Rattle.view_audit.specs.Places.{place_in};
ghost use Rattle.view_audit.specs.Steps.{first_got};

/// Law: where the five steps find nothing wrong in three views, and a schedule that goes as far as it can leaves none of their messages, this
/// schedule is accepted and the miners see these views by it, on the inputs and tapes that are found.
pub fn passed_views_are_one_run()
    ensures { (source : ProgramTree) (p : TypedProgramTree) (part : List PublicEntry) (lengths : List ℕ) (budget : ℕ) (views : Number → View)
        (ls : List Link) (left : Orders) → PassedViewsAreOneRun source p part lengths budget views ls left }
{}

/// Law: in three views of one run the five steps find nothing wrong, and a schedule that goes as far as it can leaves none of their messages.
pub fn views_of_one_run_pass()
    ensures { (source : ProgramTree) (p : TypedProgramTree) (part : List PublicEntry) (lengths : List ℕ) (budget : ℕ) (views : Number → View)
        (order : List Link) → ViewsOfOneRunPass source p part lengths budget views order }
{}

/// Law: where a step names a line, it is the first failure and the views are of no run. So it is where no step names one, of the first message
/// that a schedule leaves which goes as far as it can, of the lowest miner of which it leaves any.
pub fn failures_refute()
    ensures step { (source : ProgramTree) (p : TypedProgramTree) (is : List Instance) (part : List PublicEntry) (lengths : List ℕ) (budget : ℕ)
        (views : Number → View) (i : Number) (line : ℕ) →
        IsAuditable source p is part lengths views → first_of_five p part lengths budget views ≡ Some (place_in i line) →
        IsRefuted p part lengths budget views i line }
    ensures line { (source : ProgramTree) (p : TypedProgramTree) (is : List Instance) (part : List PublicEntry) (lengths : List ℕ) (budget : ℕ)
        (views : Number → View) (i : Number) (ls : List Link) (left : Orders) →
        IsAuditable source p is part lengths views → first_of_five p part lengths budget views ≡ None →
        Stuck (scripts part lengths views p budget) (orders p part lengths budget views) ls left → NoneIsLeftBelow left i → left i ≢ [] →
        IsRefuted p part lengths budget views i (first_got (views i) + length (links_to i ls)) }
{}
