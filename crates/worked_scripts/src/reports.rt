//! One script a function.
#![tactic(auto, unfolding(crate::proofs::Opened::whole_run))]

ghost use Rattle.std.specs.Prelude.{◌≡◌};
ghost use Rattle.run_rules.specs.Runs.{report_of};
ghost use Rattle.run_rules.specs.Scripts.{IsWellFormed};
ghost use Rattle.worked_scripts.specs.AbortedForGood as aborted_for_good;
ghost use Rattle.worked_scripts.specs.DroppedModel as dropped_model;
ghost use Rattle.worked_scripts.specs.DroppedWithElement as dropped_with_element;
ghost use Rattle.worked_scripts.specs.EarlyPull as early_pull;
ghost use Rattle.worked_scripts.specs.FadeIn as fade_in;
ghost use Rattle.worked_scripts.specs.FillBelow as fill_below;
ghost use Rattle.worked_scripts.specs.Generated as generated;
ghost use Rattle.worked_scripts.specs.HalfAGroup as half_a_group;
ghost use Rattle.worked_scripts.specs.IdleSteps as idle_steps;
ghost use Rattle.worked_scripts.specs.InterleavedGroups as interleaved_groups;
ghost use Rattle.worked_scripts.specs.LateElement as late_element;
ghost use Rattle.worked_scripts.specs.LostElement as lost_element;
ghost use Rattle.worked_scripts.specs.NoIterations as no_iterations;
ghost use Rattle.worked_scripts.specs.Policies as policies;
ghost use Rattle.worked_scripts.specs.RecordedStarts as recorded_starts;
ghost use Rattle.worked_scripts.specs.ReplacedCommit as replaced_commit;
ghost use Rattle.worked_scripts.specs.SeveralOrders as several_orders;
ghost use Rattle.worked_scripts.specs.WaitingGroup as waiting_group;

/// An element fades in.
pub fn fade_in()
    ensures well_formed { IsWellFormed fade_in.script }
    ensures report { report_of fade_in.script fade_in.script.word ≡ fade_in.report }
{}

/// A model without iterations starts and finishes in two ticks of one time.
pub fn no_iterations()
    ensures well_formed { IsWellFormed no_iterations.script }
    ensures report { report_of no_iterations.script no_iterations.script.word ≡ no_iterations.report }
{}

/// A group waits for its element, and its models start together.
pub fn late_element()
    ensures well_formed { IsWellFormed late_element.script }
    ensures report { report_of late_element.script late_element.script.word ≡ late_element.report }
{}

/// Nothing starts while the pending commit has a group's model and not its element.
pub fn lost_element()
    ensures well_formed { IsWellFormed lost_element.script }
    ensures report { report_of lost_element.script lost_element.script.word ≡ lost_element.report }
{}

/// A model that the pending commit has dropped starts, and is aborted.
pub fn dropped_model()
    ensures well_formed { IsWellFormed dropped_model.script }
    ensures report { report_of dropped_model.script dropped_model.script.word ≡ dropped_model.report }
{}

/// A model starts that the pending commit has dropped with its element, and is aborted.
pub fn dropped_with_element()
    ensures well_formed { IsWellFormed dropped_with_element.script }
    ensures report { report_of dropped_with_element.script dropped_with_element.script.word ≡ dropped_with_element.report }
{}

/// A group goes on blocking with a model that was aborted.
pub fn half_a_group()
    ensures well_formed { IsWellFormed half_a_group.script }
    ensures report { report_of half_a_group.script half_a_group.script.word ≡ half_a_group.report }
{}

/// A model waits for a whole group, and starts in the tick in which the group finishes.
pub fn waiting_group()
    ensures well_formed { IsWellFormed waiting_group.script }
    ensures report { report_of waiting_group.script waiting_group.script.word ≡ waiting_group.report }
{}

/// A commit that was replaced before a pull is never seen.
pub fn replaced_commit()
    ensures well_formed { IsWellFormed replaced_commit.script }
    ensures report { report_of replaced_commit.script replaced_commit.script.word ≡ replaced_commit.report }
{}

/// Pulls, activations and drains with nothing to do.
pub fn idle_steps()
    ensures well_formed { IsWellFormed idle_steps.script }
    ensures report { report_of idle_steps.script idle_steps.script.word ≡ idle_steps.report }
{}

/// A pull before any commit takes nothing.
pub fn early_pull()
    ensures well_formed { IsWellFormed early_pull.script }
    ensures report { report_of early_pull.script early_pull.script.word ≡ early_pull.report }
{}

/// One script in several orders of its lanes.
pub fn several_orders()
    ensures well_formed { IsWellFormed several_orders.script }
    ensures report { report_of several_orders.script several_orders.script.word ≡ several_orders.report }
    ensures first { report_of several_orders.script several_orders.first_word ≡ several_orders.first_report several_orders.first_word }
    ensures other_first { report_of several_orders.script several_orders.other_first_word ≡ several_orders.first_report several_orders.other_first_word }
    ensures early { report_of several_orders.script several_orders.early_word ≡ several_orders.early_report }
{}

/// Models start group by group, and finish in the order of the commit.
pub fn interleaved_groups()
    ensures well_formed { IsWellFormed interleaved_groups.script }
    ensures report { report_of interleaved_groups.script interleaved_groups.script.word ≡ interleaved_groups.report }
{}

/// A model that gives no value hides none, and a finished one fills as long as it is in the active commit.
pub fn fill_below()
    ensures well_formed { IsWellFormed fill_below.script }
    ensures report { report_of fill_below.script fill_below.script.word ≡ fill_below.report }
{}

/// A model that was aborted shows nothing more and never starts again.
pub fn aborted_for_good()
    ensures well_formed { IsWellFormed aborted_for_good.script }
    ensures report { report_of aborted_for_good.script aborted_for_good.script.word ≡ aborted_for_good.report }
{}

/// After what it has heard main's tree keeps the models that their policies keep.
pub fn policies()
    ensures well_formed { IsWellFormed policies.script }
    ensures report { report_of policies.script policies.script.word ≡ policies.report }
    ensures kept { policies.models_left ≡ policies.kept }
{}

/// The start that is recorded is the given one, or the time of the timeline, which may be negative.
pub fn recorded_starts()
    ensures well_formed { IsWellFormed recorded_starts.script }
    ensures report { report_of recorded_starts.script recorded_starts.script.word ≡ recorded_starts.report }
{}

/// The smallest script of the generator.
pub fn generated()
    ensures well_formed { IsWellFormed generated.script }
    ensures report { report_of generated.script generated.script.word ≡ generated.report }
{}
