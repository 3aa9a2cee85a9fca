//! Laws of hearing: what main hears, and how it is counted.

ghost use Rattle.std.specs.Prelude.{List};
ghost use Rattle.anim_names.specs.declared.lane.Lane.{Lane};
ghost use Rattle.run_laws.specs.Hearing.{CountsAddUp, HeardOnce};
ghost use Rattle.run_rules.specs.Scripts.{ScriptLists};

/// Over all drains and the closing one main hears each event once, in the order of sending.
pub fn each_event_is_heard_once()
    ensures { (script : ScriptLists) (word : List Lane) → HeardOnce script word }
{}

/// The counts of a report add up: each is how many events main had heard by that drain.
pub fn heard_counts_add_up()
    ensures { (script : ScriptLists) (word : List Lane) → CountsAddUp script word }
{}
