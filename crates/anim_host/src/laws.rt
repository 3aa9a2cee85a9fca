//! Laws of what a host shows and of what it starts, which the check proves from the definitions.

ghost use Rattle.std.specs.Prelude.{◌≡◌, ℕ};
ghost use Rattle.anim_host.specs.Hosting.{Hosting, shown_in};
ghost use Rattle.anim_host.specs.Ready.{ReadyIsTheRule};
ghost use Rattle.run_rules.specs.Frames.{LocalTimesFit, frame_at, frame_by, shown_by};

/// The frame by what a host shows is the frame by its marks, since a frame asks for models of the active commit alone.
pub fn the_frame_is_that_of_the_marks()
    ensures { (host : Hosting) (time : ℕ) → frame_by host.active (shown_in host) time ≡ frame_at host.active host.marks time }
{}

/// Local times that fit by the marks fit by what a host shows.
pub fn local_times_are_those_of_the_marks()
    ensures { (host : Hosting) (time : ℕ)
        → LocalTimesFit host.active.tree (shown_by host.marks) time
        → LocalTimesFit host.active.tree (shown_in host) time }
{}

/// A group may start by its row and the table of elements exactly where it may by its models, once these tell the truth.
pub fn ready_is_the_rule()
    ensures { ReadyIsTheRule }
{}
