//! The gates before the lanes' steps: the program's, which does nothing, and two for tests, by which lanes wait for
//! each other. No gate changes what a run reads.

use anim_names::Lane;
use std::hint::spin_loop;
use std::sync::atomic::{AtomicBool, Ordering};

/// How often a lane looks for the other one before it gives up.
const MOST_TURNS: u32 = 200_000_000;

/// The step of the compositor for which main waits at a [`HoldGate`].
const AWAITED_STEP: u32 = 3;

/// What each lane passes before each of its steps.
///
/// It answers nothing and changes nothing that a run reads. All it can do is to take time, and so make one order of the
/// steps more likely than another. Both lanes share it.
pub trait Gate {
    /// The lane's next step is the one with this number, counted from 0.
    fn pass(&self, lane: Lane, step: u32);
}

/// The gate of the program. It does nothing.
#[derive(Clone, Copy)]
pub struct IdleGate;

impl Gate for IdleGate {
    fn pass(&self, _lane: Lane, _step: u32) {}
}

/// A gate for tests that shows whether two lanes were under way at once. Before its first step each lane waits until
/// the other has come there too. It gives up after 200,000,000 looks, which take some seconds. A gate serves one run.
#[derive(Drop)]
pub struct MeetGate {
    meeting: Meeting,
}

impl MeetGate {
    pub fn new() -> Self {
        MeetGate::with_turns(MOST_TURNS)
    }

    /// A gate at which a lane gives up after this many looks.
    pub fn with_turns(turns: u32) -> Self {
        MeetGate {
            meeting: Meeting::new(turns),
        }
    }

    /// Whether each lane saw the other.
    pub fn met(&self) -> bool {
        self.meeting.met()
    }

    /// Whether a lane did not see the other, and went on without it.
    pub fn gave_up(&self) -> bool {
        self.meeting.gave_up()
    }
}

impl Gate for MeetGate {
    fn pass(&self, lane: Lane, step: u32) {
        if step == 0 {
            self.meeting.come(lane);
            self.meeting.wait_for(other(lane));
        }
    }
}

/// A gate for tests that makes a run take one of a few orders: the compositor begins once main has come to the step
/// `first`, and there main waits until the compositor has come to its step 3. Each gives up after 200,000,000 looks,
/// which take some seconds. A gate serves one run.
#[derive(Drop)]
pub struct HoldGate {
    meeting: Meeting,
    first: u32,
}

impl HoldGate {
    pub fn new(first: u32) -> Self {
        HoldGate::with_turns(first, MOST_TURNS)
    }

    /// A gate at which a lane gives up after this many looks.
    pub fn with_turns(first: u32, turns: u32) -> Self {
        HoldGate {
            meeting: Meeting::new(turns),
            first,
        }
    }

    /// Whether each lane saw that the other had come as far as it waits for.
    pub fn met(&self) -> bool {
        self.meeting.met()
    }

    /// Whether a lane did not see it, and went on.
    pub fn gave_up(&self) -> bool {
        self.meeting.gave_up()
    }
}

impl Gate for HoldGate {
    fn pass(&self, lane: Lane, step: u32) {
        match lane {
            Lane::Main if step == self.first => {
                self.meeting.come(Lane::Main);
                self.meeting.wait_for(Lane::Compositor);
            }
            Lane::Compositor if step == 0 => self.meeting.wait_for(Lane::Main),
            Lane::Compositor if step == AWAITED_STEP => self.meeting.come(Lane::Compositor),
            _ => {}
        }
    }
}

/// Two lanes, each of which comes once and looks whether the other has come.
#[derive(Drop)]
struct Meeting {
    main: Arrival,
    compositor: Arrival,
    gave_up: AtomicBool,
    turns: u32,
}

/// Whether a lane has come, and whether the other has seen it.
#[derive(Drop)]
struct Arrival {
    has_come: AtomicBool,
    was_seen: AtomicBool,
}

impl Meeting {
    fn new(turns: u32) -> Self {
        Meeting {
            main: Arrival::new(),
            compositor: Arrival::new(),
            gave_up: AtomicBool::new(false),
            turns,
        }
    }

    fn met(&self) -> bool {
        self.main.was_seen() && self.compositor.was_seen()
    }

    fn gave_up(&self) -> bool {
        self.gave_up.load(Ordering::SeqCst)
    }

    fn come(&self, lane: Lane) {
        self.of(lane).has_come.store(true, Ordering::SeqCst);
    }

    /// Looks whether this lane has come, until it has or the turns are over.
    fn wait_for(&self, lane: Lane) {
        let awaited = self.of(lane);
        for _ in 0..self.turns {
            if awaited.has_come.load(Ordering::SeqCst) {
                awaited.was_seen.store(true, Ordering::SeqCst);
                return;
            }
            spin_loop();
        }
        self.gave_up.store(true, Ordering::SeqCst);
    }

    fn of(&self, lane: Lane) -> &Arrival {
        match lane {
            Lane::Main => &self.main,
            Lane::Compositor => &self.compositor,
        }
    }
}

impl Arrival {
    fn new() -> Self {
        Arrival {
            has_come: AtomicBool::new(false),
            was_seen: AtomicBool::new(false),
        }
    }

    fn was_seen(&self) -> bool {
        self.was_seen.load(Ordering::SeqCst)
    }
}

fn other(lane: Lane) -> Lane {
    match lane {
        Lane::Main => Lane::Compositor,
        Lane::Compositor => Lane::Main,
    }
}
