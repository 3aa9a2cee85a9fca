//! How much a script may hold. The numbers are this project's own.

/// What a script may hold at most a fixed number of.
#[derive(Clone, Copy, Debug, PartialEq, Eq)]
pub enum LimitName {
    /// Steps of one lane: at most [`MOST_STEPS`].
    Steps,
    /// Commits: at most [`MOST_COMMITS`].
    Commits,
    /// Elements ever added, the same id counted again at each adding: at most [`MOST_ELEMENTS`].
    Elements,
    /// Keyframe models ever added: at most [`MOST_MODELS`].
    Models,
    /// Timelines: at most [`MOST_TIMELINES`].
    Timelines,
    /// Ticks times elements ever added: at most [`MOST_FRAMES`].
    Frames,
}

/// The most steps that one lane may have.
pub const MOST_STEPS: u32 = 10_000;

/// The most commits that main may make.
pub const MOST_COMMITS: u32 = 256;

/// The most elements that may ever be added. The same id counts again at each adding.
pub const MOST_ELEMENTS: u32 = 256;

/// The most keyframe models that may ever be added.
pub const MOST_MODELS: u32 = 1_024;

/// The most timelines that may be added. None is ever removed.
pub const MOST_TIMELINES: u32 = 64;

/// The most that the ticks times the elements ever added may come to: no report has more rows.
pub const MOST_FRAMES: u32 = 200_000;
