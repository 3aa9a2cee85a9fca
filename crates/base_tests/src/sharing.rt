//! Types that threads may share. The check of the types is the test.

use crate::diary::Diary;
use anim_delegate::{Policy, Verdict};
use anim_names::{
    AnimEvent, ElementId, Entry, EntryKind, GroupId, Lane, LimitName, ModelId, Property,
    TimelineId, Tree,
};
use anim_timeline::Timeline;
use commit_lock::{CommitLock, Held, Journaled, LaneSeat};
use curve_keys::{Curve, CurveFault, Key};
use easing_fixed::{CubicShape, Easing, EasingFault, StepShape};
use edge_io::{
    Failed, HoldGate, IdleGate, MeetGate, MemorySink, MemorySource, StdSink, StdSource, SteadySink,
    SteadySource,
};
use element_anims::ElementAnims;
use event_queue::EventQueue;
use keyframe_effect::{GroupRow, ModelRow, RunState};
use keyframe_model::{CurveOf, ModelSpec, SharedValue, Value};
use micro_time::{Phase, Timing, TimingFault};
use std::io::{Read, Write};
use transform_ops::{ListFault, TransformList, TransformOp};
use value_blend::Opacity;

fn is_shared<T: Send + Sync>() {}

fn is_shared_by_copy<T: Copy + Eq + Send + Sync>() {}

/// That threads may share this value.
pub fn expect_shared<T: Send + Sync>(_: &T) {}

#[test]
fn names_are_shared() {
    is_shared_by_copy::<ElementId>();
    is_shared_by_copy::<ModelId>();
    is_shared_by_copy::<GroupId>();
    is_shared_by_copy::<TimelineId>();
    is_shared_by_copy::<Property>();
    is_shared_by_copy::<Lane>();
    is_shared_by_copy::<Tree>();
    is_shared_by_copy::<LimitName>();
    is_shared_by_copy::<AnimEvent>();
    is_shared_by_copy::<EntryKind>();
    is_shared_by_copy::<Entry>();
    is_shared_by_copy::<Policy>();
    is_shared_by_copy::<Verdict>();
}

#[test]
fn times_easings_and_blends_are_shared() {
    is_shared_by_copy::<Timeline>();
    is_shared_by_copy::<Timing>();
    is_shared_by_copy::<TimingFault>();
    is_shared_by_copy::<Phase>();
    is_shared_by_copy::<Easing>();
    is_shared_by_copy::<EasingFault>();
    is_shared_by_copy::<StepShape>();
    is_shared_by_copy::<CubicShape>();
    is_shared_by_copy::<Opacity>();
}

#[test]
fn lists_curves_models_and_tables_are_shared() {
    is_shared::<TransformOp>();
    is_shared::<TransformList>();
    is_shared::<ListFault>();
    is_shared::<Key<Opacity>>();
    is_shared::<Curve<Opacity>>();
    is_shared::<CurveFault>();
    is_shared::<CurveOf>();
    is_shared::<ModelSpec>();
    is_shared::<Value>();
    is_shared::<SharedValue>();
    is_shared::<RunState>();
    is_shared::<ModelRow>();
    is_shared::<GroupRow>();
    is_shared::<ElementAnims>();
    is_shared::<EventQueue>();
}

fn adapters_are_shared<R: Read + Send + Sync, W: Write + Send + Sync>() {
    is_shared::<StdSource<R>>();
    is_shared::<StdSink<W>>();
}

#[test]
fn sources_and_sinks_may_go_to_another_thread() {
    is_shared::<Failed>();
    is_shared::<MemorySource>();
    is_shared::<SteadySource>();
    is_shared::<MemorySink>();
    is_shared::<SteadySink>();
    adapters_are_shared::<&[u8], Vec<u8>>();
}

#[test]
fn two_lanes_share_a_gate() {
    is_shared::<IdleGate>();
    is_shared::<MeetGate>();
    is_shared::<HoldGate>();
}

fn is_sent<T: Send>() {}

// Whatever the value is, if it may cross threads.
fn lock_is_shared<V: Journaled + Send>() {
    is_shared::<CommitLock<V>>();
    is_sent::<LaneSeat<V>>();
    is_sent::<Held<V>>();
}

#[test]
fn a_lock_is_shared_and_its_seats_are_sent() {
    lock_is_shared::<Diary>();
}
