//! The keys of one curve as they are read, each judged by the time of the key before it.

ghost use Rattle.std.specs.Prelude.{◌≡◌, ◌≤◌, [], length, map, IfOk};
ghost use Rattle.curve_keys.specs.Curves.{duration_of};
ghost use Rattle.micro_time.specs.declared.TheConstants.{LONGEST_DURATION};
ghost use Rattle.script_lines.specs.LineFaults.{Gives, read_then};
ghost use Rattle.frame_script.specs.Said.{key_said};
ghost use Rattle.frame_script.specs.States.{is_next_time, with_key, taken_curve};

use curve_keys::{Curve, Key};
use easing_fixed::Easing;
use frame_script::Cause;
use script_lines::{KeyValue, LineFault, key_said};
use std::alloc::Global;
use std::marker::Model;

/// The keys of a model so far.
pub(crate) struct KeyList<V: KeyValue> {
    keys: Vec<Key<V>>,
}

impl<V: KeyValue> Drop for KeyList<V> {
    fn drop(self) {
        let KeyList { keys: _keys } = self;
    }
}

impl<V: KeyValue> Model for KeyList<V> {
    ghost use Rattle.std.specs.Prelude.{◌≤◌, List, All};
    ghost use Rattle.curve_keys.specs.declared.key.Key.{Key};
    ghost use Rattle.micro_time.specs.declared.TheConstants.{LONGEST_DURATION};

    ghost Value = { List (Key V) };

    ghost view = { λ l. l.keys.items };

    ghost invariant = { λ l. All (λ key. key.time ≤ LONGEST_DURATION) l.keys.items };
}

impl<V: KeyValue> KeyList<V> {
    pub(crate) fn new(alloc: Global) -> KeyList<V>
        ensures { result ≡ [] }
    {
        KeyList {
            keys: Vec::new(alloc),
        }
    }

    pub(crate) fn len(&self) -> usize
        ensures { result ≡ length self.now }
    {
        self.keys.len()
    }

    /// Takes the key that a line says, where its time may come next.
    pub(crate) fn push_said(&mut self, alloc: Global, fields: &[&[u8]]) -> Result<(), LineFault>
        ensures { Gives (λ _. self.new) result
            (read_then (key_said V.is_long V.said (map (λ field. field.now) fields.now)) (with_key self.old)) }
    {
        let key = match key_said(alloc, fields) {
            Ok(key) => key,
            Err(fault) => return Err(fault),
        };
        if !is_next_time(&self.keys, key.time) {
            return Err(LineFault::Refused(Cause::BadCurve));
        }
        self.keys.push(key)?;
        Ok(())
    }

    /// The curve through the keys, where they make one.
    #[tactic(auto, unfolding(frame_script::specs::States::taken_curve))]
    pub(crate) fn into_curve(self, easing: Easing) -> Result<Curve<V>, LineFault>
        ensures taken { Gives (λ curve. curve) result (taken_curve easing self) }
        ensures lasts { IfOk result (λ curve. (1 ≤ duration_of curve) × (duration_of curve ≤ LONGEST_DURATION)) }
    {
        let KeyList { keys } = self;
        match Curve::new(keys, easing) {
            Ok(curve) => {
                let _duration = curve.duration();
                Ok(curve)
            }
            Err(_) => Err(LineFault::Refused(Cause::BadCurve)),
        }
    }
}

// Whether a key of this time may come next: the first is at time 0, and each further one later than the one before.
fn is_next_time<V>(keys: &[Key<V>], time: u64) -> bool
    ensures { result ≡ is_next_time keys.now time }
{
    let count = keys.len();
    if count == 0 {
        return time == 0;
    }
    keys[count - 1].time < time
}
