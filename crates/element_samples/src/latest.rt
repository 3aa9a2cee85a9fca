//! What counts of one property of an element.

ghost use Rattle.std.specs.Prelude.{◌≡◌, None, OnOk};
ghost use Rattle.run_rules.specs.Frames.{later_of, show};
ghost use Rattle.tree_commit.specs.Views.{look_of};
ghost use Rattle.element_samples.specs.Samples.{is_older, value_in};
ghost use Rattle.keyframe_model.specs.Views.{shared_value_of};

use keyframe_model::SharedValue;
use std::alloc::AllocError;
use std::marker::Model;
use tree_commit::Base;

/// What counts of one property of an element, of the samples seen so far: that of the model that started last.
///
/// A contract sees the sample with its order, where one counts.
pub struct Latest {
    given: Option<Given>,
}

impl Drop for Latest {
    fn drop(self) {
        let Latest { given: _given } = self;
    }
}

/// A sample, and the index of the mark of its model's start.
struct Given {
    sample: SharedValue,
    order: u32,
}

impl Drop for Given {
    fn drop(self) {
        let Given {
            sample: _sample,
            order: _,
        } = self;
    }
}

impl Model for Given {
    ghost use Rattle.run_rules.specs.Frames as frames;
    ghost use Rattle.keyframe_model.specs.Views.{shared_value_of};

    ghost Value = { frames.Given };

    ghost view = { λ g. record { value = shared_value_of g.sample; order = g.order } };
}

impl Model for Latest {
    ghost use Rattle.std.specs.Prelude.{Option};
    ghost use Rattle.run_rules.specs.Frames as frames;

    ghost Value = { Option frames.Given };

    ghost view = { λ l. l.given };
}

impl Latest {
    /// Nothing counts yet.
    pub fn none() -> Latest
        ensures { result ≡ None }
    {
        Latest { given: None }
    }

    /// Whether nothing counts yet, or a sample of a lower order: then a sample of this order counts in its place.
    pub fn is_older(&self, order: u32) -> bool
        ensures { result ≡ is_older self.now order }
    {
        match &self.given {
            None => true,
            Some(given) => given.order < order,
        }
    }

    /// Counts one more sample, whose model's start has this index among the marks. Of two samples of one order the first
    /// counts.
    pub fn count(&mut self, sample: SharedValue, order: u32)
        ensures { self.new ≡ later_of self.old (record { value = shared_value_of sample; order = order }) }
    {
        if self.is_older(order) {
            self.given = Some(Given { sample, order });
        }
    }

    /// Shows the sample that counts, where there is one, in the place of what is shown of its property. A list is shared
    /// with the sample.
    pub fn show_on(&self, shown: &mut Base) -> Result<(), AllocError>
        ensures { OnOk result (look_of shown.new ≡ show (look_of shown.old) (value_in self.now)) }
    {
        match &self.given {
            None => Ok(()),
            Some(given) => {
                shown.set_own(given.sample.clone()?);
                Ok(())
            }
        }
    }
}
