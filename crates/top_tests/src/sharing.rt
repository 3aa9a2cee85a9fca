//! Types that threads may share. The check of the types is the test.

use anim_delegate::VerdictFunction;
use easing_fixed::EasingFunction;
use side_compositor::CompositorSide;
use side_main::MainSide;

fn is_shared<T: Send + Sync>() {}

// Threads may share both sides, whatever the hooks' functions are, where they may share these.
fn sides_are_shared<'h, F: VerdictFunction + Sync + 'h, E: EasingFunction + Sync + 'h>() {
    is_shared::<MainSide<'h, F>>();
    is_shared::<CompositorSide<'h, E>>();
}
