//! Types that threads may share. The check of the types is the test.

use frame_report::Report;
use frame_script::{Cause, Script, ScriptFault};
use script_lines::LineFault;

fn is_shared<T: Send + Sync>() {}

#[test]
fn scripts_reports_and_faults_are_shared() {
    is_shared::<Script>();
    is_shared::<ScriptFault>();
    is_shared::<Cause>();
    is_shared::<LineFault>();
    is_shared::<Report>();
}
