//! Reports whose text is worked out.

ghost use Rattle.std.specs.Prelude.{◌≡◌, ◌++◌, codes};
ghost use Rattle.frame_report.specs.Texts.{report_text};
ghost use Rattle.frame_report.specs.Worked.{empty_report, all_kinds};

/// Two reports and their texts: that of a script without a step, and one with a line of each kind.
#[tactic(auto, unfolding(crate::proofs::Opened::whole_text))]
pub fn texts_of_reports()
    ensures nothing { report_text empty_report ≡ codes "report 1\nword -\nheard 0\nend\n" }
    ensures each_kind { report_text all_kinds ≡ codes "report 1\nword MCC\n"
        ++ codes "frame 0 commit 0\n"
        ++ codes "frame 16667 commit 2\n"
        ++ codes "element 1 250000 translate:1:-2:3 scale:1000000:0:-4 rotate:0:0:1:-90000 skew:5:-6\n"
        ++ codes "element 4294967295 1000000 none\n"
        ++ codes "started 7 group 8 at 16667 start -5000\n"
        ++ codes "finished 9 at 33334\n"
        ++ codes "aborted 10 commit 256\n"
        ++ codes "heard 0\nheard 3\nend\n" }
{}
