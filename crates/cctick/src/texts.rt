//! What the program says of itself: its help, and its version. What it says of a script is no part of this file.

/// What `cctick --help` and `cctick -h` write.
pub(crate) const HELP: &str =
    "cctick runs a script of the two threads of a browser's animations, and reports what they did.

  cctick run       reads a script, makes the steps of its two lanes at once, and writes the report
  cctick replay    reads a script, makes its steps in the order of its own word, and writes the report
  cctick gen N     writes the script that is made from N, a number from 1 to 200
  cctick load N    replays the script that is made from N, and writes the totals of its report

For example: cctick replay < examples/toast-fades-in.anim

A script is read from standard input. Its lines, the report and the statuses are described in docs/formats.md of the
repository, and all else in its README.md.
";

/// What `cctick --version` writes: the version of the release, and that of the toolchain which proves it.
pub(crate) const VERSION: &str = "cctick 1.0.0 (rattle-kit-13f)\n";
