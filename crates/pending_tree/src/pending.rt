//! The place of the one commit that waits for its activation. A commit is put in and taken out, and nothing is read
//! of it.

ghost use Rattle.std.specs.Prelude.{◌≡◌, None, Some, is_some, option_map};

use std::marker::Model;
use std::sync::Arc;
use tree_commit::Commit;

/// The commit that was pulled and waits for its activation, where there is one.
///
/// The compositor has one pending tree, on its own thread. It neither pulls nor activates: it does not know what may be
/// put into it, nor when its commit is taken. A contract sees the commit, or none.
pub struct PendingTree {
    commit: Option<Arc<Commit>>,
}

impl Drop for PendingTree {
    fn drop(self) {
        let PendingTree { commit: _commit } = self;
    }
}

impl Model for PendingTree {
    ghost use Rattle.std.specs.Prelude.{Option, option_map};
    ghost use Rattle.tree_commit.specs.Trees.{Committed};

    ghost Value = { Option Committed };

    ghost view = { λ t. option_map (λ commit. commit.value) t.commit };
}

impl PendingTree {
    /// A pending tree with no commit.
    pub fn new() -> PendingTree
        ensures { result ≡ None }
    {
        PendingTree { commit: None }
    }

    /// Makes this the pending commit, where there is none.
    pub fn put(&mut self, commit: Arc<Commit>)
        requires { self.old ≡ None }
        ensures { self.new ≡ Some commit.value }
    {
        self.commit = Some(commit);
    }

    /// The pending commit, which then is pending no more. There is none exactly where no commit was pending.
    pub fn take(&mut self) -> Option<Arc<Commit>>
        ensures taken { option_map (λ commit. commit.value) result ≡ self.old }
        ensures found { is_some result ≡ is_some self.old }
        ensures left { self.new ≡ None }
    {
        self.commit.take()
    }

    /// The pending commit. There is none exactly where no commit is pending.
    pub fn commit(&self) -> Option<&Arc<Commit>>
        ensures value { option_map (λ commit. commit.now.value) result ≡ self.now }
        ensures found { is_some result ≡ is_some self.now }
    {
        self.commit.as_ref()
    }
}
