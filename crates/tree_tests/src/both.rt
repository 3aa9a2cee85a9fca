//! Main's tree and a book beside it that are given the same edits and commits: both are to answer alike.

use crate::samples::{self, Names};
use anim_names::limit::MOST_COMMITS;
use anim_names::{ElementId, ModelId, Property};
use main_tree::MainTree;
use std::alloc::Global;
use std::process::Abort;
use std::sync::Arc;
use std::test::Fail;
use tree_commit::{Commit, Edit, EditBook, EditFault, EditRefusal};

/// What is tried, by numbers.
#[derive(Clone, Copy)]
pub enum Edited {
    AddElement(u32),
    RemoveElement(u32),
    SetOpacity(u32),
    SetTransform(u32),
    AddTimeline(u32),
    AddModel(Names, Option<u64>, Property),
    RemoveModel(u32),
    /// A commit, which is no edit.
    Commit,
}

/// What is expected of it.
#[derive(Clone, Copy)]
pub enum Answer {
    Made,
    /// The model that is to be removed is gone.
    Gone,
    Refused(EditRefusal),
}

pub struct Both {
    tree: MainTree,
    book: EditBook,
}

impl Drop for Both {
    fn drop(self) {
        let Both {
            tree: _tree,
            book: _book,
        } = self;
    }
}

impl Both {
    pub fn new(alloc: Global) -> Result<Both, Fail> {
        Ok(Both {
            tree: MainTree::new(alloc)?,
            book: EditBook::new(alloc)?,
        })
    }

    /// The tree's next commit, which the book counts.
    pub fn commit(&mut self, rt: &impl Abort) -> Result<Arc<Commit>, Fail> {
        assert!(rt; self.tree.commits() == self.book.commits());
        assert!(rt; self.tree.commits() < MOST_COMMITS);
        assert!(rt; self.book.commits() < MOST_COMMITS);
        self.book.commit_made();
        Ok(self.tree.commit()?)
    }
}

/// Both answer this to each of the rows, one after the other.
pub fn expect_rows(
    rt: &impl Abort,
    alloc: Global,
    both: &mut Both,
    rows: &[(Edited, Answer)],
) -> Result<(), Fail> {
    for (edited, answer) in rows {
        expect(rt, alloc, both, *edited, *answer)?;
    }
    Ok(())
}

/// Both answer this to what is tried.
pub fn expect(
    rt: &impl Abort,
    alloc: Global,
    both: &mut Both,
    edited: Edited,
    answer: Answer,
) -> Result<(), Fail> {
    match edit_of(rt, alloc, edited)? {
        Some(edit) => expect_of(rt, both, &edit, answer),
        None => {
            let _commit = both.commit(rt)?;
            Ok(())
        }
    }
}

fn expect_of(rt: &impl Abort, both: &mut Both, edit: &Edit, answer: Answer) -> Result<(), Fail> {
    match answer {
        Answer::Made => expect_made(rt, both, edit, true),
        Answer::Gone => expect_made(rt, both, edit, false),
        Answer::Refused(wanted) => {
            assert!(rt; both.book.check(edit) == Err(wanted));
            assert!(rt; both.tree.edit(edit) == Err(EditFault::Refused(wanted)));
            Ok(())
        }
    }
}

fn expect_made(rt: &impl Abort, both: &mut Both, edit: &Edit, found: bool) -> Result<(), Fail> {
    assert!(rt; both.tree.edit(edit) == Ok(found));
    match both.book.check(edit) {
        Ok(()) => Ok(both.book.note(edit)?),
        Err(_) => Err("the book refuses what the tree makes")?,
    }
}

// The edit, where it is one.
fn edit_of(rt: &impl Abort, alloc: Global, edited: Edited) -> Result<Option<Edit>, Fail> {
    Ok(Some(match edited {
        Edited::AddElement(id) => samples::add_element(alloc, id)?,
        Edited::RemoveElement(id) => Edit::RemoveElement { id: ElementId(id) },
        Edited::SetOpacity(id) => samples::set_opacity(id)?,
        Edited::SetTransform(id) => samples::set_transform(alloc, id)?,
        Edited::AddTimeline(id) => samples::add_timeline(id)?,
        Edited::AddModel(names, start, property) => Edit::AddModel {
            spec: samples::model(rt, alloc, names, start, property)?,
        },
        Edited::RemoveModel(id) => Edit::RemoveModel { id: ModelId(id) },
        Edited::Commit => return Ok(None),
    }))
}
