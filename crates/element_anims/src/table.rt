//! The table of elements: in which trees each is, and which group blocks which of its properties. An element that
//! neither is true of has no row.

ghost use Rattle.std.specs.Prelude.{◌≡◌, ℕ, ◌+◌, ◌==◌, ◌<◌, ◌≤◌, nat_eq, true, false, if◌then◌else◌, None, Some, IsSome, IfOk, OnOk};
ghost use Rattle.std.specs.Map.{lookup};
ghost use Rattle.element_anims.specs.Elements.{HasRoomForElement, IsSetBlocker, IsSetPresent, IsUnblocked, SaysTheSame, blocker_of, is_present, room_for, row_of};
ghost use Rattle.element_anims.specs.Rows.{idle_row, is_idle};

use crate::row::ElementRow;
use anim_names::{ElementId, GroupId, Property, Tree};
use indexmap::IndexMap;
use std::alloc::{AllocError, Global};
use std::marker::Model;

/// Which elements are in the pending and in the active tree, and which group blocks each property of an element.
///
/// It keeps a row for each element that is in a tree or of which a property is blocked, and for no other: the row goes
/// with the last of these. Contracts see an `Anims`.
pub struct ElementAnims {
    rows: IndexMap<ElementId, ElementRow>,
}

impl Drop for ElementAnims {
    fn drop(self) {
        let ElementAnims { rows: _rows } = self;
    }
}

impl Model for ElementAnims {
    ghost use Rattle.indexmap.specs.IndexMap.{spare};
    ghost use Rattle.element_anims.specs.Elements.{Anims, KeepsNoIdleRow};

    ghost Value = { Anims };

    ghost view = { λ t. record { rows = t.rows.entries; room = spare t.rows } };

    ghost invariant = { λ t. KeepsNoIdleRow t.rows.entries };
}

impl ElementAnims {
    /// A table of which no element is in a tree and nothing is blocked. It takes no memory yet.
    pub fn new(alloc: Global) -> Result<ElementAnims, AllocError>
        ensures absent { IfOk result (λ table. (tree : Tree) (element : ℕ) → is_present table tree element ≡ false) }
        ensures free { IfOk result (λ table. (element : ℕ) (property : Property) → blocker_of table element property ≡ None) }
    {
        Ok(ElementAnims {
            rows: IndexMap::new(alloc),
        })
    }

    /// Takes memory for elements to come: afterwards what is said of this number of elements that are not known yet is
    /// kept without memory. An element is known while it is in a tree or a property of it is blocked. Where there is no
    /// memory for them, the table says what it said.
    pub fn reserve(&mut self, elements: u32) -> Result<(), AllocError>
        ensures room { OnOk result (elements ≤ self.new.room) }
        ensures kept { self.old.room ≤ self.new.room }
        ensures same { SaysTheSame self.old self.new }
    {
        self.rows.reserve(elements as usize)
    }

    /// How many elements that are not known yet it can keep without memory.
    pub fn spare(&self) -> usize
        ensures { result ≡ self.now.room }
    {
        self.rows.capacity() - self.rows.len()
    }

    /// Says whether a tree has the element. It takes no memory: there must be room for one that is put in and not
    /// known.
    pub fn set_present(&mut self, tree: Tree, element: ElementId, there: bool)
        requires { there ≡ true → HasRoomForElement self.old element }
        ensures set { IsSetPresent tree element there self.old self.new }
        ensures room { self.old.room ≤ self.new.room + room_for self.old element }
    {
        let row = self.row(element).with_presence(tree, there);
        self.put(element, row);
    }

    /// Whether the tree has the element.
    pub fn present(&self, tree: Tree, element: ElementId) -> bool
        ensures { result ≡ is_present self.now tree element }
    {
        self.row(element).is_in(tree)
    }

    /// Says that a group blocks the property of the element. It is blocked until `unblock`, whichever trees have the
    /// element. It takes no memory, as `set_present`.
    pub fn block(&mut self, element: ElementId, property: Property, group: GroupId)
        requires free { blocker_of self.old element property ≡ None }
        requires room { HasRoomForElement self.old element }
        ensures set { IsSetBlocker element property (Some group) self.old self.new }
        ensures room_kept { self.old.room ≤ self.new.room + room_for self.old element }
    {
        let row = self.row(element).with_blocker(property, Some(group));
        self.put(element, row);
    }

    /// The group that blocks the property of the element, if one does.
    pub fn blocked_by(&self, element: ElementId, property: Property) -> Option<GroupId>
        ensures { result ≡ blocker_of self.now element property }
    {
        self.row(element).blocker(property)
    }

    /// Says that nothing blocks the property of the element any more.
    pub fn unblock(&mut self, element: ElementId, property: Property)
        ensures set { IsSetBlocker element property None self.old self.new }
        ensures room { self.old.room ≤ self.new.room }
    {
        let row = self.row(element).with_blocker(property, None);
        self.put(element, row);
    }

    /// Says that the group blocks no property of the element any more.
    pub fn unblock_all(&mut self, element: ElementId, group: GroupId)
        ensures set { IsUnblocked element group self.old self.new }
        ensures room { self.old.room ≤ self.new.room }
    {
        let row = self.row(element).without_blocker(group);
        self.put(element, row);
    }

    // What is kept of the element.
    fn row(&self, element: ElementId) -> ElementRow
        ensures { result ≡ row_of self.now element }
    {
        match self.rows.get(&element) {
            Some(row) => *row,
            None => ElementRow::idle(),
        }
    }

    // Keeps the row of the element, unless it says nothing.
    fn put(&mut self, element: ElementId, row: ElementRow)
        requires { is_idle row ≡ false → HasRoomForElement self.old element }
        ensures row { (e : ℕ) → row_of self.new e ≡ (if element == e then row else row_of self.old e) }
        ensures room { self.old.room ≤ self.new.room + room_for self.old element }
        ensures room_kept { is_idle row ≡ true → self.old.room ≤ self.new.room }
    {
        if row.is_idle() {
            self.forget(element);
        } else {
            self.keep(element, row);
        }
    }

    // Nothing is kept of the element any more.
    fn forget(&mut self, element: ElementId)
        ensures row { (e : ℕ) → row_of self.new e ≡ (if element == e then idle_row else row_of self.old e) }
        ensures room { self.old.room ≤ self.new.room }
    {
        self.rows.swap_remove(&element);
    }

    // Keeps a row that says something.
    fn keep(&mut self, element: ElementId, row: ElementRow)
        requires says { is_idle row ≡ false }
        requires room_for { HasRoomForElement self.old element }
        ensures row { (e : ℕ) → row_of self.new e ≡ (if element == e then row else row_of self.old e) }
        ensures room { self.old.room ≤ self.new.room + room_for self.old element }
    {
        if self.rows.contains_key(&element) {
            self.replace(element, row);
        } else {
            self.add(element, row);
        }
    }

    // Keeps another row of an element that has one.
    fn replace(&mut self, element: ElementId, row: ElementRow)
        requires says { is_idle row ≡ false }
        requires there { IsSome (lookup (nat_eq element) self.old.rows) }
        ensures row { (e : ℕ) → row_of self.new e ≡ (if element == e then row else row_of self.old e) }
        ensures room { self.old.room ≤ self.new.room }
    {
        *self.rows.get_mut(&element).unwrap() = row;
    }

    // Keeps the row of an element that has none.
    fn add(&mut self, element: ElementId, row: ElementRow)
        requires says { is_idle row ≡ false }
        requires absent { lookup (nat_eq element) self.old.rows ≡ None }
        requires room_for { 0 < self.old.room }
        ensures row { (e : ℕ) → row_of self.new e ≡ (if element == e then row else row_of self.old e) }
        ensures room { self.old.room ≤ self.new.room + 1 }
    {
        let Ok(_old) = self.rows.insert(element, row) else {
            unreachable!()
        };
    }
}
