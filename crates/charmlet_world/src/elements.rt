//! The table of elements' places and counts.

ghost use Rattle.std.specs.Prelude.{◌≡◌, ◌≤◌, ◌<◌, [], ◌∷◌, ◌++◌, length, slice_get, Some, None, IfSome, IfOk, IsOk, OnOk, OnErr, is_some, true, if◌then◌else◌};
ghost use Rattle.std.specs.Map.{keys_of, lookup, values_of};
ghost use Rattle.indexmap.specs.IndexMap.{set_value_at};
ghost use Rattle.charmlet_model.specs.Names.{elem_cmp, same_elem};
ghost use Rattle.std.specs.BTreeMap.{insert_entry, is_at};
ghost use Rattle.std.specs.List.Sorted.{IsStrictlySortedBy};
ghost use Rattle.charmlet_model.specs.declared.names.Elem.{Elem as AnElem};
ghost use Rattle.charmlet_world.specs.Standing.{element_in, is_left, left_of, places_of, risen, with_row};
ghost use Rattle.charmlet_world.specs.declared.element.Element.{Element as AnElement};

use crate::element::Element;
use charmlet_model::Elem;
use indexmap::IndexMap;
use std::alloc::{AllocError, Global};
use std::collections::BTreeMap;
use std::marker::Model;

/// The number of an element's row. It stays valid, since no row is ever removed. A contract sees
/// the number.
#[derive(Clone, Copy, Debug)]
pub struct Slot {
    index: usize,
}

impl Model for Slot {
    ghost use Rattle.std.specs.Prelude.{ℕ};

    ghost Value = { ℕ };

    ghost view = { λ slot. slot.index };

    ghost inverse = { λ n. record { index = n } };
}

/// The places and counts of the elements that ever received a message. A contract sees a list in
/// the order in which they came, and the room for more.
#[derive(Drop)]
pub struct Elements {
    rows: IndexMap<Elem, Element>,
    /// The index at which a search for a row begins.
    expected: usize,
}

impl Model for Elements {
    ghost use Rattle.indexmap.specs.IndexMap.{spare};
    ghost use Rattle.charmlet_world.specs.Standing.{Standing};

    ghost Value = { Standing };

    ghost view = { λ e. record { entries = e.rows.entries; room = spare e.rows } };
}

impl Elements {
    /// A table with no elements. It takes no memory.
    pub fn new(alloc: Global) -> Self
        ensures { result.entries ≡ [] }
    {
        Elements {
            rows: IndexMap::new(alloc),
            expected: 0,
        }
    }

    /// A table with no elements, and room for `count` of them. It fails only when out of memory.
    fn with_room(alloc: Global, count: usize) -> Result<Self, AllocError>
        ensures { IfOk result (λ elements. elements.entries ≡ []) }
    {
        let mut rows = IndexMap::new(alloc);
        rows.reserve(count)?;
        Ok(Elements { rows, expected: 0 })
    }

    /// The table of this tree's elements. It fails only when out of memory.
    pub fn of_tree(alloc: Global, tree: BTreeMap<Elem, Element>) -> Result<Self, AllocError>
        ensures { IfOk result (λ elements. risen elements.entries ≡ tree.entries) }
    {
        let mut elements = Elements::with_room(alloc, tree.len())?;
        for (elem, element) in tree {
            elements.put(elem, element)?;
        }
        Ok(elements)
    }

    /// Sets an element's place and counts. It fails only when out of memory.
    fn put(&mut self, elem: Elem, element: Element) -> Result<(), AllocError>
        ensures { OnOk result (risen self.new.entries
            ≡ insert_entry elem_cmp (risen self.old.entries) elem element) }
    {
        let slot = self.slot_for(elem)?;
        self.set(slot, element);
        Ok(())
    }

    /// The slot of an element, if it has one.
    pub fn slot_of(&self, elem: Elem) -> Option<Slot>
        ensures found { IfSome result (λ slot. slice_get self.now.entries slot
            ≡ Some (elem, element_in self.now.entries elem)) }
        ensures which { is_some result ≡ is_some (lookup (same_elem elem) self.now.entries) }
    {
        match index_of(&self.rows, self.expected, elem) {
            Some(index) => Some(Slot { index }),
            None => None,
        }
    }

    /// The slot of an element, if it has one. The search tries the expected row and the next one
    /// before all others.
    fn slot_near(&self, elem: Elem) -> Option<Slot>
        ensures found { IfSome result (λ slot. slice_get self.now.entries slot
            ≡ Some (elem, element_in self.now.entries elem)) }
        ensures which { is_some result ≡ is_some (lookup (same_elem elem) self.now.entries) }
    {
        match index_near(&self.rows, self.expected, elem) {
            Some(index) => Some(Slot { index }),
            None => None,
        }
    }

    /// The place and counts of an element, as `element` returns them. If the element has a row, one
    /// comparison finds it from now on. The table stays the same.
    #[inline(always)]
    pub(crate) fn expect(&mut self, elem: Elem) -> Element
        ensures same { self.new ≡ self.old }
        ensures element { result ≡ element_in self.old.entries elem }
    {
        let Some(slot) = self.slot_near(elem) else {
            return Element::new();
        };
        self.expected = slot.index;
        self.at(slot)
    }

    /// The index at which a search for a row begins.
    pub(crate) fn expected(&self) -> usize {
        self.expected
    }

    /// The place and counts of an element. An element that was never constructed stands nowhere,
    /// and its counts are 0.
    pub fn element(&self, elem: Elem) -> Element
        ensures element { result ≡ element_in self.now.entries elem }
        ensures risen { lookup (is_at (elem_cmp elem)) (risen self.now.entries)
            ≡ lookup (same_elem elem) self.now.entries }
        ensures rising { IsStrictlySortedBy elem_cmp (keys_of (risen self.now.entries)) }
    {
        match self.slot_of(elem) {
            Some(slot) => self.at(slot),
            None => Element::new(),
        }
    }

    /// How many rows there are, each of another element.
    pub fn len(&self) -> usize
        ensures rows { result ≡ length self.now.entries }
        ensures elements { result ≡ length (risen self.now.entries) }
    {
        self.rows.len()
    }

    /// A copy of the table, in rising order of the elements. It fails only when out of memory.
    pub fn rising(&self, alloc: Global) -> Result<BTreeMap<Elem, Element>, AllocError>
        ensures { IfOk result (λ tree. tree.entries ≡ risen self.now.entries) }
    {
        rising_rows(&self.rows, alloc)
    }

    /// A copy of the rows whose elements aren't there and have received a message, in rising order
    /// of the elements. It fails only when out of memory.
    pub fn left(&self, alloc: Global) -> Result<BTreeMap<Elem, Element>, AllocError>
        ensures { IfOk result (λ tree. tree.entries ≡ left_of (risen self.now.entries)) }
    {
        rising_left(&self.rows, alloc)
    }

    /// The processor of each element that is there, in rising order of the elements. It fails only
    /// when out of memory, and takes none if no element is there.
    pub fn places(&self, alloc: Global) -> Result<BTreeMap<Elem, u16>, AllocError>
        ensures places { IfOk result (λ tree. tree.entries ≡ places_of (risen self.now.entries)) }
        ensures nothing { places_of (risen self.now.entries) ≡ [] → IsOk result }
    {
        rising_places(&self.rows, alloc)
    }

    /// The place and counts in this slot.
    pub fn at(&self, slot: Slot) -> Element
        requires { slot < length self.now.entries }
        ensures { slice_get (values_of self.now.entries) slot ≡ Some result }
    {
        self.rows[slot.index]
    }

    /// Sets the place and counts in this slot.
    pub fn set(&mut self, slot: Slot, element: Element)
        requires { slot < length self.old.entries }
        ensures entries { self.new.entries ≡ set_value_at self.old.entries slot element }
        ensures keys { keys_of self.new.entries ≡ keys_of self.old.entries }
        ensures elements { (x y : AnElem) (e : AnElement) →
            slice_get self.old.entries slot ≡ Some (x, e) →
            element_in self.new.entries y ≡
            (if same_elem x y then element else element_in self.old.entries y) }
        ensures risen { (x : AnElem) (e : AnElement) → slice_get self.old.entries slot ≡ Some (x, e)
            → risen self.new.entries ≡ insert_entry elem_cmp (risen self.old.entries) x element }
        ensures room { self.new.room ≡ self.old.room }
    {
        let (_elem, row) = self.rows.pair_mut(slot.index);
        *row = element;
    }

    /// The slot of an element, which gets one if it has none. When out of memory, nothing changes.
    pub fn slot_for(&mut self, elem: Elem) -> Result<Slot, AllocError>
        ensures found { IfOk result (λ slot. slice_get self.new.entries slot
            ≡ Some (elem, element_in self.old.entries elem)) }
        ensures entries { OnOk result (self.new.entries ≡ with_row self.old.entries elem) }
        ensures risen { OnOk result (risen self.new.entries
            ≡ insert_entry elem_cmp (risen self.old.entries) elem
            (element_in self.old.entries elem)) }
        ensures err { OnErr result (self.new.entries ≡ self.old.entries) }
        ensures succeeds { 0 < self.old.room → IsOk result }
        ensures there { is_some (lookup (same_elem elem) self.old.entries) ≡ true → IsOk result }
    {
        if let Some(index) = near(&self.rows, self.expected, elem) {
            return Ok(Slot { index });
        }
        let (index, was) = self.rows.insert_full(elem, Element::new())?;
        self.expected = index;
        let slot = Slot { index };
        let Some(element) = was else {
            return Ok(slot);
        };
        // The element had a row, to which its value comes back.
        self.set(slot, element);
        Ok(slot)
    }
}

/// The index of the element's row, if it has one. The search tries the expected index first.
fn index_of(rows: &IndexMap<Elem, Element>, expected: usize, elem: Elem) -> Option<usize>
    ensures found { IfSome result (λ i. slice_get rows.now.entries i
        ≡ Some (elem, element_in rows.now.entries elem)) }
    ensures which { is_some result ≡ is_some (lookup (same_elem elem) rows.now.entries) }
{
    if stands_at(rows, expected, elem) {
        return Some(expected);
    }
    search(rows, elem)
}

/// The index of the element's row, if it has one. The search tries the expected row and the next
/// one before all others.
fn index_near(rows: &IndexMap<Elem, Element>, expected: usize, elem: Elem) -> Option<usize>
    ensures found { IfSome result (λ i. slice_get rows.now.entries i
        ≡ Some (elem, element_in rows.now.entries elem)) }
    ensures which { is_some result ≡ is_some (lookup (same_elem elem) rows.now.entries) }
{
    if let Some(index) = near(rows, expected, elem) {
        return Some(index);
    }
    search(rows, elem)
}

/// The index of the element's row, if it is this one or the next one: elements that came one after
/// another often get messages one after another.
fn near(rows: &IndexMap<Elem, Element>, index: usize, elem: Elem) -> Option<usize>
    ensures found { IfSome result (λ i. slice_get rows.now.entries i
        ≡ Some (elem, element_in rows.now.entries elem)) }
    ensures which { IfSome result (λ _.
        is_some (lookup (same_elem elem) rows.now.entries) ≡ true) }
{
    if stands_at(rows, index, elem) {
        return Some(index);
    }
    let after = index.saturating_add(1);
    if stands_at(rows, after, elem) {
        return Some(after);
    }
    None
}

/// The index of the element's row among all, if it has one. It isn't inlined, since it is seldom
/// called.
#[inline(never)]
fn search(rows: &IndexMap<Elem, Element>, elem: Elem) -> Option<usize>
    ensures found { IfSome result (λ i. slice_get rows.now.entries i
        ≡ Some (elem, element_in rows.now.entries elem)) }
    ensures which { is_some result ≡ is_some (lookup (same_elem elem) rows.now.entries) }
{
    rows.get_index_of(&elem)
}

/// Whether the element's row stands at this index.
fn stands_at(rows: &IndexMap<Elem, Element>, index: usize, elem: Elem) -> bool
    ensures found { result ≡ true → slice_get rows.now.entries index
        ≡ Some (elem, element_in rows.now.entries elem) }
    ensures which { result ≡ true → is_some (lookup (same_elem elem) rows.now.entries) ≡ true }
{
    // The length tells the prover that the elements are distinct.
    let _len = rows.len();
    match rows.get_index(index) {
        Some((here, _element)) => *here == elem,
        None => false,
    }
}

/// These rows in rising order of their elements, as a checkpoint needs them.
fn rising_rows(
    rows: &IndexMap<Elem, Element>,
    alloc: Global,
) -> Result<BTreeMap<Elem, Element>, AllocError>
    ensures { IfOk result (λ tree. tree.entries ≡ risen rows.now.entries) }
{
    let mut tree = BTreeMap::new(alloc);
    let mut index = rows.len();
    while index > 0 {
        index -= 1;
        let Some((elem, element)) = rows.get_index(index) else {
            unreachable!()
        };
        tree.insert(*elem, *element)?;
    }
    Ok(tree)
}

/// The rows whose elements aren't there and have received a message, in rising order.
fn rising_left(
    rows: &IndexMap<Elem, Element>,
    alloc: Global,
) -> Result<BTreeMap<Elem, Element>, AllocError>
    ensures { IfOk result (λ tree. tree.entries ≡ left_of (risen rows.now.entries)) }
{
    let mut tree = BTreeMap::new(alloc);
    let mut index = rows.len();
    while index > 0 {
        index -= 1;
        let Some((elem, element)) = rows.get_index(index) else {
            unreachable!()
        };
        put_left(&mut tree, *elem, element)?;
    }
    Ok(tree)
}

/// Puts an element into the tree, if it isn't there and has received a message. Otherwise it takes
/// no memory.
fn put_left(
    tree: &mut BTreeMap<Elem, Element>,
    elem: Elem,
    element: &Element,
) -> Result<(), AllocError>
    ensures { OnOk result (tree.new.entries ≡ (if is_left element.now
        then insert_entry elem_cmp tree.old.entries elem element.now else tree.old.entries)) }
{
    if !element.has_left() {
        return Ok(());
    }
    tree.insert(elem, *element)?;
    Ok(())
}

/// The places of these rows in rising order of their elements. It takes no memory if there is none.
fn rising_places(
    rows: &IndexMap<Elem, Element>,
    alloc: Global,
) -> Result<BTreeMap<Elem, u16>, AllocError>
    ensures places { IfOk result (λ tree. tree.entries ≡ places_of (risen rows.now.entries)) }
    ensures nothing { places_of (risen rows.now.entries) ≡ [] → IsOk result }
{
    let mut tree = BTreeMap::new(alloc);
    let mut index = rows.len();
    while index > 0 {
        index -= 1;
        let Some((elem, element)) = rows.get_index(index) else {
            unreachable!()
        };
        put_place(&mut tree, *elem, element)?;
    }
    Ok(tree)
}

/// Puts the place of an element into the tree, if it has one. It takes no memory if it has none.
fn put_place(
    tree: &mut BTreeMap<Elem, u16>,
    elem: Elem,
    element: &Element,
) -> Result<(), AllocError>
    ensures some { OnOk result (IfSome element.now.place
        (λ place. tree.new.entries ≡ insert_entry elem_cmp tree.old.entries elem place)) }
    ensures none { element.now.place ≡ None → tree.new.entries ≡ tree.old.entries }
    ensures nothing { element.now.place ≡ None → IsOk result }
{
    if let Some(place) = element.place {
        tree.insert(elem, place)?;
    }
    Ok(())
}
