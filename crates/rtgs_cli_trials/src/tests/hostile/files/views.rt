//! A book's file with many views more, or with pages that lead to one another, made page by page.
use super::super::bytes::{Edit, edited, parts, piece};
use super::super::draw::PAGE;
use std::alloc::{AllocError, Global};

// How many views a page of them has at most.
const EACH: u32 = 70;

// How many objects a book lists.
const OWN: u32 = 11;

// What the page of its list has before the objects themselves: eight bytes, and two for the place of each.
const LIST_HEAD: usize = 30;

// What the list has of a view, and what its root has of a page below it: this many bytes each.
const VIEW: usize = 56;

const CHILD: usize = 7;

// A number below two million, in three bytes.
fn number_of(number: u32) -> [u8; 3] {
    [
        (number / 16384 % 128 + 128) as u8,
        (number / 128 % 128 + 128) as u8,
        (number % 128) as u8,
    ]
}

// Appends what the list has of a view: its row's length and number, the forms of its columns, and these.
fn push_view(alloc: Global, cells: &mut Vec<u8>, view: u32) -> Result<(), AllocError> {
    let [first, second, third] = number_of(view.saturating_add(OWN));
    cells.extend_from_slice(&[52, first, second, third, 6, 21, 25, 25, 8, 73])?;
    let text = format!(in alloc; "viewv{view:05}v{view:05}CREATE VIEW v{view:05} AS SELECT 1")?;
    cells.extend_from_slice(text.as_bytes())
}

// Appends what the root of the list has of a page below it: its number, and that of its last row.
fn push_child(cells: &mut Vec<u8>, page: u32, last: u32) -> Result<(), AllocError> {
    cells.extend_from_slice(&page.to_be_bytes())?;
    cells.extend_from_slice(&number_of(last))
}

// A number in two bytes.
fn short(number: usize) -> [u8; 2] {
    ((number % 65536) as u16).to_be_bytes()
}

// Appends a page, or the rest of one: its kind, how many cells it has, where they begin, what is behind that, the place
// of each cell, and the cells, which have one size.
fn push_page(
    file: &mut Vec<u8>,
    kind: u8,
    behind: &[u8],
    cells: &[u8],
    size: usize,
) -> Result<(), AllocError> {
    let count = cells.len() / size.max(1);
    let first = PAGE.saturating_sub(cells.len());
    let [count_above, count_below] = short(count);
    let [first_above, first_below] = short(first);
    file.extend_from_slice(&[
        kind,
        0,
        0,
        count_above,
        count_below,
        first_above,
        first_below,
        0,
    ])?;
    file.extend_from_slice(behind)?;
    for place in 0..count {
        file.extend_from_slice(&short(first.saturating_add(place.saturating_mul(size))))?;
    }
    let room = first.saturating_sub(file.len() % PAGE);
    let empty = [0u8; PAGE];
    let (nothing, _) = parts(empty.as_slice(), room);
    file.extend_from_slice(nothing)?;
    file.extend_from_slice(cells)
}

// The book, and behind it the page on which it lists its own objects: its first one, less the head of the file.
fn with_own(alloc: Global, book: &[u8]) -> Result<Vec<u8>, AllocError> {
    let mut file = Vec::from_slice(alloc, book)?;
    file.extend_from_slice(piece(book, 100, LIST_HEAD))?;
    file.extend_from_slice(piece(book, LIST_HEAD, PAGE - LIST_HEAD))?;
    Ok(file)
}

// The file with a root of its list that has these children, the last of which is this page, and this many pages.
fn with_root(
    alloc: Global,
    file: &[u8],
    children: &[u8],
    last: u32,
    pages: u32,
) -> Result<Vec<u8>, AllocError> {
    let mut root = Vec::from_slice(alloc, piece(file, 0, 28))?;
    root.extend_from_slice(&pages.to_be_bytes())?;
    root.extend_from_slice(piece(file, 32, 68))?;
    push_page(&mut root, 5, &last.to_be_bytes(), children, CHILD)?;
    let edit = Edit {
        at: 0,
        gone: PAGE,
        others: root.as_slice(),
    };
    edited(alloc, file, edit)
}

// Appends a page with the views from the one of this number to the last.
fn push_views(alloc: Global, file: &mut Vec<u8>, first: u32, last: u32) -> Result<(), AllocError> {
    let mut cells = Vec::new(alloc);
    for view in first..=last {
        push_view(alloc, &mut cells, view)?;
    }
    push_page(file, 13, &[], cells.as_slice(), VIEW)
}

/// The book with this many views more, at least one and 30000 at most.
pub fn with_views(alloc: Global, book: &[u8], count: u32) -> Result<Vec<u8>, AllocError> {
    let mut file = with_own(alloc, book)?;
    let mut page = (book.len() / PAGE % 65536) as u32 + 1;
    let mut children = Vec::new(alloc);
    let mut last = 0u32;
    for before in 0..=(count.saturating_sub(1) / EACH) {
        push_child(&mut children, page, last.saturating_add(OWN))?;
        let first = before.saturating_mul(EACH).saturating_add(1);
        last = first.saturating_add(EACH - 1).min(count);
        push_views(alloc, &mut file, first, last)?;
        page = page.saturating_add(1);
    }
    with_root(alloc, file.as_slice(), children.as_slice(), page, page)
}

// How many pages ten megabytes are.
const MANY: u32 = 2560;

// Appends a page that has a hundred of these pages below it, of which there are many from the first on: those behind
// its place, or this page alone.
fn push_circle(
    alloc: Global,
    file: &mut Vec<u8>,
    first: u32,
    place: u32,
    step: u32,
) -> Result<(), AllocError> {
    let mut cells = Vec::new(alloc);
    for below in 1..100u32 {
        let other = place.saturating_add(below.saturating_mul(step)) % MANY;
        push_child(
            &mut cells,
            first.saturating_add(other),
            below.saturating_add(OWN),
        )?;
    }
    let last = place.saturating_add(100u32.saturating_mul(step)) % MANY;
    let last = first.saturating_add(last);
    push_page(file, 5, &last.to_be_bytes(), cells.as_slice(), CHILD)
}

/// The book with ten megabytes of pages more under the root of its list, each of which has a hundred of them below it:
/// each by this many steps behind the last.
pub fn with_circles(alloc: Global, book: &[u8], step: u32) -> Result<Vec<u8>, AllocError> {
    let mut file = with_own(alloc, book)?;
    let own = (book.len() / PAGE % 65536) as u32 + 1;
    let first = own.saturating_add(1);
    for place in 0..MANY {
        push_circle(alloc, &mut file, first, place, step)?;
    }
    let mut children = Vec::new(alloc);
    push_child(&mut children, own, OWN)?;
    with_root(
        alloc,
        file.as_slice(),
        children.as_slice(),
        first,
        own.saturating_add(MANY),
    )
}
