// The pool of cells in a lent workspace, `HeapStorage` of the Rust: a head for each row, then four words a cell, its place, cover, area and links.
// A link is 0, or one more than a cell's index; a head, and a cell's word of links, hold two. The link on leads along the row's list, in rising place: from
// the head to the first cell, from a cell to the next. The link back leads from the head to the cell stored into last, from a cell to the one before it: it
// saves the walk from the row's start, and no answer turns on it.
// A place is PER_ROW times the row, plus the column counted from 0 for column -1.
// Links are numbers with 0 for none, and a cell is four words, since they stand in the words that are lent: there is no heap, and words have no other type.
// Each function stays inside the words it is lent and ends, whatever they hold.
#![tactic(auto)]

ghost use Rattle.std.specs.Prelude.{◌≡◌, ◌+◌, ◌*◌, ◌/◌, ◌%◌, ◌^◌, ◌<◌, ◌≤◌, ◌++◌, length, drop, replicate, slice_index};
ghost use Rattle.storage.specs.Deposits.{per_row, place_of};
ghost use Rattle.storage.specs.Cells.{place_at, half, next_in, back_in, links_of, link_word, with_sum, with_pair, with_cell, with_next, with_back, with_new};
ghost use Rattle.storage.specs.Answers.{most_rows, Upto, Sought, is_at};
ghost use Rattle.storage.specs.Storing.{Room, Storing};

mod limits;

pub use limits::Sizes;

// The places of a row, more than it has columns.
pub const PER_ROW: usize = 8192;

// A word of links is the link on, plus HALF times the link back.
const HALF: usize = 65536;

// Zero in the first n words; the rest as it was.
pub fn clear(ws: &mut [u32], n: usize)
    requires { n ≤ length ws.old }
    ensures { ws.new ≡ replicate n 0 ++ drop n ws.old }
{
    ws[..n].fill(0);
}

// Every word zero.
pub fn wipe(ws: &mut [u32])
    ensures { ws.new ≡ replicate (length ws.old) 0 }
{
    ws.fill(0);
}

// A word as an index: a cast, since `usize` has no `From<u32>`.
fn wide(x: u32) -> usize
    ensures { result ≡ x }
{
    x as usize
}

// The word at an index.
pub fn word(ws: &[u32], i: usize) -> usize
    requires { i < length ws.now }
    ensures { result ≡ slice_index ws.now i }
{
    wide(ws[i])
}

// The link on.
pub fn next_in(w: u32) -> usize
    ensures { result ≡ next_in w }
{
    wide(w) % HALF
}

// The link back.
fn back_in(w: u32) -> usize
    ensures { (result ≡ back_in w) × (result < half) }
{
    wide(w) / HALF
}

// A word of two links.
fn links(next: usize, back: usize) -> u32
    requires { (next < half) × (back < half) }
    ensures { result ≡ links_of next back }
{
    (next + HALF * back) as u32
}

// set_next and set_back stay two: one would take the half as an argument and ask which it is.
fn set_next(ws: &mut [u32], at: usize, n: usize)
    requires { (at < length ws.old) × (n < half) }
    ensures { ws.new ≡ with_next ws.old at n }
{
    ws[at] = links(n, back_in(ws[at]));
}

fn set_back(ws: &mut [u32], at: usize, n: usize)
    requires { (at < length ws.old) × (n < half) }
    ensures { ws.new ≡ with_back ws.old at n }
{
    ws[at] = links(next_in(ws[at]), n);
}

// Walks back from the cell stored into last to one that is not past the place; answers 0, the row's start, where it meets none or that is nearer.
// `high` falls at each step, so that the walk ends on any words.
fn walk_back(ws: &[u32], sizes: Sizes, row: usize, place: usize) -> usize
    requires { Room ws.now sizes × (row < sizes.rows) × (place / per_row ≡ row) }
    ensures { Upto (place_at ws.now sizes.rows) sizes.count row place result }
{
    let start = PER_ROW * row;
    let mut high: usize = 0x1_0000_0000;
    let mut link = back_in(ws[row]);
    while link != 0 {
        if sizes.count < link {
            return 0;
        }
        let at = sizes.rows + 4 * (link - 1);
        let here = word(ws, at);
        if high <= here {
            return 0;
        }
        if here <= place {
            if here < start {
                return 0;
            }
            return link;
        }
        if place - start < here - place {
            return 0;
        }
        high = here;
        link = back_in(ws[at + 3]);
    }
    0
}

// Walks on to the row's last cell that is not past the place. `low` rises at each step, so that the walk ends on any words.
fn walk_on(ws: &[u32], sizes: Sizes, row: usize, place: usize, from: usize) -> usize
    requires { Room ws.now sizes × (row < sizes.rows) × (place / per_row ≡ row) × Upto (place_at ws.now sizes.rows) sizes.count row place from }
    ensures { Sought ws.now sizes.rows sizes.count row place result }
{
    let mut last = from;
    let mut low: usize = 0;
    let behind = link_word(sizes.rows, row, from);
    let mut next = next_in(ws[behind]);
    while next != 0 {
        if sizes.count < next {
            return last;
        }
        let at = sizes.rows + 4 * (next - 1);
        let here = word(ws, at);
        if here < low {
            return last;
        }
        if place < here {
            return last;
        }
        low = here + 1;
        last = next;
        next = next_in(ws[at + 3]);
    }
    last
}

// Whether a link names the cell of a place.
fn is_at(ws: &[u32], rows: usize, place: usize, link: usize) -> bool
    requires { rows + 4 * link ≤ length ws.now }
    ensures { result ≡ is_at ws.now rows place link }
{
    if link == 0 {
        return false;
    }
    word(ws, rows + 4 * (link - 1)) == place
}

// Where the links behind a cell stand; the row's head for 0.
fn link_word(rows: usize, row: usize, last: usize) -> usize
    requires { rows + 4 * last < 2 ^ 64 }
    ensures { result ≡ link_word rows row last }
{
    if last == 0 {
        return row;
    }
    rows + 4 * (last - 1) + 3
}

// Sums wrap at 32 bits.
pub fn sum(a: u32, b: u32) -> u32
    ensures { result ≡ (a + b) % 2 ^ 32 }
{
    a.wrapping_add(b)
}

// Adds to the word at an index.
fn add_word(ws: &mut [u32], at: usize, x: u32)
    requires { at < length ws.old }
    ensures { ws.new ≡ with_sum ws.old at x }
{
    ws[at] = sum(ws[at], x);
}

// What is stored: a pair, and the row and the column of its place, rows from the band's first, columns from 0 for column -1.
#[derive(Clone, Copy, Debug, PartialEq, Eq)]
pub struct Entry {
    pub row: usize,
    pub column: usize,
    pub cover: u32,
    pub area: u32,
}

impl Entry {
    fn place(self) -> usize
        requires { (self.row ≤ most_rows) × (self.column < per_row) }
        ensures { result ≡ place_of self.row self.column }
    {
        PER_ROW * self.row + self.column
    }
}

// Adds an entry's pair to the cell whose first word is at an index.
fn add_pair(ws: &mut [u32], at: usize, entry: Entry)
    requires { at + 2 < length ws.old }
    ensures { ws.new ≡ with_pair ws.old at entry.cover entry.area }
{
    add_word(ws, at + 1, entry.cover);
    add_word(ws, at + 2, entry.area);
}

// Writes the four words of an entry's cell.
fn put_cell(ws: &mut [u32], at: usize, entry: Entry, links: u32)
    requires { (at + 3 < length ws.old) × (entry.row ≤ most_rows) × (entry.column < per_row) }
    ensures { ws.new ≡ with_cell ws.old at (place_of entry.row entry.column) entry.cover entry.area links }
{
    ws[at] = entry.place() as u32;
    ws[at + 1] = entry.cover;
    ws[at + 2] = entry.area;
    ws[at + 3] = links;
}

// How many cells the pool has now; none, where there is one place more than it holds.
pub type Kept = Option<usize>;

// Puts a new cell behind last and before the one that followed it: the links of both lead to it, and the head's link back.
// On words that are no pool's, the one that followed need not be a cell.
fn insert(ws: &mut [u32], sizes: Sizes, last: usize, entry: Entry)
    requires { Room ws.old sizes × (sizes.count < sizes.cap) × (last ≤ sizes.count) × (entry.row < sizes.rows) × (entry.column < per_row) }
    ensures { ws.new ≡ with_new ws.old sizes.rows sizes.count entry.row last (place_of entry.row entry.column) entry.cover entry.area }
{
    let new = sizes.count + 1;
    let behind = link_word(sizes.rows, entry.row, last);
    let next = next_in(ws[behind]);
    put_cell(ws, sizes.rows + 4 * sizes.count, entry, links(next, last));
    set_next(ws, behind, new);
    set_back(ws, entry.row, new);
    if sizes.count < next {
        return;
    }
    set_back(ws, link_word(sizes.rows, entry.row, next), new);
}

// Stores an entry: in the row's last cell that is not past its place, if that is the place's own, and in a new cell behind it if not.
// Inlined, since it would be handed its two structs in memory.
#[inline(always)]
pub fn store(ws: &mut [u32], sizes: Sizes, entry: Entry) -> Kept
    requires { Room ws.old sizes × (entry.row < sizes.rows) × (entry.column < per_row) }
    ensures { Storing ws.old ws.new sizes entry result }
{
    let place = entry.place();
    let from = walk_back(ws, sizes, entry.row, place);
    let last = walk_on(ws, sizes, entry.row, place, from);
    if is_at(ws, sizes.rows, place, last) {
        add_pair(ws, sizes.rows + 4 * (last - 1), entry);
        set_back(ws, entry.row, last);
        return Some(sizes.count);
    }
    if sizes.cap <= sizes.count {
        return None;
    }
    insert(ws, sizes, last, entry);
    Some(sizes.count + 1)
}
