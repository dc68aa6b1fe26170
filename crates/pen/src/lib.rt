// The pen: the cell that it is in, the pair that it has gathered there, and how the pool stands. Entering a cell stores the pair
// of the cell that it leaves. The pen goes in and comes back by value, beside the lent words.
// `Ready` and `Within` stand in the contracts, and not in a type: a struct that held the lent words would have to promise in each function that it still
// holds the same ones, a clause for the one that went, and a pen, which goes by value, knows no pool.
#![tactic(auto)]

ghost use Rattle.std.specs.Prelude.{◌≡◌, ◌+◌, ◌-◌, ◌<◌, max, [], ◌∷◌};
ghost use Rattle.storage.specs.Answers.{Within};
ghost use Rattle.pen.specs.Marks.{enter, gave, leaving, last_of};
ghost use Rattle.pen.specs.Drawing.{Ready, Added, Drew, lifted, pair_in, stand_of};

mod boards;

pub use boards::Board;
use storage::{Entry, Kept, Sizes};

// The drawing's edges, as cells: columns below wide, rows from first up to end. A cell z is held as z + 8192.
#[derive(Clone, Copy, Debug, PartialEq, Eq)]
pub struct Frame {
    pub wide: u64,
    pub first: u64,
    pub end: u64,
}

// A cell, and the pair that the pen has gathered there.
#[derive(Clone, Copy, Debug, PartialEq, Eq)]
pub struct Cell {
    pub col: u64,
    pub row: u64,
    pub cover: u32,
    pub area: u32,
}

#[derive(Clone, Copy, Debug, PartialEq, Eq)]
pub struct Pen {
    // The cell that the pen is in: before the first MoveTo it is in none.
    pub cell: Option<Cell>,
    pub kept: Kept,
}

// A pen in no cell, over an empty pool.
pub fn lift() -> Pen
    ensures { result ≡ lifted }
{
    Pen {
        cell: None,
        kept: Some(0),
    }
}

// A cell's column in the pool, counted from 0 for column -1; what lies further left counts as column -1.
fn column_of(col: u64) -> usize
    ensures { result ≡ max col 8191 - 8191 }
{
    if col < 8191 {
        return 0;
    }
    (col - 8191) as usize
}

// Gives a cell's pair to its place, where the cell is inside.
fn set(ws: &mut [u32], board: Board, kept: Kept, cell: Cell) -> Kept
    requires ready { Ready board ws.old }
    requires within { Within board.cap kept }
    ensures within { Within board.cap result }
    ensures added { Added board ws.old ws.new kept result (pair_in cell ∷ []) }
{
    let n = kept?;
    let f = board.frame;
    if f.wide <= cell.col || cell.row < f.first || f.end <= cell.row {
        return kept;
    }
    let sizes = Sizes {
        rows: (f.end - f.first) as usize,
        cap: board.cap,
        count: n,
    };
    let entry = Entry {
        row: (cell.row - f.first) as usize,
        column: column_of(cell.col),
        cover: cell.cover,
        area: cell.area,
    };
    storage::store(ws, sizes, entry)
}

// The pair of the cell that the pen leaves is stored, unless both parts are zero.
fn leave(ws: &mut [u32], board: Board, pen: Pen) -> Kept
    requires ready { Ready board ws.old }
    requires within { Within board.cap pen.kept }
    ensures within { Within board.cap result }
    ensures added { Added board ws.old ws.new pen.kept result (leaving (stand_of pen)) }
{
    match pen.cell {
        None => pen.kept,
        Some(cell) if cell.cover == 0 && cell.area == 0 => pen.kept,
        Some(cell) => set(ws, board, pen.kept, cell),
    }
}

// Enters a cell, also the one that the pen is in: the pair that it leaves is stored, unless both parts are zero.
pub fn set_cell(ws: &mut [u32], board: Board, pen: Pen, col: u64, row: u64) -> Pen
    requires ready { Ready board ws.old }
    requires within { Within board.cap pen.kept }
    ensures { Drew board ws.old ws.new pen result (enter col row ∷ []) }
{
    let kept = leave(ws, board, pen);
    Pen {
        cell: Some(Cell {
            col,
            row,
            cover: 0,
            area: 0,
        }),
        kept,
    }
}

// The cell that the pen is in is given a pair.
pub fn add(pen: Pen, cover: u32, area: u32) -> Pen
    ensures { (result.kept ≡ pen.kept) × (stand_of result ≡ gave (stand_of pen) cover area) }
{
    let cell = pen.cell.map(|c| Cell {
        cover: c.cover.wrapping_add(cover),
        area: c.area.wrapping_add(area),
        ..c
    });
    Pen { cell, ..pen }
}

// The end: the cell that the pen is in is stored, where it is inside, also with both parts zero.
pub fn finish(ws: &mut [u32], board: Board, pen: Pen) -> Kept
    requires ready { Ready board ws.old }
    requires within { Within board.cap pen.kept }
    ensures within { Within board.cap result }
    ensures added { Added board ws.old ws.new pen.kept result (last_of (stand_of pen)) }
{
    match pen.cell {
        None => pen.kept,
        Some(cell) => set(ws, board, pen.kept, cell),
    }
}
