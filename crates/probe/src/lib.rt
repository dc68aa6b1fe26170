// What the runs against the Rust need beside the C face, in an archive of its own: the cells of a drawing, a box of points, a box placed, and
// pairs stored with no drawing.
#![tactic(auto)]

ghost use Rattle.std.specs.Prelude.{◌≡◌};
ghost use Rattle.geometry.specs.Placing.{placed_of};
ghost use Rattle.storage.specs.Storing.{Room, Deposited};
ghost use Rattle.paper.specs.Placing.{box_of};
ghost use Rattle.mosszephyr.specs.Face.{point_out_of_c, origin_of, label_of};
ghost use Rattle.probe.specs.Probes.{box_in_c, box_out_of_c, placed_in_c, pairs_of, Celled, last_column, deposit_of, deposits_of, Ran};

use geometry::{Bounds, Placed, Placement, Point};
use label::Label;
use mosszephyr::{MzDrawn, MzLabel, MzPoint, origin_of};
use storage::{Entry, Kept, Sizes};

// The most rows that a pool has.
const MOST_ROWS: usize = 4096;

// The answer of a run that leaves no cells. It stands for None, and so does the flag `placed`, below: C, which calls these, has no Option.
const NO_CELLS: u64 = 65535;

#[repr(C)]
#[derive(Clone, Copy, Debug, PartialEq)]
pub struct MzBox {
    pub min: MzPoint,
    pub max: MzPoint,
}

#[repr(C)]
#[derive(Clone, Copy, Debug, PartialEq)]
pub struct MzPlaced {
    pub placed: bool,
    pub offset: MzPoint,
    pub left: i32,
    pub top: i32,
    pub width: u32,
    pub height: u32,
}

impl From<Bounds> for MzBox {
    ghost from_gives = { λ b r. r ≡ box_in_c b };

    fn from(b: Bounds) -> MzBox {
        MzBox {
            min: MzPoint::from(b.min),
            max: MzPoint::from(b.max),
        }
    }
}

impl From<MzBox> for Bounds {
    ghost from_gives = { λ b r. r ≡ box_out_of_c b };

    fn from(b: MzBox) -> Bounds {
        Bounds::new(Point::from(b.min), Point::from(b.max))
    }
}

impl From<Option<Placed>> for MzPlaced {
    ghost from_gives = { λ p r. r ≡ placed_in_c p };

    fn from(p: Option<Placed>) -> MzPlaced {
        match p {
            Some(placed) => MzPlaced {
                placed: true,
                offset: MzPoint::from(placed.offset),
                left: placed.placement.left,
                top: placed.placement.top,
                width: placed.placement.width,
                height: placed.placement.height,
            },
            None => MzPlaced {
                placed: false,
                offset: MzPoint { x: 0.0, y: 0.0 },
                left: 0,
                top: 0,
                width: 0,
                height: 0,
            },
        }
    }
}

// Draws as mz_draw does with a mask long enough, but leaves the cells of an accepted list in the words.
#[unsafe(no_mangle)]
pub extern "C" fn mz_probe_cells(list: &[u8], label: MzLabel, words: &mut [u32]) -> MzDrawn
    ensures { Celled (label_of label) list.now words.old words.new result }
{
    label::cells(list, Label::from(label), 0xffff_ffff_ffff_ffff, words).into()
}

// The box around points, x and y alternating; an odd last number is left out.
#[unsafe(no_mangle)]
pub extern "C" fn mz_probe_box(points: &[f32]) -> MzBox
    ensures { result ≡ box_in_c (box_of (pairs_of points.now)) }
{
    if points.len() < 2 {
        return MzBox::from(Bounds::of(Point::new(0.0, 0.0)));
    }
    let mut around = Bounds::of(Point::new(points[0], points[1]));
    for p in points[2..].chunks_exact(2) {
        around = around.add(Point::new(p[0], p[1]));
    }
    MzBox::from(around)
}

// A box, placed.
#[unsafe(no_mangle)]
pub extern "C" fn mz_probe_place(b: MzBox, offset: MzPoint, bottom_left: bool) -> MzPlaced
    ensures { result ≡ placed_in_c (placed_of (origin_of bottom_left) (point_out_of_c offset) (box_out_of_c b)) }
{
    MzPlaced::from(Placement::compute(origin_of(bottom_left), Point::from(offset), Bounds::from(b)))
}

// Stores a pair, unless it is outside the pool's rows or columns.
fn store_pair(words: &mut [u32], sizes: Sizes, entry: Entry) -> Kept
    requires { Room words.old sizes }
    ensures { Deposited words.old words.new sizes.rows last_column sizes.cap sizes.count (deposit_of sizes.rows entry.row entry.column entry.cover entry.area) result }
{
    if sizes.rows <= entry.row {
        return Some(sizes.count);
    }
    if storage::PER_ROW <= entry.column {
        return Some(sizes.count);
    }
    storage::store(words, sizes, entry)
}

// Stores the pairs, until one does not fit.
fn store_pairs(pairs: &[u32], words: &mut [u32], sizes: Sizes) -> Kept
    requires { Room words.old sizes }
    ensures { Deposited words.old words.new sizes.rows last_column sizes.cap sizes.count (deposits_of sizes.rows pairs.now) result }
{
    let mut count = sizes.count;
    for p in pairs.chunks_exact(4) {
        let entry = Entry {
            row: p[0] as usize,
            column: p[1] as usize,
            cover: p[2],
            area: p[3],
        };
        let now = Sizes {
            rows: sizes.rows,
            cap: sizes.cap,
            count,
        };
        count = store_pair(words, now, entry)?;
    }
    Some(count)
}

// Stores pairs into a pool of so many rows, one behind the other, and leaves the cells in the words. Four numbers a pair: row, column counted
// from 0 for column -1, cover, area; up to three numbers too many are left out, and so is a pair outside the pool's rows or columns.
// Answers the number of cells; NO_CELLS where the sizes are no pool's, and the words stay, or where a pair does not fit, and they are wiped.
#[unsafe(no_mangle)]
pub extern "C" fn mz_probe_stores(pairs: &[u32], rows: usize, words: &mut [u32]) -> u64
    ensures { Ran rows pairs.now words.old words.new result }
{
    if MOST_ROWS < rows {
        return NO_CELLS;
    }
    if words.len() < rows {
        return NO_CELLS;
    }
    let cap = path::pool_of(words.len(), rows);
    storage::clear(words, rows);
    let sizes = Sizes {
        rows,
        cap,
        count: 0,
    };
    match store_pairs(pairs, words, sizes) {
        Some(n) => n as u64,
        None => {
            storage::wipe(words);
            NO_CELLS
        }
    }
}
