// Lines: a line is followed through the sides of its cells and gives each cell a pair. A 24.8 number z is held as
// z + 2^21 and a cell as z + 8192. Through which side a slanted line leaves a cell is told by one number, p, held as p + BIAS.
#![tactic(auto)]

ghost use Rattle.std.specs.Prelude.{◌≡◌, cond, [], ◌∷◌, ◌+◌, ◌-◌, ◌*◌, ◌/◌, ◌<◌, ◌≤◌, ◌^◌};
ghost use Rattle.std.specs.List.{list_all};
ghost use Rattle.float.specs.Differences.{◌⊖◌};
ghost use Rattle.storage.specs.Answers.{Within};
ghost use Rattle.fixed.specs.Fixed.{cell};
ghost use Rattle.pen.specs.Marks.{enter, gave};
ghost use Rattle.pen.specs.Drawing.{Ready, Drew, stand_of};
ghost use Rattle.line.specs.Range.{Reach};
ghost use Rattle.line.specs.Walk.{word, cover, area, pair, start, p, way, upright, row_side, crossed};
ghost use Rattle.line.specs.Lines.{ends, sides, past, ahead, marks_of, line_marks};
ghost use Rattle.line.specs.Course.{B, Bounded, Near, Slanted, Rated, Under, Stepped, InCell, Aside, togo, rows_to, beside};

use fixed::FixedPoint;
use pen::{Board, Frame, Pen};

// The two end points of a line.
#[derive(Clone, Copy, Debug, PartialEq, Eq)]
pub struct Ends {
    pub x1: u64,
    pub y1: u64,
    pub x2: u64,
    pub y2: u64,
}

// Where a line is: its cell, and the point in the cell.
#[derive(Clone, Copy, Debug, PartialEq, Eq)]
pub struct At {
    pub col: u64,
    pub row: u64,
    pub fx: u64,
    pub fy: u64,
}

// The side through which a line leaves a cell.
#[derive(Clone, Copy, Debug, PartialEq, Eq)]
pub enum Side {
    Left,
    Next,
    Right,
    Previous,
}

// A line within reach.
#[derive(Clone, Copy, Debug, PartialEq, Eq)]
struct Line {
    ends: Ends,
    ghost bounded: { Bounded ends },
}

// 16,777,215 over the line's width, and over its height.
#[derive(Clone, Copy, Debug, PartialEq, Eq)]
struct Rates {
    x: u64,
    y: u64,
}

// A line that is neither level nor vertical, with its rates.
#[derive(Clone, Copy, Debug, PartialEq, Eq)]
struct Slope {
    ends: Ends,
    rates: Rates,
    ghost slanted: { Slanted ends },
    ghost rated: { Rated ends rates },
}

// One side crossed: the point at which the line leaves the cell, where it is then, and p there.
#[derive(Clone, Copy, Debug, PartialEq, Eq)]
struct Turn {
    fx: u64,
    fy: u64,
    to: At,
    p: u64,
}

// What is added to p to hold it: 2^40.
const BIAS: u64 = 1099511627776;

// What a rate is a part of. One less than 2^24, so that a crossing is at most 255.
const WHOLE: u64 = 16777215;

// The line from a to b.
fn line_of(a: FixedPoint, b: FixedPoint) -> Line
    requires reach_a { Reach a }
    requires reach_b { Reach b }
    ensures { result.ends ≡ ends a b }
{
    Line {
        ends: Ends {
            x1: u64::from(a.x),
            y1: u64::from(a.y),
            x2: u64::from(b.x),
            y2: u64::from(b.y),
        },
    }
}

// Where a line begins.
fn begin(l: Ends) -> At
    ensures { result ≡ start l }
{
    At {
        col: l.x1 / 256,
        row: l.y1 / 256,
        fx: l.x1 % 256,
        fy: l.y1 % 256,
    }
}

// a - b as a 32-bit word.
fn word_of(a: u64, b: u64) -> u32
    requires a_small { a < 2 ^ 32 }
    requires b_small { b < 2 ^ 32 }
    ensures { result ≡ word (a ⊖ b) }
{
    (a as u32).wrapping_sub(b as u32)
}

// The cell is given the pair of the line up to (fx, fy).
fn give(pen: Pen, at: At, fx: u64, fy: u64) -> Pen
    requires in_cell { InCell at }
    requires fx_small { fx ≤ 256 }
    requires fy_small { fy ≤ 256 }
    ensures { (result.kept ≡ pen.kept) × (stand_of result ≡ gave (stand_of pen) (cover at fy) (area at fx fy)) }
{
    let w = at.fx + fx;
    pen::add(pen, word_of(fy, at.fy), word_of(w * fy, w * at.fy))
}

// The cell is left at (fx, fy), and the next one entered.
fn cross(ws: &mut [u32], board: Board, pen: Pen, at: At, fx: u64, fy: u64, to: At) -> Pen
    requires ready { Ready board ws.old }
    requires within { Within board.cap pen.kept }
    requires in_cell { InCell at }
    requires fx_small { fx ≤ 256 }
    requires fy_small { fy ≤ 256 }
    ensures { Drew board ws.old ws.new pen result (pair at fx fy ∷ enter to.col to.row ∷ []) }
{
    let given = give(pen, at, fx, fy);
    pen::set_cell(ws, board, given, to.col, to.row)
}

// Where a vertical line leaves a cell.
fn row_side(next: bool) -> u64
    ensures { result ≡ cond next 256 0 }
{
    if next { 256 } else { 0 }
}

// Where a vertical line is in the next row, or in the previous one.
fn step_row(at: At, next: bool) -> At
    requires { Aside at next }
    ensures { result ≡ beside at next }
{
    let (row, fy) = if next {
        (at.row + 1, 0)
    } else {
        (at.row - 1, 256)
    };
    At { row, fy, ..at }
}

// A vertical line steps a row at a time. Its loop is not `walk`'s: it has no p and no rates (its width, 0, would be a divisor), and
// it leaves each row by the same side, so one loop for both would ask at each step which kind of line it follows. Whether it goes to
// the next rows or to the previous ones is a bool that each row asks, since two loops would differ in a sign alone.
fn vertical(ws: &mut [u32], board: Board, pen: Pen, line: Line) -> Pen
    requires ready { Ready board ws.old }
    requires within { Within board.cap pen.kept }
    ensures { let l = line.ends in Drew board ws.old ws.new pen result (upright (rows_to l (cell l.y1)) (row_side l) l (start l)) }
{
    let l = line.ends;
    let row = l.y2 / 256;
    let next = l.y1 < l.y2;
    let out = row_side(next);
    let mut at = begin(l);
    let mut drawn = pen;
    while at.row != row {
        let to = step_row(at, next);
        drawn = cross(ws, board, drawn, at, at.fx, out, to);
        at = to;
    }
    give(drawn, at, l.x2 % 256, l.y2 % 256)
}

// p and 256 times the way from z1 to z2.
fn shifted(p: u64, z1: u64, z2: u64) -> u64
    requires { (2 ^ 38 < p) × ((p < 2 ^ 42) × ((z1 < 2 ^ 22) × (z2 < 2 ^ 22))) }
    ensures { result ≡ p + 256 * z2 - 256 * z1 }
{
    p + 256 * z2 - 256 * z1
}

// The side through which the line leaves a cell.
fn way_out(slope: Slope, p: u64) -> Side
    requires near { Near p }
    ensures { result ≡ way slope.ends (p ⊖ B) }
{
    let l = slope.ends;
    let q = shifted(p, l.x2, l.x1);
    let s = shifted(q, l.y1, l.y2);
    let t = shifted(p, l.y1, l.y2);
    if p <= BIAS && BIAS < q {
        Side::Left
    } else if q <= BIAS && BIAS < s {
        Side::Next
    } else if s <= BIAS && BIAS <= t {
        Side::Right
    } else {
        Side::Previous
    }
}

// How far along a side it is crossed.
fn crossing(a: u64, r: u64) -> u64
    requires { a * r < 2 ^ 40 }
    ensures { result ≡ a * r / 2 ^ 24 }
{
    (a * r) >> 24
}

// Crosses the side through which the line leaves its cell.
fn step(slope: Slope, p: u64, at: At) -> Turn
    requires under { Under slope.ends p at }
    requires unfinished { 0 < togo slope.ends at.col at.row }
    ensures { Stepped slope.ends p at result }
{
    let l = slope.ends;
    let k = slope.rates;
    match way_out(slope, p) {
        Side::Left => {
            let n = shifted(p, l.y2, l.y1);
            let y = crossing(BIAS - p, k.x);
            Turn {
                fx: 0,
                fy: y,
                to: At {
                    col: at.col - 1,
                    fx: 256,
                    fy: y,
                    ..at
                },
                p: n,
            }
        }
        Side::Next => {
            let q = shifted(p, l.x2, l.x1);
            let x = crossing(BIAS - q, k.y);
            Turn {
                fx: x,
                fy: 256,
                to: At {
                    row: at.row + 1,
                    fx: x,
                    fy: 0,
                    ..at
                },
                p: q,
            }
        }
        Side::Right => {
            let t = shifted(p, l.y1, l.y2);
            let y = crossing(t - BIAS, k.x);
            Turn {
                fx: 256,
                fy: y,
                to: At {
                    col: at.col + 1,
                    fx: 0,
                    fy: y,
                    ..at
                },
                p: t,
            }
        }
        Side::Previous => {
            let n = shifted(p, l.x1, l.x2);
            let x = crossing(p - BIAS, k.y);
            Turn {
                fx: x,
                fy: 0,
                to: At {
                    row: at.row - 1,
                    fx: x,
                    fy: 256,
                    ..at
                },
                p: n,
            }
        }
    }
}

// From where a slanted line is to its end.
fn walk(ws: &mut [u32], board: Board, pen: Pen, slope: Slope, p: u64, at: At) -> Pen
    requires ready { Ready board ws.old }
    requires within { Within board.cap pen.kept }
    requires under { Under slope.ends p at }
    ensures { let l = slope.ends in Drew board ws.old ws.new pen result (crossed (togo l at.col at.row) l (p ⊖ B) at) }
{
    let l = slope.ends;
    let col = l.x2 / 256;
    let row = l.y2 / 256;
    let mut drawn = pen;
    let mut prod = p;
    let mut here = at;
    while here.col != col || here.row != row {
        let t = step(slope, prod, here);
        let to = t.to;
        drawn = cross(ws, board, drawn, here, t.fx, t.fy, to);
        prod = t.p;
        here = to;
    }
    give(drawn, here, l.x2 % 256, l.y2 % 256)
}

// A line that is neither level nor vertical, with its rates.
fn slope_of(line: Line) -> Slope
    requires slanted { Slanted line.ends }
    ensures { result.ends ≡ line.ends }
{
    let l = line.ends;
    let w = l.x2.abs_diff(l.x1);
    let h = l.y2.abs_diff(l.y1);
    Slope {
        ends: l,
        rates: Rates {
            x: WHOLE / w,
            y: WHOLE / h,
        },
    }
}

// A fraction times a number.
fn scaled(f: u64, z: u64) -> u64
    requires f_small { f < 256 }
    requires z_small { z < 2 ^ 22 }
    ensures value { result ≡ f * z }
    ensures small { result < 2 ^ 30 }
{
    f * z
}

// p where a line begins.
fn product(slope: Slope) -> u64
    ensures under { Under slope.ends result (start slope.ends) }
    ensures exact { result ⊖ B ≡ p slope.ends (start slope.ends) }
{
    let l = slope.ends;
    let fx = l.x1 % 256;
    let fy = l.y1 % 256;
    let a = scaled(fy, l.x2);
    let b = scaled(fx, l.y1);
    let c = scaled(fy, l.x1);
    let d = scaled(fx, l.y2);
    BIAS + a + b - c - d
}

// Whether each point is in a row at or past the band's end. The other test has another relation and another edge: one function for
// both would take the test of a row as a closure, no plainer than these two lines.
pub fn all_past<const N: usize>(f: Frame, points: [FixedPoint; N]) -> bool
    ensures { result ≡ list_all (λ p. past f p.y) points.entry }
{
    points.iter().all(|p| f.end <= u64::from(fixed::trunc(p.y)))
}

// Whether each point is in a row before the band's first.
pub fn all_ahead<const N: usize>(f: Frame, points: [FixedPoint; N]) -> bool
    ensures { result ≡ list_all (λ p. ahead f p.y) points.entry }
{
    points
        .iter()
        .all(|p| u64::from(fixed::trunc(p.y)) < f.first)
}

// A line that is neither level nor vertical.
fn slanted(ws: &mut [u32], board: Board, pen: Pen, slope: Slope) -> Pen
    requires ready { Ready board ws.old }
    requires within { Within board.cap pen.kept }
    ensures { let l = slope.ends in Drew board ws.old ws.new pen result (crossed (sides l) l (p l (start l)) (start l)) }
{
    walk(ws, board, pen, slope, product(slope), begin(slope.ends))
}

// A line by its ends.
fn draw(ws: &mut [u32], board: Board, pen: Pen, line: Line) -> Pen
    requires ready { Ready board ws.old }
    requires within { Within board.cap pen.kept }
    ensures { Drew board ws.old ws.new pen result (marks_of line.ends) }
{
    let l = line.ends;
    let col = l.x2 / 256;
    let row = l.y2 / 256;
    let from = begin(l);
    if from.col == col && from.row == row {
        return give(pen, from, l.x2 % 256, l.y2 % 256);
    }
    if l.y1 == l.y2 {
        return pen::set_cell(ws, board, pen, col, row);
    }
    if l.x1 == l.x2 {
        return vertical(ws, board, pen, line);
    }
    slanted(ws, board, pen, slope_of(line))
}

// A line from a to b. The pen point is the caller's. The two points stay apart: callers have a pen point and where it goes, and a
// struct of the two would be made at each call and taken apart here.
pub fn line_to(ws: &mut [u32], board: Board, pen: Pen, a: FixedPoint, b: FixedPoint) -> Pen
    requires ready { Ready board ws.old }
    requires within { Within board.cap pen.kept }
    requires reach_a { Reach a }
    requires reach_b { Reach b }
    ensures { Drew board ws.old ws.new pen result (line_marks board.frame a b) }
{
    if all_past(board.frame, [a, b]) || all_ahead(board.frame, [a, b]) {
        return pen;
    }
    draw(ws, board, pen, line_of(a, b))
}
