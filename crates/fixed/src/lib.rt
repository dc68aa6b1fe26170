// 24.8 numbers, from the end of zeno's raster.rs: points of floats as fixed points by the point rule, the cell and
// the fraction of a number, and curves split in two. A number z is held as z + BIAS, so that no number is below zero.
#![tactic(auto)]

ghost use Rattle.std.specs.Prelude.{◌≡◌, ◌+◌, ◌*◌, ◌/◌};
ghost use Rattle.fixed.specs.Fixed.{within_limit, to_fixed, spot_of, cell, fraction};
ghost use Rattle.fixed.specs.Split.{mid, mid4, mid8, split_quad, split_cubic};

use float::Cut;
use geometry::Point;

// The largest number of the point rule, either way: 4096 pixels.
pub const LIMIT: u32 = 1048576;

// What is added to a number to hold it: 8192 pixels.
pub const BIAS: u32 = 2097152;

#[derive(Clone, Copy, Debug, PartialEq, Eq)]
pub struct FixedPoint {
    pub x: u32,
    pub y: u32,
}

// A coordinate by the point rule. `cut` says whether something was cut off.
#[derive(Clone, Copy, Debug, PartialEq, Eq)]
pub struct Fix {
    pub at: u32,
    pub cut: bool,
}

// A point by the point rule. `cuts` says how many of its two parts were cut.
#[derive(Clone, Copy, Debug, PartialEq, Eq)]
pub struct Spot {
    pub point: FixedPoint,
    pub cuts: u32,
}

// The number of a count of 256ths. None beyond the limit.
fn fix_of(count: Cut) -> Option<Fix>
    ensures { result ≡ within_limit count.below count.whole count.rest }
{
    if count.whole > LIMIT {
        return None;
    }
    let at = if count.below {
        BIAS - count.whole
    } else {
        BIAS + count.whole
    };
    Some(Fix {
        at,
        cut: count.rest,
    })
}

// None where the point rule refuses v.
pub fn to_fixed(v: f32) -> Option<Fix>
    ensures { result ≡ to_fixed v }
{
    fix_of(float::cut_float(v * 256.0)?)
}

// None where the point rule refuses a part.
#[tactic(auto, unfolding(crate::specs::Fixed::spot_from, crate::specs::Fixed::spot_of))]
pub fn from_point(p: Point) -> Option<Spot>
    ensures { result ≡ spot_of p }
{
    let x = to_fixed(p.x)?;
    let y = to_fixed(p.y)?;
    Some(Spot {
        point: FixedPoint { x: x.at, y: y.at },
        cuts: u32::from(x.cut) + u32::from(y.cut),
    })
}

// The cell of a number, held with BIAS / 256 added.
pub fn trunc(n: u32) -> u32
    ensures { result ≡ cell n }
{
    n / 256
}

// How far into its cell a number is, from 0 to 255.
pub fn fract(n: u32) -> u32
    ensures { result ≡ fraction n }
{
    n % 256
}

// The means of a split, one function each and likewise for points: their numbers of points and their weights differ, and one function over arrays of
// both would be a loop that hides the rule's sum.
fn half(a: u32, b: u32) -> u32
    ensures { result ≡ (a + b) / 2 }
{
    ((u64::from(a) + u64::from(b)) / 2) as u32
}

fn quarter(a: u32, b: u32, c: u32) -> u32
    ensures { result ≡ (a + 2 * b + c) / 4 }
{
    ((u64::from(a) + 2 * u64::from(b) + u64::from(c)) / 4) as u32
}

fn eighth(a: u32, b: u32, c: u32, d: u32) -> u32
    ensures { result ≡ (a + 3 * b + 3 * c + d) / 8 }
{
    ((u64::from(a) + 3 * u64::from(b) + 3 * u64::from(c) + u64::from(d)) / 8) as u32
}

// The middle of a line.
fn mid_line(a: FixedPoint, b: FixedPoint) -> FixedPoint
    ensures { result ≡ mid a b }
{
    FixedPoint {
        x: half(a.x, b.x),
        y: half(a.y, b.y),
    }
}

// The middle of a quad.
fn mid_quad(a: FixedPoint, b: FixedPoint, c: FixedPoint) -> FixedPoint
    ensures { result ≡ mid4 a b c }
{
    FixedPoint {
        x: quarter(a.x, b.x, c.x),
        y: quarter(a.y, b.y, c.y),
    }
}

// The middle of a cubic.
fn mid_cubic(a: FixedPoint, b: FixedPoint, c: FixedPoint, d: FixedPoint) -> FixedPoint
    ensures { result ≡ mid8 a b c d }
{
    FixedPoint {
        x: eighth(a.x, b.x, c.x, d.x),
        y: eighth(a.y, b.y, c.y, d.y),
    }
}

// Two quads for one, points 0 to 2 and 2 to 4; two cubics for one, points 0 to 3 and 3 to 6. The splits are two functions: a split of
// N points has 2N - 1, and no array's size can be computed from a const parameter.
pub type TwoQuads = [FixedPoint; 5];

pub type TwoCubics = [FixedPoint; 7];

// Splits a quad.
pub fn split_quad(base: [FixedPoint; 3]) -> TwoQuads
    ensures { result ≡ split_quad base }
{
    let [p0, p1, p2] = base;
    [
        p0,
        mid_line(p0, p1),
        mid_quad(p0, p1, p2),
        mid_line(p1, p2),
        p2,
    ]
}

// Splits a cubic.
pub fn split_cubic(base: [FixedPoint; 4]) -> TwoCubics
    ensures { result ≡ split_cubic base }
{
    let [p0, p1, p2, p3] = base;
    [
        p0,
        mid_line(p0, p1),
        mid_quad(p0, p1, p2),
        mid_cubic(p0, p1, p2, p3),
        mid_quad(p1, p2, p3),
        mid_line(p2, p3),
        p3,
    ]
}
