// Points, transforms, boxes and the placement of a mask, all by value: zeno's geometry.rs without angles and `invert`.
// Each product and sum of floats is rounded once, in the order in which it stands.
#![tactic(auto)]

ghost use Rattle.std.specs.Prelude.{◌≡◌, ◌+◌, ◌-◌, ◌≤◌, ◌^◌};
ghost use Rattle.geometry.specs.Affine.{point_of, shifted, identity_of, transform_of, translation_of, scale_of, combine_of, translated_of, moved, moved_vector};
ghost use Rattle.geometry.specs.Box.{lower, upper, bounds_of, box_at, around, empty_of, width_of, height_of, inside_of};
ghost use Rattle.geometry.specs.Placing.{placed_of};
ghost use Rattle.geometry.specs.Held.{own, raised, held_around, held_span};

#[derive(Clone, Copy, Debug, PartialEq)]
pub struct Point {
    pub x: f32,
    pub y: f32,
}

// Sends (x, y) to (x·xx + y·yx) + tx, (x·xy + y·yy) + ty: the fields x and y are tx and ty.
#[derive(Clone, Copy, Debug, PartialEq)]
pub struct Transform {
    pub xx: f32,
    pub xy: f32,
    pub yx: f32,
    pub yy: f32,
    pub x: f32,
    pub y: f32,
}

impl Point {
    pub fn new(x: f32, y: f32) -> Point
        ensures { result ≡ point_of x y }
    {
        Point { x, y }
    }

    // The other's parts are added behind its own. A method and no `impl Add`, since the theorem `point_plus` of claims speaks of it.
    pub fn plus(self, other: Point) -> Point
        ensures { result ≡ shifted other self }
    {
        Point {
            x: self.x + other.x,
            y: self.y + other.y,
        }
    }
}

impl Transform {
    pub fn identity() -> Transform
        ensures { result ≡ identity_of }
    {
        Transform {
            xx: 1.0,
            xy: 0.0,
            yx: 0.0,
            yy: 1.0,
            x: 0.0,
            y: 0.0,
        }
    }

    pub fn new(xx: f32, xy: f32, yx: f32, yy: f32, x: f32, y: f32) -> Transform
        ensures { result ≡ transform_of xx xy yx yy x y }
    {
        Transform {
            xx,
            xy,
            yx,
            yy,
            x,
            y,
        }
    }

    pub fn translation(x: f32, y: f32) -> Transform
        ensures { result ≡ translation_of x y }
    {
        Transform {
            xx: 1.0,
            xy: 0.0,
            yx: 0.0,
            yy: 1.0,
            x,
            y,
        }
    }

    pub fn scale(x: f32, y: f32) -> Transform
        ensures { result ≡ scale_of x y }
    {
        Transform {
            xx: x,
            xy: 0.0,
            yx: 0.0,
            yy: y,
            x: 0.0,
            y: 0.0,
        }
    }

    // This transform, followed by the other.
    pub fn combine(self, b: Transform) -> Transform
        ensures { result ≡ combine_of self b }
    {
        Transform {
            xx: self.xx * b.xx + self.xy * b.yx,
            xy: self.xx * b.xy + self.xy * b.yy,
            yx: self.yx * b.xx + self.yy * b.yx,
            yy: self.yx * b.xy + self.yy * b.yy,
            x: self.x * b.xx + self.y * b.yx + b.x,
            y: self.x * b.xy + self.y * b.yy + b.y,
        }
    }

    // `combine` by the name that the C face and the docs give it.
    pub fn then(self, other: Transform) -> Transform
        ensures { result ≡ combine_of self other }
    {
        self.combine(other)
    }

    pub fn then_scale(self, x: f32, y: f32) -> Transform
        ensures { result ≡ combine_of self (scale_of x y) }
    {
        self.combine(Transform::scale(x, y))
    }

    pub fn then_translate(self, x: f32, y: f32) -> Transform
        ensures { result ≡ translated_of self x y }
    {
        Transform {
            xx: self.xx,
            xy: self.xy,
            yx: self.yx,
            yy: self.yy,
            x: self.x + x,
            y: self.y + y,
        }
    }

    pub fn pre_scale(self, x: f32, y: f32) -> Transform
        ensures { result ≡ combine_of (scale_of x y) self }
    {
        Transform::scale(x, y).combine(self)
    }

    pub fn pre_translate(self, x: f32, y: f32) -> Transform
        ensures { result ≡ combine_of (translation_of x y) self }
    {
        Transform::translation(x, y).combine(self)
    }

    pub fn transform_point(self, p: Point) -> Point
        ensures { result ≡ moved self p }
    {
        Point {
            x: (p.x * self.xx + p.y * self.yx) + self.x,
            y: (p.x * self.xy + p.y * self.yy) + self.y,
        }
    }

    // A vector has no place, so nothing is added.
    pub fn transform_vector(self, p: Point) -> Point
        ensures { result ≡ moved_vector self p }
    {
        Point {
            x: p.x * self.xx + p.y * self.yx,
            y: p.x * self.xy + p.y * self.yy,
        }
    }
}

#[derive(Clone, Copy, Debug, PartialEq)]
pub struct Bounds {
    pub min: Point,
    pub max: Point,
}

// The lower of two, the first where neither is. It and `upper_of` stay two: `f32::min` and `max` drop a NaN, and say not which of two zeros they give;
// and one function of both would take the comparison as an argument, which is no plainer than `b < a`.
fn lower_of(a: f32, b: f32) -> f32
    ensures { result ≡ lower a b }
{
    if b < a { b } else { a }
}

fn upper_of(a: f32, b: f32) -> f32
    ensures { result ≡ upper a b }
{
    if a < b { b } else { a }
}

impl Bounds {
    pub fn new(min: Point, max: Point) -> Bounds
        ensures { result ≡ bounds_of min max }
    {
        Bounds { min, max }
    }

    // The box of one point.
    pub fn of(p: Point) -> Bounds
        ensures { result ≡ box_at p }
    {
        Bounds { min: p, max: p }
    }

    // The box around one point more.
    pub fn add(self, p: Point) -> Bounds
        ensures { result ≡ around self p }
    {
        Bounds {
            min: Point {
                x: lower_of(self.min.x, p.x),
                y: lower_of(self.min.y, p.y),
            },
            max: Point {
                x: upper_of(self.max.x, p.x),
                y: upper_of(self.max.y, p.y),
            },
        }
    }

    pub fn is_empty(self) -> bool
        ensures { result ≡ empty_of self }
    {
        self.min.x >= self.max.x || self.min.y >= self.max.y
    }

    pub fn width(self) -> f32
        ensures { result ≡ width_of self }
    {
        self.max.x - self.min.x
    }

    pub fn height(self) -> f32
        ensures { result ≡ height_of self }
    {
        self.max.y - self.min.y
    }

    pub fn contains(self, p: Point) -> bool
        ensures { result ≡ inside_of self p }
    {
        self.min.x < p.x && p.x < self.max.x && self.min.y < p.y && p.y < self.max.y
    }
}

// Where (0, 0) lies in the picture.
#[derive(Clone, Copy, Debug, PartialEq, Eq)]
pub enum Origin {
    TopLeft,
    BottomLeft,
}

// Where a mask lies, and its size in pixels.
#[derive(Clone, Copy, Debug, PartialEq, Eq)]
pub struct Placement {
    pub left: i32,
    pub top: i32,
    pub width: u32,
    pub height: u32,
}

// The offset that brings a box to the mask, and the mask.
#[derive(Clone, Copy, Debug, PartialEq)]
pub struct Placed {
    pub offset: Point,
    pub placement: Placement,
}

// A whole number is held with MID added, so that it has no sign.
const MID: u32 = 0x100_0000;

// From here on a box lies too far out.
const REACH: u32 = 0x80_0000;

// The whole numbers at or below a float and at or above it.
#[derive(Clone, Copy, Debug, PartialEq, Eq)]
struct Around {
    down: u32,
    up: u32,
}

// One side of a mask: where it starts and how long it is.
#[derive(Clone, Copy, Debug, PartialEq, Eq)]
struct Span {
    from: u32,
    size: u32,
}

// None where v is too far out, or no number.
fn around_float(v: f32) -> Option<Around>
    ensures { result ≡ held_around v }
{
    let cut = float::cut_float(v)?;
    if cut.whole >= REACH {
        return None;
    }
    let more = cut.whole + u32::from(cut.rest);
    if cut.below {
        return Some(Around {
            down: MID - more,
            up: MID - cut.whole,
        });
    }
    Some(Around {
        down: MID + cut.whole,
        up: MID + more,
    })
}

// From a rounded down to b rounded up.
fn span_of(a: f32, b: f32) -> Option<Span>
    ensures { result ≡ held_span a b }
{
    let first = around_float(a)?;
    let last = around_float(b)?;
    Some(Span {
        from: first.down,
        size: last.up.saturating_sub(first.down),
    })
}

// The number that n holds: a cast, since `i32` has no `From<u32>`.
fn own_value(n: u32) -> i32
    requires { n ≤ 2 ^ 30 }
    ensures { result ≡ own n }
{
    n as i32 - MID as i32
}

fn top_of(origin: Origin, from: u32, height: u32) -> u32
    requires { from + height ≤ 2 ^ 30 }
    ensures { result ≡ raised origin from height }
{
    match origin {
        Origin::TopLeft => from,
        Origin::BottomLeft => from + height,
    }
}

impl Placement {
    // Given an origin, an offset and a box, the new offset and the placement of a tightly bounded mask. None where the box lies too far out.
    pub fn compute(origin: Origin, offset: Point, bounds: Bounds) -> Option<Placed>
        ensures { result ≡ placed_of origin offset bounds }
    {
        let min = bounds.min.plus(offset);
        let max = bounds.max.plus(offset);
        let across = span_of(min.x, max.x)?;
        let upright = span_of(min.y, max.y)?;
        Some(Placed {
            offset: Point {
                x: -float::floor(min.x),
                y: -float::floor(min.y),
            },
            placement: Placement {
                left: own_value(across.from),
                top: own_value(top_of(origin, upright.from, upright.size)),
                width: across.size,
                height: upright.size,
            },
        })
    }
}
