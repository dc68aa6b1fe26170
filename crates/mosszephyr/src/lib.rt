// The C face (bindings/mosszephyr.h). Each function is thin: it hands its arguments to a crate below, in that crate's types.
#![tactic(auto)]

ghost use Rattle.std.specs.Prelude.{◌≡◌};
ghost use Rattle.geometry.specs.Affine.{point_of};
ghost use Rattle.paper.specs.Floats.{identity, scale, translation, combine, then_translate, moved, moved_vector};
ghost use Rattle.paper.specs.Drawing.{left, draw, draw_in_bands};
ghost use Rattle.paper.specs.Placing.{bounds as bounds_of, placement as placement_of};
ghost use Rattle.mosszephyr.specs.Face.{in_c, out_of_c, point_in_c, point_out_of_c, origin_of, fill_of, label_of, whole_label};

use geometry::{Origin, Point, Transform};
use label::{Label, Numbers};
use placing::{BoxNumbers, PlaceNumbers};
use sweep::Fill;

// The header's structs, laid out as C has them and with a flag where the crates below have an enum: so they stand beside Transform, Point and Label.
#[repr(C)]
#[derive(Clone, Copy, Debug, PartialEq)]
pub struct MzTransform {
    pub xx: f32,
    pub xy: f32,
    pub yx: f32,
    pub yy: f32,
    pub x: f32,
    pub y: f32,
}

#[repr(C)]
#[derive(Clone, Copy, Debug, PartialEq)]
pub struct MzPoint {
    pub x: f32,
    pub y: f32,
}

#[repr(C)]
#[derive(Clone, Copy, Debug, PartialEq)]
pub struct MzLabel {
    pub transform: MzTransform,
    pub offset_x: f32,
    pub offset_y: f32,
    pub even_odd: bool,
    pub up: bool,
    pub width: usize,
    pub height: usize,
    pub pitch: usize,
    pub first: usize,
    pub end: usize,
}

// What the calls answer, in the rules' numbers.
pub type MzDrawn = Numbers;

pub type MzBounds = BoxNumbers;

pub type MzPlacement = PlaceNumbers;

// ---- the face's types as those of the crates below, and back

impl From<MzTransform> for Transform {
    ghost from_gives = { λ t r. r ≡ out_of_c t };

    fn from(t: MzTransform) -> Transform {
        Transform::new(t.xx, t.xy, t.yx, t.yy, t.x, t.y)
    }
}

impl From<Transform> for MzTransform {
    ghost from_gives = { λ t r. r ≡ in_c t };

    fn from(t: Transform) -> MzTransform {
        MzTransform {
            xx: t.xx,
            xy: t.xy,
            yx: t.yx,
            yy: t.yy,
            x: t.x,
            y: t.y,
        }
    }
}

impl From<Point> for MzPoint {
    ghost from_gives = { λ p r. r ≡ point_in_c p };

    fn from(p: Point) -> MzPoint {
        MzPoint { x: p.x, y: p.y }
    }
}

impl From<MzPoint> for Point {
    ghost from_gives = { λ p r. r ≡ point_out_of_c p };

    fn from(p: MzPoint) -> Point {
        Point::new(p.x, p.y)
    }
}

impl From<MzLabel> for Label {
    ghost from_gives = { λ l r. r ≡ label_of l };

    fn from(l: MzLabel) -> Label {
        Label {
            transform: Transform::from(l.transform),
            offset: Point::new(l.offset_x, l.offset_y),
            fill: fill_of(l.even_odd),
            up: l.up,
            width: l.width,
            height: l.height,
            pitch: l.pitch,
            first: l.first,
            end: l.end,
        }
    }
}

// No `From<bool>`: bool and Origin are both of other crates, and a flag says what it means only by its name. So too for Fill.
pub fn origin_of(bottom_left: bool) -> Origin
    ensures { result ≡ origin_of bottom_left }
{
    if bottom_left {
        return Origin::BottomLeft;
    }
    Origin::TopLeft
}

fn fill_of(even_odd: bool) -> Fill
    ensures { result ≡ fill_of even_odd }
{
    if even_odd {
        return Fill::EvenOdd;
    }
    Fill::NonZero
}

// ---- drawing

// The whole label of a size, as most are drawn.
pub fn mz_label(width: usize, height: usize) -> MzLabel
    ensures { result ≡ whole_label width height }
{
    MzLabel {
        transform: mz_identity(),
        offset_x: 0.0,
        offset_y: 0.0,
        even_odd: false,
        up: false,
        width,
        height,
        pitch: width,
        first: 0,
        end: height,
    }
}

// Draws a label's band into the mask.
pub fn mz_draw(list: &[u8], label: MzLabel, mask: &mut [u8], words: &mut [u32]) -> MzDrawn
    ensures { left result mask.new words.new
        ≡ draw (label_of label) list.now mask.old words.old }
{
    paper::draw(list, Label::from(label), mask, words)
}

// Draws the same in bands of `step` rows, with less room.
pub fn mz_draw_in_bands(
    list: &[u8],
    label: MzLabel,
    step: usize,
    mask: &mut [u8],
    words: &mut [u32],
) -> MzDrawn
    ensures { left result mask.new words.new
        ≡ draw_in_bands step (label_of label) list.now mask.old words.old }
{
    paper::draw_in_bands(list, Label::from(label), step, mask, words)
}

// ---- where a list lies

// The box of a list's transformed points.
pub fn mz_bounds(list: &[u8], transform: MzTransform) -> MzBounds
    ensures { result ≡ bounds_of (out_of_c transform) list.now }
{
    paper::bounds(list, Transform::from(transform))
}

// Where the mask of a list lies, and its size.
pub fn mz_placement(
    list: &[u8],
    transform: MzTransform,
    offset_x: f32,
    offset_y: f32,
    bottom_left: bool,
) -> MzPlacement
    ensures { result ≡ placement_of (origin_of bottom_left) (out_of_c transform) (point_of offset_x offset_y) list.now }
{
    paper::placement(
        list,
        Transform::from(transform),
        Point::new(offset_x, offset_y),
        origin_of(bottom_left),
    )
}

// ---- transforms

pub fn mz_identity() -> MzTransform
    ensures { result ≡ in_c identity }
{
    MzTransform::from(Transform::identity())
}

pub fn mz_translation(x: f32, y: f32) -> MzTransform
    ensures { result ≡ in_c (translation x y) }
{
    MzTransform::from(Transform::translation(x, y))
}

pub fn mz_scale(x: f32, y: f32) -> MzTransform
    ensures { result ≡ in_c (scale x y) }
{
    MzTransform::from(Transform::scale(x, y))
}

pub fn mz_then(t: MzTransform, next: MzTransform) -> MzTransform
    ensures { result ≡ in_c (combine (out_of_c t) (out_of_c next)) }
{
    MzTransform::from(Transform::from(t).then(Transform::from(next)))
}

pub fn mz_then_scale(t: MzTransform, x: f32, y: f32) -> MzTransform
    ensures { result ≡ in_c (combine (out_of_c t) (scale x y)) }
{
    MzTransform::from(Transform::from(t).then_scale(x, y))
}

pub fn mz_then_translate(t: MzTransform, x: f32, y: f32) -> MzTransform
    ensures { result ≡ in_c (then_translate (out_of_c t) x y) }
{
    MzTransform::from(Transform::from(t).then_translate(x, y))
}

pub fn mz_pre_scale(t: MzTransform, x: f32, y: f32) -> MzTransform
    ensures { result ≡ in_c (combine (scale x y) (out_of_c t)) }
{
    MzTransform::from(Transform::from(t).pre_scale(x, y))
}

pub fn mz_pre_translate(t: MzTransform, x: f32, y: f32) -> MzTransform
    ensures { result ≡ in_c (combine (translation x y) (out_of_c t)) }
{
    MzTransform::from(Transform::from(t).pre_translate(x, y))
}

pub fn mz_transform_point(t: MzTransform, x: f32, y: f32) -> MzPoint
    ensures { result ≡ point_in_c (moved (out_of_c t) (point_of x y)) }
{
    MzPoint::from(Transform::from(t).transform_point(Point::new(x, y)))
}

pub fn mz_transform_vector(t: MzTransform, x: f32, y: f32) -> MzPoint
    ensures { result ≡ point_in_c (moved_vector (out_of_c t) (point_of x y)) }
{
    MzPoint::from(Transform::from(t).transform_vector(Point::new(x, y)))
}
