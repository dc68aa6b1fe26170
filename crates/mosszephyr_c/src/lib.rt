// The archive that C programs link (bindings/mosszephyr.h): a function of the crate mosszephyr under its own name, and what it promises said again.
// Twice, since C wants each name exported, a crate is a library or an archive and not both, and a contract stands only at its own function.
#![tactic(auto)]

ghost use Rattle.std.specs.Prelude.{◌≡◌};
ghost use Rattle.geometry.specs.Affine.{point_of};
ghost use Rattle.paper.specs.Floats.{identity, scale, translation, combine, then_translate, moved, moved_vector};
ghost use Rattle.paper.specs.Drawing.{left, draw, draw_in_bands};
ghost use Rattle.paper.specs.Placing.{bounds as bounds_of, placement as placement_of};
ghost use Rattle.mosszephyr.specs.Face.{in_c, out_of_c, point_in_c, origin_of, label_of, whole_label};

use mosszephyr::{MzBounds, MzDrawn, MzLabel, MzPlacement, MzPoint, MzTransform};

// ---- drawing

// The whole label of a size, as most are drawn.
#[unsafe(no_mangle)]
pub extern "C" fn mz_label(width: usize, height: usize) -> MzLabel
    ensures { result ≡ whole_label width height }
{
    mosszephyr::mz_label(width, height)
}

// Draws a label's band into the mask.
#[unsafe(no_mangle)]
pub extern "C" fn mz_draw(
    list: &[u8],
    label: MzLabel,
    mask: &mut [u8],
    words: &mut [u32],
) -> MzDrawn
    ensures { left result mask.new words.new
        ≡ draw (label_of label) list.now mask.old words.old }
{
    mosszephyr::mz_draw(list, label, mask, words)
}

// Draws the same in bands of `step` rows, with less room.
#[unsafe(no_mangle)]
pub extern "C" fn mz_draw_in_bands(
    list: &[u8],
    label: MzLabel,
    step: usize,
    mask: &mut [u8],
    words: &mut [u32],
) -> MzDrawn
    ensures { left result mask.new words.new
        ≡ draw_in_bands step (label_of label) list.now mask.old words.old }
{
    mosszephyr::mz_draw_in_bands(list, label, step, mask, words)
}

// ---- where a list lies

// The box of a list's transformed points.
#[unsafe(no_mangle)]
pub extern "C" fn mz_bounds(list: &[u8], transform: MzTransform) -> MzBounds
    ensures { result ≡ bounds_of (out_of_c transform) list.now }
{
    mosszephyr::mz_bounds(list, transform)
}

// Where the mask of a list lies, and its size.
#[unsafe(no_mangle)]
pub extern "C" fn mz_placement(
    list: &[u8],
    transform: MzTransform,
    offset_x: f32,
    offset_y: f32,
    bottom_left: bool,
) -> MzPlacement
    ensures { result ≡ placement_of (origin_of bottom_left) (out_of_c transform) (point_of offset_x offset_y) list.now }
{
    mosszephyr::mz_placement(list, transform, offset_x, offset_y, bottom_left)
}

// ---- transforms

#[unsafe(no_mangle)]
pub extern "C" fn mz_identity() -> MzTransform
    ensures { result ≡ in_c identity }
{
    mosszephyr::mz_identity()
}

#[unsafe(no_mangle)]
pub extern "C" fn mz_translation(x: f32, y: f32) -> MzTransform
    ensures { result ≡ in_c (translation x y) }
{
    mosszephyr::mz_translation(x, y)
}

#[unsafe(no_mangle)]
pub extern "C" fn mz_scale(x: f32, y: f32) -> MzTransform
    ensures { result ≡ in_c (scale x y) }
{
    mosszephyr::mz_scale(x, y)
}

#[unsafe(no_mangle)]
pub extern "C" fn mz_then(t: MzTransform, next: MzTransform) -> MzTransform
    ensures { result ≡ in_c (combine (out_of_c t) (out_of_c next)) }
{
    mosszephyr::mz_then(t, next)
}

#[unsafe(no_mangle)]
pub extern "C" fn mz_then_scale(t: MzTransform, x: f32, y: f32) -> MzTransform
    ensures { result ≡ in_c (combine (out_of_c t) (scale x y)) }
{
    mosszephyr::mz_then_scale(t, x, y)
}

#[unsafe(no_mangle)]
pub extern "C" fn mz_then_translate(t: MzTransform, x: f32, y: f32) -> MzTransform
    ensures { result ≡ in_c (then_translate (out_of_c t) x y) }
{
    mosszephyr::mz_then_translate(t, x, y)
}

#[unsafe(no_mangle)]
pub extern "C" fn mz_pre_scale(t: MzTransform, x: f32, y: f32) -> MzTransform
    ensures { result ≡ in_c (combine (scale x y) (out_of_c t)) }
{
    mosszephyr::mz_pre_scale(t, x, y)
}

#[unsafe(no_mangle)]
pub extern "C" fn mz_pre_translate(t: MzTransform, x: f32, y: f32) -> MzTransform
    ensures { result ≡ in_c (combine (translation x y) (out_of_c t)) }
{
    mosszephyr::mz_pre_translate(t, x, y)
}

#[unsafe(no_mangle)]
pub extern "C" fn mz_transform_point(t: MzTransform, x: f32, y: f32) -> MzPoint
    ensures { result ≡ point_in_c (moved (out_of_c t) (point_of x y)) }
{
    mosszephyr::mz_transform_point(t, x, y)
}

#[unsafe(no_mangle)]
pub extern "C" fn mz_transform_vector(t: MzTransform, x: f32, y: f32) -> MzPoint
    ensures { result ≡ point_in_c (moved_vector (out_of_c t) (point_of x y)) }
{
    mosszephyr::mz_transform_vector(t, x, y)
}
