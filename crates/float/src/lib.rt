// Floats of 32 bits as the port needs them: a float from its four bytes, whether it is finite, a float cut toward zero from its bits,
// and a float rounded down or up to a whole number.
#![tactic(auto)]

ghost use Rattle.std.specs.Prelude.{◌≡◌};
ghost use Rattle.std.specs.Float.{binary32};
ghost use Rattle.std.specs.Float.Ieee.{of_bits};
ghost use Rattle.std.specs.Float.Ieee.Scale.{finite};
ghost use Rattle.float.specs.Bits.{float_of};
ghost use Rattle.float.specs.Cut.{sized_of, cut_of};
ghost use Rattle.float.specs.Round.{floor_of, ceil_of};

// A float cut toward zero: whether it is below zero, its whole part, and whether anything was cut off.
#[derive(Clone, Copy, Debug, PartialEq, Eq)]
pub struct Cut {
    pub below: bool,
    pub whole: u32,
    pub rest: bool,
}

// The float of a bit pattern. `f32::from_bits` and `from_le_bytes` ask that it is no NaN's.
fn float_of(n: u32) -> f32
    ensures { result ≡ of_bits binary32 n }
{
    if n % 0x8000_0000 > 0x7f80_0000 {
        f32::NAN
    } else {
        f32::from_bits(n)
    }
}

// The float of four bytes, the first one lowest.
pub fn from_bytes(a: u8, b: u8, c: u8, d: u8) -> f32
    ensures { result ≡ float_of a b c d }
{
    float_of(u32::from_le_bytes([a, b, c, d]))
}

// Neither a NaN nor an infinity. By tests for equality, which raise no flag of the processor at an infinity or a quiet NaN, however they are compiled:
// the library's word takes x from itself, and a caller that lets an invalid operation trap would not be answered.
pub fn is_finite(x: f32) -> bool
    ensures { result ≡ finite x }
{
    if x != x {
        return false;
    }
    x != f32::INFINITY && x != -f32::INFINITY
}

// The size of w, cut. Where the exponent's field x is from 1 to 254 the size is (t + 2^23) / 2^(150 - x).
fn sized(w: f32, below: bool) -> Option<Cut>
    ensures { result ≡ sized_of w below }
{
    if w != w {
        return None;
    }
    let b = f32::to_bits(w) % 0x8000_0000;
    let x = b / 0x80_0000;
    let t = b % 0x80_0000;
    if x > 150 {
        return None;
    }
    if x < 127 {
        return Some(Cut {
            below,
            whole: 0,
            rest: b != 0,
        });
    }
    let d = t + 0x80_0000;
    let k = 150 - x;
    let p = 1 << k;
    Some(Cut {
        below,
        whole: d / p,
        rest: d % p != 0,
    })
}

// w cut toward zero: None from 2^24 on, and for what is not finite.
pub fn cut_float(w: f32) -> Option<Cut>
    ensures { result ≡ cut_of w }
{
    sized(w, w < 0.0)
}

// v rounded down to a whole number. What is far is whole already, or is not finite. By its bits: the library's word adds a large number and takes it
// away again, which raises the processor's flag for an inexact result, and a caller that lets that trap would not be answered.
pub fn floor(v: f32) -> f32
    ensures { result ≡ floor_of v }
{
    match cut_float(v) {
        Some(Cut { below, whole, rest }) => {
            if rest {
                if below {
                    return -((whole + 1) as f32);
                }
                return whole as f32;
            }
            v
        }
        None => v,
    }
}

// v rounded up to a whole number: down, mirrored, and so by the bits too.
pub fn ceil(v: f32) -> f32
    ensures { result ≡ ceil_of v }
{
    -floor(-v)
}
