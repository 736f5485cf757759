// Operators with a number as their result: operands are taken whole, and the result wraps at the width.
ghost use Rattle.std.specs.Prelude.{◌≡◌, ◌≢◌, ◌*◌, ◌/◌, ◌%◌, ◌^◌, ◌+ℤ◌, ◌-ℤ◌, ◌*ℤ◌, neg_ℤ, pos, int_div, int_rem, bit_and, bit_or, bit_xor};
ghost use Rattle.kr_classes_table.specs.Numbers.{Bits32, Bits64, bits, complement, distance as distance_of, shifted_right, span, whole_of, wrap};

use kr_value::Width;

/// The lowest 32 bits of a number.
#[inline(always)]
#[tactic(auto, using(crate::proofs::Wraps::low_bits_are))]
fn low_bits(a: i64) -> u32
    ensures { result ≡ bits Bits32 a }
{
    (a.cast_unsigned() % 4_294_967_296) as u32
}

/// The int with these bits.
#[inline(always)]
#[tactic(auto, using(crate::proofs::Wraps::whole_of_32))]
fn int_of(low: u32) -> i64
    ensures { result ≡ whole_of Bits32 low }
{
    i64::from(low.cast_signed())
}

/// The 64 bits of a number.
#[inline(always)]
#[tactic(auto, using(crate::proofs::Wraps::all_bits_are))]
fn all_bits(a: i64) -> u64
    ensures { result ≡ bits Bits64 a }
{
    a.cast_unsigned()
}

/// The long with these bits.
#[inline(always)]
#[tactic(auto, using(crate::proofs::Wraps::whole_of_64))]
fn long_of(all: u64) -> i64
    ensures { result ≡ whole_of Bits64 all }
{
    all.cast_signed()
}

/// The number of a width that a number leaves.
#[inline(always)]
#[tactic(auto, using(crate::proofs::Wraps::whole_64))]
pub(crate) fn narrowed(width: Width, a: i64) -> i64
    ensures { result ≡ wrap width a }
{
    match width {
        Width::Bits32 => int_of(low_bits(a)),
        Width::Bits64 => a,
    }
}

#[inline(always)]
#[tactic(auto, using(crate::proofs::Wraps::negation_wraps))]
pub(crate) fn negated(width: Width, a: i64) -> i64
    ensures { result ≡ wrap width (neg_ℤ a) }
{
    narrowed(width, a.wrapping_neg())
}

#[inline(always)]
#[tactic(auto, using(crate::proofs::Wraps::complement_wraps))]
pub(crate) fn complemented(width: Width, a: i64) -> i64
    ensures { result ≡ wrap width (complement a) }
{
    match width {
        Width::Bits32 => int_of(u32::MAX - low_bits(a)),
        Width::Bits64 => long_of(u64::MAX - all_bits(a)),
    }
}

#[inline(always)]
#[tactic(auto, using(crate::proofs::Wraps::product_wraps))]
pub(crate) fn product(width: Width, a: i64, b: i64) -> i64
    ensures { result ≡ wrap width (a *ℤ b) }
{
    narrowed(width, a.wrapping_mul(b))
}

/// Rounded toward zero.
#[inline(always)]
pub(crate) fn quotient(width: Width, a: i64, b: i64) -> i64
    requires { b ≢ pos 0 }
    ensures { result ≡ wrap width (int_div a b) }
{
    narrowed(width, a.wrapping_div(b))
}

/// With the dividend's sign.
#[inline(always)]
pub(crate) fn remainder(width: Width, a: i64, b: i64) -> i64
    requires { b ≢ pos 0 }
    ensures { result ≡ wrap width (int_rem a b) }
{
    narrowed(width, a.wrapping_rem(b))
}

#[inline(always)]
#[tactic(auto, using(crate::proofs::Wraps::sum_wraps))]
pub(crate) fn sum(width: Width, a: i64, b: i64) -> i64
    ensures { result ≡ wrap width (a +ℤ b) }
{
    narrowed(width, a.wrapping_add(b))
}

#[inline(always)]
#[tactic(auto, using(crate::proofs::Wraps::difference_wraps))]
pub(crate) fn difference(width: Width, a: i64, b: i64) -> i64
    ensures { result ≡ wrap width (a -ℤ b) }
{
    narrowed(width, a.wrapping_sub(b))
}

/// How far a shift goes: the distance's low bits.
#[inline(always)]
#[tactic(auto, using(crate::proofs::Wraps::low_distance))]
fn distance(width: Width, b: i64) -> u32
    ensures { result ≡ distance_of width b }
{
    match width {
        Width::Bits32 => low_bits(b) % 32,
        Width::Bits64 => (all_bits(b) % 64) as u32,
    }
}

#[inline(always)]
#[tactic(auto, using(crate::proofs::Wraps::left_32, crate::proofs::Wraps::left_64))]
pub(crate) fn left_shift(width: Width, a: i64, b: i64) -> i64
    ensures { result ≡ whole_of width (bits width a * 2 ^ distance_of width b % span width) }
{
    match width {
        Width::Bits32 => int_of(low_bits(a).wrapping_shl(distance(Width::Bits32, b))),
        Width::Bits64 => long_of(all_bits(a).wrapping_shl(distance(Width::Bits64, b))),
    }
}

/// Keeps the sign.
#[inline(always)]
#[tactic(auto, using(crate::proofs::Wraps::shift_wraps))]
pub(crate) fn right_shift(width: Width, a: i64, b: i64) -> i64
    ensures { result ≡ wrap width (shifted_right a (distance_of width b)) }
{
    narrowed(width, a.wrapping_shr(distance(width, b)))
}

/// Fills with zeros.
#[inline(always)]
#[tactic(auto, using(crate::proofs::Wraps::right_32, crate::proofs::Wraps::right_64))]
pub(crate) fn unsigned_right_shift(width: Width, a: i64, b: i64) -> i64
    ensures { result ≡ whole_of width (bits width a / 2 ^ distance_of width b) }
{
    match width {
        Width::Bits32 => int_of(low_bits(a).wrapping_shr(distance(Width::Bits32, b))),
        Width::Bits64 => long_of(all_bits(a).wrapping_shr(distance(Width::Bits64, b))),
    }
}

#[inline(always)]
pub(crate) fn both_bits(width: Width, a: i64, b: i64) -> i64
    ensures { result ≡ whole_of width (bit_and (bits width a) (bits width b)) }
{
    match width {
        Width::Bits32 => int_of(low_bits(a) & low_bits(b)),
        Width::Bits64 => long_of(all_bits(a) & all_bits(b)),
    }
}

#[inline(always)]
pub(crate) fn different_bits(width: Width, a: i64, b: i64) -> i64
    ensures { result ≡ whole_of width (bit_xor (bits width a) (bits width b)) }
{
    match width {
        Width::Bits32 => int_of(low_bits(a) ^ low_bits(b)),
        Width::Bits64 => long_of(all_bits(a) ^ all_bits(b)),
    }
}

#[inline(always)]
pub(crate) fn either_bits(width: Width, a: i64, b: i64) -> i64
    ensures { result ≡ whole_of width (bit_or (bits width a) (bits width b)) }
{
    match width {
        Width::Bits32 => int_of(low_bits(a) | low_bits(b)),
        Width::Bits64 => long_of(all_bits(a) | all_bits(b)),
    }
}
