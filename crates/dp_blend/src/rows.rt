//! Rows of pixels: one source for each pixel, one through a mask, and a source at each place.
//!
//! Two pixels are blended at a time, and the last of an odd row by itself. A turn of a loop blends
//! eight, so that what is the same for all is worked out once for them.
//!
//! The rule: docs/protocol.md, "Numbers and blending".

ghost use Rattle.std.specs.Prelude.{◌≡◌, ◌<◌, ◌≤◌, ◌+◌, ◌-◌, ◌*◌, ◌/◌, ◌%◌, ℕ};
ghost use Rattle.std.specs.Prelude.{length, All, if◌then◌else◌};
ghost use Rattle.std.specs.Prelude.{slice_index, slice_index_or, slice_set};
ghost use Rattle.dp_blend.specs.Color.{Channels, clear, fade};
ghost use Rattle.dp_blend.specs.Blending.{blend, is_between, masked, row_blended, row_filled};
ghost use Rattle.dp_blend.specs.Blending.{row_merged};

use crate::color::{ONE, Pixel};
use crate::covering::cover;
use crate::kernels::{
    Adding, Covering, Erasing, Faded, Fading, Fill, Kernel, Multiplying, Recoloring, Replacing,
    Seen, Source, Whole, blend_two, fill_two, merge_two,
};
use crate::modes::Mode;

/// From how many columns on rows are filled one by one.
const MANY: usize = 32;

/// Blends the source with each pixel of the row, faded by the mask at its place: 32768 blends all
/// of it, and if the mask is 0 the pixel stays.
pub fn row_blend(mode: Mode, src: Pixel, mask: &[u16], row: &mut [Pixel])
    requires same_length { length mask.now ≡ length row.old }
    requires within { All (λ m. m ≤ 32768) mask.now }
    ensures value { row.new ≡ row_blended mode src mask.now row.old }
    ensures places { (k : ℕ) (d : Channels) → k < length row.old →
        slice_index_or row.new k d
        ≡ masked mode src (slice_index mask.now k) (slice_index_or row.old k d) }
{
    match mode {
        Mode::Erase => blend_by::<Erasing>(src, mask, row),
        Mode::Normal => blend_by::<Covering>(src, mask, row),
        Mode::Multiply => blend_by::<Multiplying>(src, mask, row),
        Mode::Add => blend_by::<Adding>(src, mask, row),
        Mode::Recolor => blend_by::<Recoloring>(src, mask, row),
        Mode::Replace => blend_by::<Replacing>(src, mask, row),
    }
}

/// Blends the source with each pixel of the row.
pub fn row_fill(mode: Mode, src: Pixel, row: &mut [Pixel])
    ensures value { row.new ≡ row_filled mode src row.old }
    ensures places { (k : ℕ) (d : Channels) → k < length row.old →
        slice_index_or row.new k d ≡ blend mode src (slice_index_or row.old k d) }
{
    match mode {
        Mode::Erase => fill_by(Source::of(Erasing, src), row),
        Mode::Normal if src.a() > 0 => fill_by(Seen { src }, row),
        Mode::Normal => fill_by(Source::of(Covering, src), row),
        Mode::Multiply => fill_by(Source::of(Multiplying, src), row),
        Mode::Add => fill_by(Source::of(Adding, src), row),
        Mode::Recolor => fill_by(Source::of(Recoloring, src), row),
        Mode::Replace => fill_by(Source::of(Replacing, src), row),
    }
}

/// Blends the source with the pixels of some rows from column `left` on before `right`. The rows
/// are `stride` pixels long and stand one after the other. All others stay.
pub fn rows_fill(
    mode: Mode,
    src: Pixel,
    left: usize,
    right: usize,
    stride: usize,
    rows: &mut [Pixel],
)
    requires some { 0 < stride }
    requires order { left ≤ right }
    requires within { right ≤ stride }
    requires whole { length rows.old % stride ≡ 0 }
    ensures count { length rows.new ≡ length rows.old }
    ensures places { (k : ℕ) (d : Channels) → k < length rows.old →
        slice_index_or rows.new k d ≡ (if is_between left right (k % stride)
        then blend mode src (slice_index_or rows.old k d)
        else slice_index_or rows.old k d) }
{
    match mode {
        Mode::Erase => rows_by(Source::of(Erasing, src), left, right, stride, rows),
        Mode::Normal if src.a() > 0 => rows_by(Seen { src }, left, right, stride, rows),
        Mode::Normal => rows_by(Source::of(Covering, src), left, right, stride, rows),
        Mode::Multiply => rows_by(Source::of(Multiplying, src), left, right, stride, rows),
        Mode::Add => rows_by(Source::of(Adding, src), left, right, stride, rows),
        Mode::Recolor => rows_by(Source::of(Recoloring, src), left, right, stride, rows),
        Mode::Replace => rows_by(Source::of(Replacing, src), left, right, stride, rows),
    }
}

/// Blends with each pixel of the row the source at its place, faded by `by`, of which 32768 is one.
/// A fade by 0 blends the clear pixel, so that in the mode Replace it leaves the row clear.
pub fn row_merge(mode: Mode, by: u16, sources: &[Pixel], row: &mut [Pixel])
    requires same_length { length sources.now ≡ length row.old }
    requires within { by ≤ 32768 }
    ensures value { row.new ≡ row_merged mode by sources.now row.old }
    ensures places { (k : ℕ) (s d : Channels) → k < length row.old →
        slice_index_or row.new k d
        ≡ blend mode (fade (slice_index_or sources.now k s) by) (slice_index_or row.old k d) }
{
    if by != ONE {
        merge_faded(mode, Faded { by }, sources, row);
    } else if mode == Mode::Normal {
        cover(sources, row);
    } else {
        merge_faded(mode, Whole, sources, row);
    }
}

/// `row_blend` in the kernel's mode.
fn blend_by<K: Kernel>(src: Pixel, mask: &[u16], row: &mut [Pixel])
    requires same_length { length mask.now ≡ length row.old }
    requires within { All (λ m. m ≤ 32768) mask.now }
    ensures value { row.new ≡ row_blended K.mode src mask.now row.old }
    ensures places { (k : ℕ) (d : Channels) → k < length row.old →
        slice_index_or row.new k d
        ≡ masked K.mode src (slice_index mask.now k) (slice_index_or row.old k d) }
{
    for k in 0..row.len() / 2 {
        let (at, next) = (2 * k, 2 * k + 1);
        let masks = (mask[at], mask[next]);
        let (first, second) = blend_two::<K>(src, masks, row, at, next);
        row[at] = first;
        row[next] = second;
    }
    if row.len() % 2 == 1 {
        let last = row.len() - 1;
        let masks = (mask[last], mask[last]);
        let (only, _) = blend_two::<K>(src, masks, row, last, last);
        row[last] = only;
    }
}

/// `rows_fill` with a source and its mode. If there are few columns, first 16 of them are filled in
/// all rows, then 8, 4, 2 and 1. The compiler knows these numbers, so no row has a loop of its own.
fn rows_by<F: Fill>(fill: F, left: usize, right: usize, stride: usize, rows: &mut [Pixel])
    requires some { 0 < stride }
    requires order { left ≤ right }
    requires within { right ≤ stride }
    requires whole { length rows.old % stride ≡ 0 }
    ensures count { length rows.new ≡ length rows.old }
    ensures places { (k : ℕ) (d : Channels) → k < length rows.old →
        slice_index_or rows.new k d ≡ (if is_between left right (k % stride)
        then blend (F.mode fill) (F.source fill) (slice_index_or rows.old k d)
        else slice_index_or rows.old k d) }
{
    if right - left >= MANY {
        return rows_by_parts(fill, left, right, stride, rows);
    }
    let sixteens = fill_columns(fill, 16, left, right, stride, rows);
    let eights = fill_columns(fill, 8, sixteens, right, stride, rows);
    let fours = fill_columns(fill, 4, eights, right, stride, rows);
    let twos = fill_columns(fill, 2, fours, right, stride, rows);
    fill_columns(fill, 1, twos, right, stride, rows);
}

/// `rows_by` on `count` columns from one on, if there are as many before `right`. Gives the next
/// column.
#[inline(always)]
fn fill_columns<F: Fill>(
    fill: F,
    count: usize,
    from: usize,
    right: usize,
    stride: usize,
    rows: &mut [Pixel],
) -> usize
    requires some { 0 < stride }
    requires order { from ≤ right }
    requires within { right ≤ stride }
    requires whole { length rows.old % stride ≡ 0 }
    ensures from { from ≤ result }
    ensures within { result ≤ right }
    ensures few { right - from < 2 * count → right - result < count }
    ensures count { length rows.new ≡ length rows.old }
    ensures places { (k : ℕ) (d : Channels) → k < length rows.old →
        slice_index_or rows.new k d ≡ (if is_between from result (k % stride)
        then blend (F.mode fill) (F.source fill) (slice_index_or rows.old k d)
        else slice_index_or rows.old k d) }
{
    if right - from < count {
        return from;
    }
    rows_by_parts(fill, from, from + count, stride, rows);
    from + count
}

/// `rows_by`, row by row.
#[inline(always)]
fn rows_by_parts<F: Fill>(fill: F, left: usize, right: usize, stride: usize, rows: &mut [Pixel])
    requires some { 0 < stride }
    requires order { left ≤ right }
    requires within { right ≤ stride }
    requires whole { length rows.old % stride ≡ 0 }
    ensures count { length rows.new ≡ length rows.old }
    ensures places { (k : ℕ) (d : Channels) → k < length rows.old →
        slice_index_or rows.new k d ≡ (if is_between left right (k % stride)
        then blend (F.mode fill) (F.source fill) (slice_index_or rows.old k d)
        else slice_index_or rows.old k d) }
{
    for j in 0..rows.len() / stride {
        let start = j * stride;
        fill_part(fill, left, right, &mut rows[start..start + stride]);
    }
}

/// Blends the source with the pixels of a row from column `left` on before `right`. All others
/// stay.
#[inline(always)]
fn fill_part<F: Fill>(fill: F, left: usize, right: usize, row: &mut [Pixel])
    requires order { left ≤ right }
    requires within { right ≤ length row.old }
    ensures count { length row.new ≡ length row.old }
    ensures places { (k : ℕ) (d : Channels) → k < length row.old →
        slice_index_or row.new k d ≡ (if is_between left right k
        then blend (F.mode fill) (F.source fill) (slice_index_or row.old k d)
        else slice_index_or row.old k d) }
{
    fill_by(fill, &mut row[left..right]);
}

/// `row_fill` with a source and its mode: eight pixels at a time, and then the last ones.
#[inline(always)]
fn fill_by<F: Fill>(fill: F, row: &mut [Pixel])
    ensures { row.new ≡ row_filled (F.mode fill) (F.source fill) row.old }
{
    let (eights, rest) = row.split_at_mut(row.len() / 8 * 8);
    fill_eights(fill, eights);
    fill_twos(fill, rest);
}

/// Blends the source with the pixels at a place of a row and at the next.
#[inline(always)]
fn fill_next<F: Fill>(fill: F, row: &mut [Pixel], at: usize)
    requires { at + 1 < length row.old }
    ensures { row.new ≡ slice_set (slice_set row.old at
        (blend (F.mode fill) (F.source fill) (slice_index_or row.old at clear))) (at + 1)
        (blend (F.mode fill) (F.source fill) (slice_index_or row.old (at + 1) clear)) }
{
    let (first, second) = fill_two(fill, row, at, at + 1);
    row[at] = first;
    row[at + 1] = second;
}

/// `fill_by`, of a row of some times eight pixels.
#[inline(always)]
fn fill_eights<F: Fill>(fill: F, row: &mut [Pixel])
    requires { length row.old % 8 ≡ 0 }
    ensures { row.new ≡ row_filled (F.mode fill) (F.source fill) row.old }
{
    for k in 0..row.len() / 8 {
        fill_next(fill, row, 8 * k);
        fill_next(fill, row, 8 * k + 2);
        fill_next(fill, row, 8 * k + 4);
        fill_next(fill, row, 8 * k + 6);
    }
}

/// `fill_by`, two pixels at a time.
#[inline(always)]
fn fill_twos<F: Fill>(fill: F, row: &mut [Pixel])
    ensures { row.new ≡ row_filled (F.mode fill) (F.source fill) row.old }
{
    for k in 0..row.len() / 2 {
        fill_next(fill, row, 2 * k);
    }
    if row.len() % 2 == 1 {
        let last = row.len() - 1;
        let (only, _) = fill_two(fill, row, last, last);
        row[last] = only;
    }
}

/// `row_merge` with the number that the sources are faded by.
fn merge_faded<F: Fading>(mode: Mode, fading: F, sources: &[Pixel], row: &mut [Pixel])
    requires same_length { length sources.now ≡ length row.old }
    ensures value { row.new ≡ row_merged mode (F.by fading) sources.now row.old }
    ensures places { (k : ℕ) (s d : Channels) → k < length row.old →
        slice_index_or row.new k d ≡ blend mode
        (fade (slice_index_or sources.now k s) (F.by fading)) (slice_index_or row.old k d) }
{
    match mode {
        Mode::Erase => merge_by::<Erasing, F>(fading, sources, row),
        Mode::Normal => merge_by::<Covering, F>(fading, sources, row),
        Mode::Multiply => merge_by::<Multiplying, F>(fading, sources, row),
        Mode::Add => merge_by::<Adding, F>(fading, sources, row),
        Mode::Recolor => merge_by::<Recoloring, F>(fading, sources, row),
        Mode::Replace => merge_by::<Replacing, F>(fading, sources, row),
    }
}

/// `row_merge` in the kernel's mode: eight pixels at a time, and then the last ones.
pub(crate) fn merge_by<K: Kernel, F: Fading>(fading: F, sources: &[Pixel], row: &mut [Pixel])
    requires same_length { length sources.now ≡ length row.old }
    ensures value { row.new ≡ row_merged K.mode (F.by fading) sources.now row.old }
    ensures places { (k : ℕ) (s d : Channels) → k < length row.old →
        slice_index_or row.new k d ≡ blend K.mode
        (fade (slice_index_or sources.now k s) (F.by fading)) (slice_index_or row.old k d) }
{
    let (eights, rest) = row.split_at_mut(row.len() / 8 * 8);
    let (first, last) = sources.split_at(eights.len());
    merge_eights::<K, F>(fading, first, eights);
    merge_twos::<K, F>(fading, last, rest);
}

/// Blends two sources, at a place and at the next, with the pixels of a row there.
#[inline(always)]
fn merge_next<K: Kernel, F: Fading>(fading: F, sources: &[Pixel], row: &mut [Pixel], at: usize)
    requires same_length { length sources.now ≡ length row.old }
    requires at { at + 1 < length row.old }
    ensures { row.new ≡ slice_set
        (slice_set row.old at (blend K.mode
        (fade (slice_index_or sources.now at clear) (F.by fading))
        (slice_index_or row.old at clear)))
        (at + 1) (blend K.mode
        (fade (slice_index_or sources.now (at + 1) clear) (F.by fading))
        (slice_index_or row.old (at + 1) clear)) }
{
    let (first, second) = merge_two::<K, F>(fading, sources, row, at, at + 1);
    row[at] = first;
    row[at + 1] = second;
}

/// `row_merge` in the kernel's mode, of a row of some times eight pixels.
#[inline(always)]
fn merge_eights<K: Kernel, F: Fading>(fading: F, sources: &[Pixel], row: &mut [Pixel])
    requires same_length { length sources.now ≡ length row.old }
    requires whole { length row.old % 8 ≡ 0 }
    ensures { row.new ≡ row_merged K.mode (F.by fading) sources.now row.old }
{
    for k in 0..row.len() / 8 {
        merge_next::<K, F>(fading, sources, row, 8 * k);
        merge_next::<K, F>(fading, sources, row, 8 * k + 2);
        merge_next::<K, F>(fading, sources, row, 8 * k + 4);
        merge_next::<K, F>(fading, sources, row, 8 * k + 6);
    }
}

/// `row_merge` in the kernel's mode, two pixels at a time.
#[inline(always)]
fn merge_twos<K: Kernel, F: Fading>(fading: F, sources: &[Pixel], row: &mut [Pixel])
    requires same_length { length sources.now ≡ length row.old }
    ensures { row.new ≡ row_merged K.mode (F.by fading) sources.now row.old }
{
    for k in 0..row.len() / 2 {
        merge_next::<K, F>(fading, sources, row, 2 * k);
    }
    if row.len() % 2 == 1 {
        let last = row.len() - 1;
        let (only, _) = merge_two::<K, F>(fading, sources, row, last, last);
        row[last] = only;
    }
}
