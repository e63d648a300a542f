//! What runs to the payload's end: titles, dabs, colours and pixels.

ghost use Rattle.std.specs.Prelude.{◌≡◌, ◌<◌, ◌≤◌, ◌^◌, ◌*◌, ◌++◌, length, IfSome, IfNone, OnOk};
ghost use Rattle.std.specs.List.{flat_map};
ghost use Rattle.dp_fields.specs.Fields.{four_bytes};
ghost use Rattle.dp_msg_draw.specs.Limits.{IsTitle};
ghost use Rattle.dp_msg_draw.specs.Payloads.{dab_bytes, AreDabs, IsImage};
ghost use Rattle.dp_msg_draw.specs.Payloads.{pixel_bytes, IsTile, content_bytes, IsContent};
ghost use Rattle.dp_fields.specs.Reading.{Answers, Spells};

use crate::draw::TileContent;
use crate::lists::{Colors, Dabs, TilePixels, Title, is_title};
use dp_fields::{Field, PayloadError, Tail, all, put_items, read_items};
use std::alloc::{AllocError, Global};

impl Tail for Title {
    ghost spelling = { λ title. title };

    ghost valid = { IsTitle };

    fn read(alloc: Global, bytes: &[u8]) -> Result<Title, PayloadError> {
        if !is_title(bytes) {
            return Err(PayloadError::Malformed);
        }
        Ok(Title::from_slice(alloc, bytes)?)
    }
}

pub(crate) fn put_title<F: Field>(
    field: &F,
    title: &Title,
    out: &mut Vec<u8>,
) -> Result<(), AllocError>
    ensures spelled { OnOk result (out.new.items
        ≡ out.old.items ++ (F.spelling field.now ++ title.now)) }
    ensures short { length title.now ≤ 255 }
{
    let title = title.as_slice();
    field.put(out)?;
    out.extend_from_slice(title)
}

impl Tail for Dabs {
    ghost spelling = { flat_map dab_bytes };

    ghost valid = { AreDabs };

    fn read(alloc: Global, bytes: &[u8]) -> Result<Dabs, PayloadError> {
        let dabs = read_items(alloc, bytes, 1, 16380)?;
        Ok(Dabs::from_vec(dabs))
    }
}

#[tactic(auto, using(crate::proofs::Lengths::length_of_dabs))]
pub(crate) fn put_dabs<F: Field>(
    field: &F,
    dabs: &Dabs,
    out: &mut Vec<u8>,
) -> Result<(), AllocError>
    ensures spelled { OnOk result (out.new.items
        ≡ out.old.items ++ (F.spelling field.now ++ flat_map dab_bytes dabs.now)) }
    ensures short { length (flat_map dab_bytes dabs.now) ≤ 65520 }
{
    let dabs = dabs.as_slice();
    field.put(out)?;
    put_items(dabs, out)
}

/// An image of w by h colours, row by row.
#[derive(Drop)]
pub(crate) struct Image {
    pub w: u32,
    pub h: u32,
    pub colors: Colors,
}

/// How many colours an image of w by h has, at least one and as many as a payload holds.
fn area(w: u32, h: u32) -> Option<usize>
    ensures some { IfSome result (λ n. (1 ≤ w) × (1 ≤ h) × (n ≡ w * h) × (n ≤ 16379)) }
    ensures none { IfNone result ((1 ≤ w) → (1 ≤ h) → 16379 < w * h) }
{
    let area = u64::from(w) * u64::from(h);
    if area >= 1 && area <= 16379 {
        Some(area as usize)
    } else {
        None
    }
}

impl Tail for Image {
    ghost spelling = { λ i. four_bytes i.w ++ four_bytes i.h ++ flat_map four_bytes i.colors };

    ghost valid = { λ i. (i.w < 2 ^ 32) × (i.h < 2 ^ 32) × IsImage i.w i.h i.colors };

    fn read(alloc: Global, bytes: &[u8]) -> Result<Image, PayloadError> {
        let Some(((w, h), rest)) = Field::take(bytes) else {
            return Err(PayloadError::Malformed);
        };
        let Some(area) = area(w, h) else {
            return Err(PayloadError::Malformed);
        };
        let colors = Colors::from_vec(read_items(alloc, rest, area, area)?);
        Ok(Image { w, h, colors })
    }
}

/// The 4096 pixels that these bytes are, not all equal. Pixels are all equal if the bytes after
/// the first one are a prefix of all the bytes.
fn read_pixels(alloc: Global, bytes: &[u8]) -> Result<TilePixels, PayloadError>
    ensures { Answers (Spells (flat_map pixel_bytes) IsTile bytes.now) result }
{
    if bytes.len() != 32768 || bytes.starts_with(&bytes[8..]) {
        return Err(PayloadError::Malformed);
    }
    let pixels = read_items(alloc, bytes, 4096, 4096)?;
    Ok(TilePixels::from_vec(pixels))
}

impl Tail for TileContent {
    ghost spelling = { content_bytes };

    ghost valid = { IsContent };

    fn read(alloc: Global, bytes: &[u8]) -> Result<TileContent, PayloadError> {
        match u8::take(bytes) {
            Some((0, rest)) => match all(rest) {
                Some(pixel) => Ok(TileContent::Solid(pixel)),
                None => Err(PayloadError::Malformed),
            },
            Some((1, rest)) => Ok(TileContent::Pixels(read_pixels(alloc, rest)?)),
            _ => Err(PayloadError::Malformed),
        }
    }
}

#[tactic(auto, using(crate::proofs::Lengths::length_of_colors))]
pub(crate) fn put_colors<F: Field>(
    field: &F,
    colors: &Colors,
    out: &mut Vec<u8>,
) -> Result<(), AllocError>
    ensures spelled { OnOk result (out.new.items
        ≡ out.old.items ++ (F.spelling field.now ++ flat_map four_bytes colors.now)) }
    ensures short { length (flat_map four_bytes colors.now) ≤ 65516 }
{
    let colors = colors.as_slice();
    field.put(out)?;
    put_items(colors, out)
}

#[tactic(auto, using(crate::proofs::Lengths::length_of_pixels))]
fn put_pixels(pixels: &TilePixels, out: &mut Vec<u8>) -> Result<(), AllocError>
    ensures spelled { OnOk result (out.new.items
        ≡ out.old.items ++ flat_map pixel_bytes pixels.now) }
    ensures short { length (flat_map pixel_bytes pixels.now) ≡ 32768 }
{
    put_items(pixels.as_slice(), out)
}

/// A field, and then what a tile is filled with.
pub(crate) fn put_content<F: Field>(
    field: &F,
    content: &TileContent,
    out: &mut Vec<u8>,
) -> Result<(), AllocError>
    ensures spelled { OnOk result (out.new.items
        ≡ out.old.items ++ (F.spelling field.now ++ content_bytes content.now)) }
    ensures short { OnOk result (length (content_bytes content.now) ≤ 32769) }
{
    field.put(out)?;
    match content {
        TileContent::Solid(pixel) => (0u8, *pixel).put(out),
        TileContent::Pixels(pixels) => {
            1u8.put(out)?;
            put_pixels(pixels, out)
        }
    }
}
