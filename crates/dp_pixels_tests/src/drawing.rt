//! Drawing messages, with their bytes.

use dp_msg_draw::{
    Colors, Dab, Dabs, Draw, TileContent, TilePixel, Title, is_listed, kind_of_draw, read_draw,
    same_draw, write_draw,
};
use std::alloc::Global;
use std::process::Abort;

/// Whether a message is written as these bytes.
fn is_written_as(rt: &impl Abort, alloc: Global, m: &Draw, bytes: &[u8]) -> bool {
    let mut out = Vec::new(alloc);
    write_draw(m, &mut out).expect(rt, "memory");
    out.as_slice() == bytes
}

/// A copy of the message that is read from these bytes, which is this one.
fn read_again(rt: &impl Abort, alloc: Global, m: &Draw, bytes: &[u8]) -> Draw {
    let read = read_draw(alloc, kind_of_draw(m), bytes).expect(rt, "a message");
    assert!(rt; same_draw(&read, m));
    let copy = read.copy();
    drop(read);
    copy.expect(rt, "memory")
}

/// The message has this kind and these bytes, and is read from them.
fn spells(rt: &impl Abort, alloc: Global, m: &Draw, kind: u8, bytes: &[u8]) {
    assert!(rt; kind_of_draw(m) == kind);
    assert!(rt; is_written_as(rt, alloc, m, bytes));
    let copy = read_again(rt, alloc, m, bytes);
    assert!(rt; is_written_as(rt, alloc, &copy, bytes));
    drop(copy);
}

/// Messages of numbers alone.
const NUMBERS: [(Draw, u8, &[u8]); 7] = [
    (
        Draw::CanvasResize {
            top: -1,
            right: 256,
            bottom: 2,
            left: -256,
        },
        129,
        b"\xff\xff\xff\xff\0\0\x01\0\0\0\0\x02\xff\xff\xff\0",
    ),
    (
        Draw::Background { color: 0xff10_2030 },
        147,
        b"\xff\x10\x20\x30",
    ),
    (
        Draw::LayerAttr {
            id: 0x0102,
            opacity: 0x80,
            mode: 9,
            hidden: true,
        },
        131,
        b"\x01\x02\x80\x09\x01",
    ),
    (
        Draw::LayerMove {
            id: 0x0102,
            parent: 0x0304,
            above: 0x0506,
        },
        133,
        b"\x01\x02\x03\x04\x05\x06",
    ),
    (Draw::LayerDelete { id: 0x0102 }, 134, b"\x01\x02"),
    (
        Draw::FillRect {
            layer: 0x0101,
            mode: 1,
            x: 0,
            y: 0,
            w: 1,
            h: 1,
            color: 0xffff_0000,
        },
        137,
        b"\x01\x01\x01\0\0\0\0\0\0\0\0\0\0\0\x01\0\0\0\x01\xff\xff\0\0",
    ),
    (
        Draw::MoveRect {
            layer: 0x0101,
            sx: 1,
            sy: 2,
            w: 3,
            h: 4,
            tx: -5,
            ty: 6,
        },
        152,
        b"\x01\x01\0\0\0\x01\0\0\0\x02\0\0\0\x03\0\0\0\x04\xff\xff\xff\xfb\0\0\0\x06",
    ),
];

#[test]
fn messages_of_numbers(rt: HostRuntime) {
    for (m, kind, bytes) in &NUMBERS {
        spells(&rt, rt.alloc(), m, *kind, bytes);
    }
    for kind in [128, 135, 138, 145, 148, 151, 153, 255] {
        assert!(rt; !is_listed(kind));
    }
}

/// A layer that is made, with a title.
fn check_create(rt: &impl Abort, alloc: Global) {
    let bytes = Vec::from_slice(alloc, b"Hi").expect(rt, "memory");
    let create = Draw::LayerCreate {
        id: 0x0102,
        parent: 0x0300,
        group: true,
        title: Title::from_vec(bytes).expect(rt, "a title"),
    };
    spells(rt, alloc, &create, 130, b"\x01\x02\x03\0\x01Hi");
    drop(create);
}

#[test]
fn layers_with_titles(rt: HostRuntime) {
    check_create(&rt, rt.alloc());
    let title = Draw::LayerTitle {
        id: 0x0102,
        title: Title::new(rt.alloc()),
    };
    spells(&rt, rt.alloc(), &title, 132, b"\x01\x02");
    drop(title);
}

/// An image of two colours.
fn check_image(rt: &impl Abort, alloc: Global) {
    let colors = Vec::from_slice(alloc, &[0xff00_0001, 0xff00_0002]).expect(rt, "memory");
    let image = Draw::PutImage {
        layer: 0x0101,
        mode: 1,
        x: 1,
        y: 2,
        w: 2,
        h: 1,
        colors: Colors::from_vec(colors),
    };
    let bytes = b"\x01\x01\x01\0\0\0\x01\0\0\0\x02\0\0\0\x02\0\0\0\x01\xff\0\0\x01\xff\0\0\x02";
    spells(rt, alloc, &image, 136, bytes);
    drop(image);
}

/// A tile of one pixel.
fn check_solid(rt: &impl Abort, alloc: Global) {
    let tile = Draw::PutTile {
        layer: 0x0101,
        col: 1,
        row: 2,
        repeat: 3,
        content: TileContent::Solid(TilePixel {
            r: 1,
            g: 2,
            b: 3,
            a: 32768,
        }),
    };
    let bytes = b"\x01\x01\0\x01\0\x02\0\x03\0\0\x01\0\x02\0\x03\x80\0";
    spells(rt, alloc, &tile, 146, bytes);
    drop(tile);
}

/// A tile of 4096 pixels, of which the last one alone has an alpha.
fn check_pixels(rt: &impl Abort, alloc: Global) {
    let mut payload = vec![in alloc; 0u8; 32776].expect(rt, "memory");
    payload[..9].copy_from_slice(b"\x01\x01\0\x01\0\x02\0\x03\x01");
    payload.push(1).expect(rt, "memory");
    let pixels = read_draw(alloc, 146, &payload).expect(rt, "a message");
    spells(rt, alloc, &pixels, 146, &payload);
    drop(pixels);
}

#[test]
fn images_and_tiles(rt: HostRuntime) {
    check_image(&rt, rt.alloc());
    check_solid(&rt, rt.alloc());
    check_pixels(&rt, rt.alloc());
}

/// The bytes of the dabs.
const DABS: &[u8] = b"\x01\x01\xff\xff\xff\xff\0\0\0\x05\x0a\x0b\x0c\x01\xff\x02\x09\x80";

/// A list of one dab.
fn one_dab(rt: &impl Abort, alloc: Global) -> Dabs {
    let dab = Dab {
        dx: -1,
        dy: 2,
        size: 9,
        opacity: 128,
    };
    Dabs::from_vec(Vec::from_slice(alloc, &[dab]).expect(rt, "memory"))
}

/// Round dabs.
fn check_round(rt: &impl Abort, alloc: Global) {
    let round = Draw::DabsRound {
        layer: 0x0101,
        x: -1,
        y: 5,
        r: 10,
        g: 11,
        b: 12,
        mode: 1,
        dabs: one_dab(rt, alloc),
    };
    spells(rt, alloc, &round, 149, DABS);
    drop(round);
}

/// Square dabs.
fn check_square(rt: &impl Abort, alloc: Global) {
    let square = Draw::DabsSquare {
        layer: 0x0101,
        x: -1,
        y: 5,
        r: 10,
        g: 11,
        b: 12,
        mode: 1,
        dabs: one_dab(rt, alloc),
    };
    spells(rt, alloc, &square, 150, DABS);
    drop(square);
}

#[test]
fn dabs(rt: HostRuntime) {
    check_round(&rt, rt.alloc());
    check_square(&rt, rt.alloc());
}
