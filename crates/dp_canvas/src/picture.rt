//! A canvas is shown.

use crate::Canvas;
use dp_flat::write_p3;
use dp_io::Sink;
use dp_shown::{ClientBoard, PictureEnd};
use std::alloc::Global;

impl ClientBoard for Canvas {
    fn write_picture<O: Sink>(&self, alloc: Global, output: &mut O) -> Result<(), PictureEnd> {
        write_p3(alloc, self, output)
    }

    fn shows() {}
}
