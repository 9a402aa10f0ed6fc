// Text of the programs: from bytes to the words of calls or of an image, and from answers and an image to bytes.
#![tactic(auto)]

mod image_line; // image_line.rt: an image, read back
mod line; // line.rt: a line of calls and all lines, byte by byte
mod number; // number.rt: a number, byte by byte
mod reading; // reading.rt: calls
mod writing; // writing.rt: answers and an image

pub use image_line::read_image;
pub use reading::{Unreadable, read};
pub use writing::{write, write_refused, write_unreadable};
