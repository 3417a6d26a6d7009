// What the container's headers say: box types, one box header, and how far a payload reaches.
#![tactic(auto)]

pub use jxl_reach::BytesLeft;

pub mod box_header;
