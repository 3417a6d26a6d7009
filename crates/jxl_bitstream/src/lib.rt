// JPEG XL fields: the names of the Rust's crate, from one place. There is no code here.
// By position:
#![tactic(auto)]

pub use jxl_bits::{
    FieldRefusal, Moved, Read, Refused, consume_bits, num_read_bits, peek_bits, read_bits,
    read_bool, skip_bits, zero_pad_to_byte,
};
pub use jxl_fields::{U32Specifier, read_enum, read_f16_as_f32, read_u32, read_u64};
pub use jxl_unpack::{unpack_signed, unpack_signed_u64};
// Through the struct:
pub use jxl_reader::Bitstream;
pub use jxl_results::BitstreamResult;
