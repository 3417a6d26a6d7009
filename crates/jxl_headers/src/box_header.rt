// One box header, after the Rust's container/box_header.rs.
ghost use Rattle.std.specs.Prelude.{◌≡◌, ◌+◌, ◌≤◌, get_or, length};
ghost use Rattle.jxl_headers.specs.Bytes.{be32, be64};
ghost use Rattle.jxl_headers.specs.Header.{extended, header_of, numbered, reads, told_header};

use crate::BytesLeft;
use jxl_refusals::BoxRefusal;

// Types of JPEG XL container boxes: the four bytes, the first the highest. Numbers and no enum: any four bytes are a type.
// JPEG XL signature box, `JXL `.
pub const JXL: u32 = 0x4a584c20;
// JPEG XL file type box, `ftyp`.
pub const FILE_TYPE: u32 = 0x66747970;
// JPEG XL level box, `jxll`.
pub const JXL_LEVEL: u32 = 0x6a786c6c;
// JUMBF box, `jumb`.
pub const JUMBF: u32 = 0x6a756d62;
// Exif box, `Exif`.
pub const EXIF: u32 = 0x45786966;
// XML box, mainly for storing XMP metadata, `xml `.
pub const XML: u32 = 0x786d6c20;
// Brotli-compressed box, `brob`.
pub const BROTLI_COMPRESSED: u32 = 0x62726f62;
// Frame index box, `jxli`.
pub const FRAME_INDEX: u32 = 0x6a786c69;
// JPEG XL codestream box, `jxlc`.
pub const CODESTREAM: u32 = 0x6a786c63;
// JPEG XL partial codestream box, `jxlp`.
pub const PARTIAL_CODESTREAM: u32 = 0x6a786c70;
// JPEG bitstream reconstruction data box, `jbrd`.
pub const JPEG_RECONSTRUCTION: u32 = 0x6a627264;
// HDR gain map box, `jhgm`.
pub const HDR_GAIN_MAP: u32 = 0x6a68676d;

// A box's type and how far its payload reaches.
#[derive(Clone, Copy, Debug, PartialEq, Eq)]
pub struct ContainerBoxHeader {
    pub ty: u32,
    pub box_size: BytesLeft,
}

// Result of reading a box header: the Rust's two cases, and the refusal, which the Rust has in a Result around them. Not a Result: a step
// has one arm for each of the three, and an enum inside a Result would be no plainer.
#[derive(Clone, Copy, Debug, PartialEq, Eq)]
pub enum HeaderParseResult {
    Done {
        header: ContainerBoxHeader,
        header_size: usize,
    },
    NeedMoreData,
    Refused(BoxRefusal),
}

// The 4 bytes at `at`, the first the highest. The three functions here that ask for bytes ask for other ones each: a type that holds them
// would be no plainer.
fn be32_there(s: &[u8], at: usize) -> u32
    requires { at + 4 ≤ length s.now }
    ensures { result ≡ be32 s.now at }
{
    u32::from_be_bytes([s[at], s[at + 1], s[at + 2], s[at + 3]])
}

// The byte `k` behind `at`; 0 if it is missing.
fn byte_behind(s: &[u8], at: usize, k: usize) -> u8
    ensures { result ≡ get_or s.now (at + k) 0 }
{
    let behind = s.get(at..).unwrap_or(&[]);
    behind.get(k).copied().unwrap_or(0)
}

// The 4 bytes at `at`, the first the highest; a missing one counts as 0.
pub fn be32_at(s: &[u8], at: usize) -> u32
    ensures { result ≡ be32 s.now at }
{
    let n = s.len();
    if 4 <= n && at <= n - 4 {
        be32_there(s, at)
    } else {
        u32::from_be_bytes([
            byte_behind(s, at, 0),
            byte_behind(s, at, 1),
            byte_behind(s, at, 2),
            byte_behind(s, at, 3),
        ])
    }
}

// The 8 bytes at `at`, the first the highest.
fn be64_at(s: &[u8], at: usize) -> u64
    requires { at + 8 ≤ length s.now }
    ensures { result ≡ be64 s.now at }
{
    u64::from(be32_there(s, at)) << 32 | u64::from(be32_there(s, at + 4))
}

// A header whose size is 1: a 64-bit size behind the type.
#[tactic(auto, unfolding(crate::specs::Header::extended))]
fn parse_extended(s: &[u8]) -> HeaderParseResult
    requires { 8 ≤ length s.now }
    ensures { told_header result ≡ numbered (extended s.now) }
{
    if s.len() < 16 {
        return HeaderParseResult::NeedMoreData;
    }
    let size = be64_at(s, 8);
    if size < 16 {
        return HeaderParseResult::Refused(BoxRefusal::ExtendedSize);
    }
    let ty = be32_there(s, 4);
    HeaderParseResult::Done {
        header: ContainerBoxHeader {
            ty,
            box_size: BytesLeft::Bytes(size - 16),
        },
        header_size: 16,
    }
}

// A header of 8 bytes whose payload reaches so far.
fn parsed(s: &[u8], box_size: BytesLeft) -> HeaderParseResult
    requires { 8 ≤ length s.now }
    ensures { told_header result ≡ reads (be32 s.now 4) box_size 8 }
{
    HeaderParseResult::Done {
        header: ContainerBoxHeader {
            ty: be32_there(s, 4),
            box_size,
        },
        header_size: 8,
    }
}

// The header at the front of `s`.
#[tactic(auto, unfolding(crate::specs::Header::header_of))]
pub fn parse_header(s: &[u8]) -> HeaderParseResult
    ensures { told_header result ≡ numbered (header_of s.now) }
{
    if s.len() < 8 {
        return HeaderParseResult::NeedMoreData;
    }
    match be32_there(s, 0) {
        0 => parsed(s, BytesLeft::ToEnd),
        1 => parse_extended(s),
        2..=7 => HeaderParseResult::Refused(BoxRefusal::ShortSize),
        size => parsed(s, BytesLeft::Bytes(u64::from(size - 8))),
    }
}
