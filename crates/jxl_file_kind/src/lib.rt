// The kind of a file by its first bytes: the signature, read by one step of a new parser.
#![tactic(auto)]

ghost use Rattle.std.specs.Prelude.{◌≡◌};
ghost use Rattle.jxl_headers.specs.Bytes.{starts};
ghost use Rattle.jxl_signatures.specs.Signature.{container_sig};
ghost use Rattle.jxl_file_kind.specs.FileKind.{kind_of_file};

use jxl_container::{BitstreamKind, ContainerParser};

// The kind of a file by its first bytes: unknown where they are too few to tell. The parser lent here is this function's own.
pub fn kind_of_file(input: &[u8]) -> BitstreamKind
    ensures { result ≡ kind_of_file input.now }
{
    let mut parser = ContainerParser::new();
    jxl_feed::feed_bytes(&mut parser, input);
    parser.kind()
}

// Whether a file starts with a container's signature.
#[tactic(auto, using(crate::proofs::FirstStep::told_container, crate::proofs::FirstStep::told_bare, crate::proofs::FirstStep::told_invalid, crate::proofs::FirstStep::told_unknown))]
pub fn is_container(input: &[u8]) -> bool
    ensures { result ≡ starts container_sig input.now }
{
    kind_of_file(input) == BitstreamKind::Container
}
