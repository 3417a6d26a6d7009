// Answers of a field without the position, as the Rust's crate has them, and the position beside them.
#![tactic(auto)]

ghost use Rattle.std.specs.Prelude.{◌≡◌};
ghost use Rattle.jxl_bit_rules.specs.Told.{told, told_moved};
ghost use Rattle.jxl_results.specs.Results.{result_at};

use jxl_bit_rules::{FieldRefusal, Moved, Read};

pub type BitstreamResult<T> = Result<T, FieldRefusal>;

// The result of a read, and the position after it.
pub fn split<T>(answer: Read<T>) -> (BitstreamResult<T>, usize)
    ensures { result_at result.0 result.1 ≡ told answer }
{
    match answer {
        Ok((value, at)) => (Ok(value), at),
        Err(refused) => (Err(refused.refusal), refused.at),
    }
}

// The result of a move, and the position after it. Beside `split`: as a `Read<()>` a move would carry a unit to every caller.
pub fn split_move(answer: Moved) -> (BitstreamResult<()>, usize)
    ensures { result_at result.0 result.1 ≡ told_moved answer }
{
    match answer {
        Ok(at) => (Ok(()), at),
        Err(stopped) => (Err(stopped.refusal), stopped.at),
    }
}
