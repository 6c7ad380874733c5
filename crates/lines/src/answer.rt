// What our calls answer to a line's input, in bytes as a line has them.
ghost use Rattle.std.specs.Prelude.{◌≡◌, ◌-◌, ◌≤◌, ◌++◌, length, replicate};
ghost use Rattle.lines.specs.Answer.{Says, Agrees, ours_of};

use numbers::Refusal;

// `Err` where a call refuses the input, and where that is not one of ours.
pub type Ours = Result<[u8; 12], Refusal>;

// An answer's bytes, with zeros behind them.
pub fn padded(bytes: &[u8]) -> [u8; 12]
    requires { length bytes.now ≤ 12 }
    ensures { result ≡ bytes.now ++ replicate (12 - length bytes.now) 0 }
{
    let mut all = [0; 12];
    all[..bytes.len()].copy_from_slice(bytes);
    all
}

// The answer has room for the longest, and n says how many bytes count: `Agrees` speaks of the first n of both.
// Whether every call took its input and the first n bytes are the Rust's. Why one did not take it does not matter.
pub fn same<E: Drop>(ours: Result<[u8; 12], E>, answer: [u8; 12], n: usize) -> bool
    requires { n ≤ 12 }
    ensures { Says result (Agrees (ours_of ours) answer n) }
{
    let Ok(bytes) = ours else {
        return false;
    };
    bytes[..n] == answer[..n]
}
