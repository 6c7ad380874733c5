// The mark that a journal begins with since version 3, before its records.
ghost use Rattle.std.specs.Prelude.{◌≡◌};
ghost use Rattle.recover_messages.specs.Mark.{mark_of};

// Its length.
pub const MARK_LEN: usize = 4;

// Some of it, and zeros.
const TORN: [[u8; MARK_LEN]; 4] = [*b"PL4\0", *b"PL\0\0", *b"P\0\0\0", *b"\0\0\0\0"];

// What a file begins with: the mark; some of it, and zeros; anything else.
#[derive(Clone, Copy, Debug, PartialEq, Eq)]
pub enum Mark {
    Whole,
    Torn,
    Missing,
}

// Of a file's first bytes, with zeros where it has fewer. Tests by `==`: a `match` over patterns of bytes leaves a proof no fact to cite.
impl From<[u8; MARK_LEN]> for Mark {
    ghost from_gives = { λ first mark. mark ≡ mark_of first };

    fn from(first: [u8; MARK_LEN]) -> Mark {
        if first == *b"PL4\n" {
            Mark::Whole
        } else if TORN.contains(&first) {
            Mark::Torn
        } else {
            Mark::Missing
        }
    }
}
