// One line of a list, taken apart.
use crate::letter::Letter;
use lines::line::parse;

// `given` and `answer` have room for the longest, so that a line needs no heap: what a letter takes and gives is its shape.
#[derive(Clone, Copy)]
pub struct Line {
    pub letter: Letter,
    pub given: [u8; 54],
    pub answer: [u8; 12],
}

// None where the line is of no form that a list has.
pub fn of(s: &[u8]) -> Option<Line> {
    let letter = Letter::try_from(*s.first()?).ok()?;
    let mut given = [0; 54];
    let mut answer = [0; 12];
    if !parse(s, letter.shape(), &mut given, &mut answer) {
        return None;
    }
    Some(Line {
        letter,
        given,
        answer,
    })
}
