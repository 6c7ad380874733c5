// What the command line asks for: which argument names which file, and the words among them.
use crate::files::PATH_MAX;
use std::env::FillError;
use std::rt::Env;

// A file is the number of the argument that names it.
#[derive(Clone, Copy)]
pub struct Asked {
    pub replace: bool,
    pub speak: bool,
    pub old: bool,
    pub bare: bool,
    pub save: usize,
    pub log: usize,
    pub new: Option<usize>,
}

// The command line is none that the program takes.
#[derive(Clone, Copy, Debug, PartialEq, Eq)]
pub struct Wrong;

// What an argument is.
#[derive(Clone, Copy, Debug, PartialEq, Eq)]
enum Word {
    Replace,
    Speak,
    Old,
    Bare,
    Name,
}

impl TryFrom<&[u8]> for Word {
    type Error = Wrong;

    fn try_from(text: &[u8]) -> Result<Self, Wrong> {
        match text {
            b"--replace" => Ok(Word::Replace),
            b"--speak" => Ok(Word::Speak),
            b"--old" => Ok(Word::Old),
            b"--bare" => Ok(Word::Bare),
            [b'-', b'-', ..] => Err(Wrong),
            _ => Ok(Word::Name),
        }
    }
}

// The word that argument i is; nothing, behind the last one. One that is longer than any path is wrong.
fn word_at(rt: &impl Env, i: usize) -> Result<Option<Word>, Wrong> {
    let mut text = io::buffer();
    match rt.arg(i, &mut text) {
        Ok(n) if n < PATH_MAX => Ok(Some(Word::try_from(&text[..n])?)),
        Ok(_) | Err(FillError::TooLong) => Err(Wrong),
        Err(FillError::NotPresent) => Ok(None),
    }
}

// The words so far: `Asked` with no name sure yet. A struct of the four flags for both would have as many lines as it saves.
#[derive(Clone, Copy, Default)]
struct Words {
    replace: bool,
    speak: bool,
    old: bool,
    bare: bool,
    save: Option<usize>,
    log: Option<usize>,
    new: Option<usize>,
}

impl Words {
    // Argument i names the first file that has no name yet.
    fn named(mut self, i: usize) -> Result<Self, Wrong> {
        if self.save.is_none() {
            self.save = Some(i);
        } else if self.log.is_none() {
            self.log = Some(i);
        } else if self.new.is_none() {
            self.new = Some(i);
        } else {
            return Err(Wrong);
        }
        Ok(self)
    }

    fn with(mut self, i: usize, word: Word) -> Result<Self, Wrong> {
        match word {
            Word::Replace => self.replace = true,
            Word::Speak => self.speak = true,
            Word::Old => self.old = true,
            Word::Bare => self.bare = true,
            Word::Name => return self.named(i),
        }
        Ok(self)
    }

    // Both files are needed, and a file to replace where that is allowed. A log is read in one way; `old` stays a flag, which the definition `form_of` takes.
    fn whole(self) -> Result<Asked, Wrong> {
        if self.old && self.bare || self.replace && self.new.is_none() {
            return Err(Wrong);
        }
        Ok(Asked {
            replace: self.replace,
            speak: self.speak,
            old: self.old,
            bare: self.bare,
            save: self.save.ok_or(Wrong)?,
            log: self.log.ok_or(Wrong)?,
            new: self.new,
        })
    }
}

pub fn given(rt: &impl Env) -> Result<Asked, Wrong> {
    let mut words = Words::default();
    for i in 1..usize::MAX {
        let Some(word) = word_at(rt, i)? else {
            break;
        };
        words = words.with(i, word)?;
    }
    words.whole()
}
