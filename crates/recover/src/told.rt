// What the system tells of the file that a path leads to: whether it is a regular one, its length, when it was written, and which file it is.
ghost use Rattle.std.specs.Prelude.{true, ◌≡◌};
ghost use Rattle.recover.specs.Files.{one_file};

use crate::files;
use std::fs;
use std::fs::Metadata;
use std::io::Result;
use std::os::unix::fs::MetadataExt;
use std::rt::Files;

// What a file is known by: its device, and its number there.
#[derive(Clone, Copy, PartialEq, Eq)]
pub struct Id {
    pub device: u64,
    pub inode: u64,
}

// When it was last written.
#[derive(Clone, Copy, PartialEq, Eq)]
pub struct Moment {
    pub seconds: i64,
    pub nanoseconds: i64,
}

#[derive(Clone, Copy)]
pub struct Told {
    pub regular: bool,
    pub len: usize,
    pub written: Moment,
    pub id: Id,
}

impl From<&Metadata> for Told {
    fn from(found: &Metadata) -> Told {
        Told {
            regular: found.is_file(),
            len: found.len() as usize,
            written: Moment {
                seconds: found.mtime(),
                nanoseconds: found.mtime_nsec(),
            },
            id: Id {
                device: found.dev(),
                inode: found.ino(),
            },
        }
    }
}

// Of a link, what it leads to. Nothing is opened, so a pipe is told as any other file.
pub fn ask(rt: &impl Files, path: &[u8]) -> Result<Told> {
    let found = fs::metadata(rt, files::text(path)?)?;
    Ok(Told::from(&found))
}

// Whether two are of one file.
#[tactic(auto, unfolding(crate::specs::Files::one_file))]
pub fn same(a: Told, b: Told) -> bool
    ensures { result ≡ one_file a b }
{
    a.id == b.id
}

// Whether it is the same file, as long as it was, and not written since. `==` of two Tolds would ask that `a` is a regular file too.
pub fn unchanged(a: Told, b: Told) -> bool
    ensures { result ≡ true → (one_file a b ≡ true) × ((b.regular ≡ true) × (a.len ≡ b.len)) }
{
    same(a, b) && b.regular && a.len == b.len && a.written == b.written
}

// Whether the path leads to that file still, as it was.
pub fn still(rt: &impl Files, told: Told, path: &[u8]) -> bool {
    ask(rt, path).is_ok_and(|now| unchanged(told, now))
}
