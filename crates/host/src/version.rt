// What this library is, as one number, for a host that was compiled against another.
ghost use Rattle.entry.specs.EntryContracts.{IsVersion};

const MAJOR: u64 = 3;

const MINOR: u64 = 0;

const PATCH: u64 = 0;

pub fn pouch_version() -> u64
    ensures { IsVersion result }
{
    let version = MAJOR * 0x1_0000 + MINOR * 0x100 + PATCH;
    let lengths = image::LENGTH as u64 * 0x100 + savelog::RECORD_LEN as u64;
    version * 0x1_0000_0000 + lengths
}
