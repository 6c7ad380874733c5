// The export that says which library this is.
ghost use Rattle.entry.specs.EntryContracts.{IsVersion};

#[unsafe(no_mangle)]
pub extern "C" fn pouch_version() -> u64
    ensures { IsVersion result }
{
    host::version::pouch_version()
}
