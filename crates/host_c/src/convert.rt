// The exports that turn a log of one form into the other.
ghost use Rattle.savelog.specs.declared.Form.TheVariants.{Three, Four};
ghost use Rattle.entry.specs.EntryContracts.{Converts};

#[unsafe(no_mangle)]
pub extern "C" fn pouch_log_to_new(old: &[u8], log: &mut [u8], value: &mut u16) -> u8
    ensures { Converts Three Four old.now log.old result value.new log.new }
{
    host::convert::pouch_log_to_new(old, log, value)
}

#[unsafe(no_mangle)]
pub extern "C" fn pouch_log_to_old(log: &[u8], old: &mut [u8], value: &mut u16) -> u8
    ensures { Converts Four Three log.now old.old result value.new old.new }
{
    host::convert::pouch_log_to_old(log, old, value)
}
