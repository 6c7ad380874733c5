// Entries for the converters of logs; they need no image.
ghost use Rattle.savelog.specs.declared.Form.TheVariants.{Three, Four};
ghost use Rattle.entry.specs.EntryContracts.{Converts};

use crate::answers::hand;

// A log of old records, of three bytes, to one of the present form; `value` is how many bytes of `log` it takes.
pub fn pouch_log_to_new(old: &[u8], log: &mut [u8], value: &mut u16) -> u8
    ensures { Converts Three Four old.now log.old result value.new log.new }
{
    hand(savelog::to_new(old, log), 0, value)
}

// And back.
pub fn pouch_log_to_old(log: &[u8], old: &mut [u8], value: &mut u16) -> u8
    ensures { Converts Four Three log.now old.old result value.new old.new }
{
    hand(savelog::to_old(log, old), 0, value)
}
