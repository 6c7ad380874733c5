// Calls that need no more than a field: HDMA's flag, the log's use and its clearing.
ghost use Rattle.std.specs.Prelude.{◌≡◌};
ghost use Rattle.dispatch.specs.declared.StateCall.TheVariants.{IsHdmaEnabled, ClearLog};
ghost use Rattle.entry.specs.Entry.{changed, state_entry, given_of, flag_given_of, ask_entry, used_entry};
ghost use Rattle.entry.specs.Host.{use_entry};
ghost use Rattle.numbers.specs.Refusal.{number_given};

use crate::taken_here;
use numbers::Refusal;

pub fn is_hdma_enabled(image: &[u8]) -> Result<bool, Refusal>
    ensures { flag_given_of result ≡ ask_entry image.now IsHdmaEnabled }
{
    taken_here(image)?;
    Ok(image::hdma_at(image).on)
}

// Bytes of the log that are used.
pub fn log_used(image: &[u8]) -> Result<u16, Refusal>
    ensures { given_of result ≡ used_entry image.now }
{
    image::taken(image)?;
    Ok(image::used_at(image))
}

// The log's use set, to whole records within the longest log.
pub fn set_log_used(image: &mut [u8], used: u16) -> Result<(), Refusal>
    ensures { changed (number_given result) image.new ≡ use_entry image.old used }
{
    image::taken(image)?;
    if !savelog::use_in_range(used, savelog::LOG_LIMIT) {
        return Err(Refusal::OutOfRange);
    }
    image::put_used(image, used);
    Ok(())
}

// The host has copied the log's used bytes off.
pub fn clear_log(image: &mut [u8]) -> Result<(), Refusal>
    ensures { changed (number_given result) image.new ≡ state_entry image.old ClearLog }
{
    set_log_used(image, savelog::clear())
}
