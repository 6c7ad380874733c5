// The page's bytes, FF00..FFFF, raw. An index below is refused by 7, after the image.
ghost use Rattle.std.specs.Prelude.{◌≡◌};
ghost use Rattle.dispatch.specs.declared.StateCall.TheVariants.{Load, Store};
ghost use Rattle.entry.specs.Entry.{changed, state_entry, given_of, ask_entry};
ghost use Rattle.numbers.specs.Refusal.{number_given};

use numbers::Refusal;

pub fn load(image: &[u8], index: u16) -> Result<u8, Refusal>
    ensures { given_of result ≡ ask_entry image.now (Load index) }
{
    image::taken(image)?;
    refusals::raw_refused(index)?;
    Ok(in_place::load(image, (index % 256) as u8))
}

pub fn store(image: &mut [u8], index: u16, value: u8) -> Result<(), Refusal>
    ensures { changed (number_given result) image.new ≡ state_entry image.old (Store index value) }
{
    image::taken(image)?;
    refusals::raw_refused(index)?;
    in_place::store(image, (index % 256) as u8, value);
    Ok(())
}
