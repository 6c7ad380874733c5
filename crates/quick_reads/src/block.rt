// A block of bytes read: one check for all of them, then each as `byte_at` gives it.
ghost use Rattle.std.specs.Prelude.{◌≡◌, ℕ, ◌+◌, ◌%◌, [], length};
ghost use Rattle.numbers.specs.Numbers.{done};
ghost use Rattle.entry.specs.Host.{list_of, block_entry};
ghost use Rattle.image.specs.Load.{load_call, stored};
ghost use Rattle.memory.specs.World.{world, fixed};
ghost use Rattle.mmu.specs.Access.{Ready, read_byte};
ghost use Rattle.numbers.specs.Refusal.{number_given};
ghost use Rattle.refusals.specs.Refusal.{or_else, read_refused};

use numbers::Refusal;

// The longest block: all there is to read.
pub const BLOCK_LIMIT: usize = 65536;

// FFFF is followed by 0000: `at` wraps there, so it goes on beside the place.
fn fill(
    image: &[u8],
    rom: &[u8],
    vram: &[u8],
    wram: &[u8],
    save: &[u8],
    sound: &[u8],
    index: u16,
    out: &mut [u8],
)
    requires { ((load_call image.now).number ≡ done) × Ready (fixed rom.now sound.now) (world (load_call image.now).state vram.now wram.now save.now []) }
    ensures { out.new ≡ list_of (λ (k : ℕ). read_byte (fixed rom.now sound.now) (load_call image.now).state vram.now wram.now save.now ((index + k) % 65536)) (length out.old) }
{
    let mut at = index;
    for place in out.iter_mut() {
        *place = take_bytes::byte_at(image, rom, vram, wram, save, sound, at);
        at = at.wrapping_add(1);
    }
}

// As `take_bytes::taken`, with the image's tests in place: a block of no bytes keeps its budget so (bench/budgets.txt). An image whose mapper
// `image::mapper_taken` does not know at once, as RomOnly, is asked for the rest a second time.
fn taken_here(
    image: &[u8],
    rom: usize,
    vram: usize,
    wram: usize,
    save: usize,
    sound: usize,
) -> Result<(), Refusal>
    ensures { number_given result ≡ or_else (load_call image.now).number (read_refused (load_call image.now).state rom vram wram save sound) }
{
    image::mapper_taken(image)?;
    image::rest_taken(image)?;
    take_bytes::lengths_taken(image, rom, vram, wram, save, sound)
}

// From `index` on, as many bytes as `out` has. Refused as a read is, then by 4 if `out` is too long; it stays as it is then.
pub fn read_block(
    image: &[u8],
    rom: &[u8],
    vram: &[u8],
    wram: &[u8],
    save: &[u8],
    sound: &[u8],
    index: u16,
    out: &mut [u8],
) -> Result<(), Refusal>
    ensures { stored (number_given result) out.new ≡ block_entry (fixed rom.now sound.now) image.now vram.now wram.now save.now out.old index }
{
    taken_here(
        image,
        rom.len(),
        vram.len(),
        wram.len(),
        save.len(),
        sound.len(),
    )?;
    if BLOCK_LIMIT < out.len() {
        return Err(Refusal::WrongLength);
    }
    fill(image, rom, vram, wram, save, sound, index, out);
    Ok(())
}
