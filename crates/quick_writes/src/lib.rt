// Byte and word writes of an image and what is lent, with every refusal. Where the tests that are enough pass and no transfer starts, a byte is put at once
// (crate put_bytes); elsewhere the plain function does the whole call. What is lent stays a parameter each, as in
// `mmu::write_byte`; that it fits (`Taken`, `Own`) is a clause: C lends slices of any length, which the calls refuse.
#![tactic(auto)]

ghost use Rattle.std.specs.Prelude.{true, ◌≡◌, ◌/◌, ◌%◌, length};
ghost use Rattle.numbers.specs.Numbers.{done};
ghost use Rattle.numbers.specs.Refusal.{number_given};
ghost use Rattle.dispatch.specs.declared.Call.TheVariants.{WriteByte, WriteWord};
ghost use Rattle.entry.specs.Entry.{left, world_entry};
ghost use Rattle.image.specs.Layout.{image_len};
ghost use Rattle.image.specs.Load.{load_call};
ghost use Rattle.memory.specs.World.{fixed};
ghost use Rattle.mmu.specs.Write.{write_at, word_at};
ghost use Rattle.move_bytes.specs.Transfers.{Own};
ghost use Rattle.put_bytes.specs.Left.{world_of, left_by};
ghost use Rattle.put_bytes.specs.Puts.{Taken};
ghost use Rattle.refusals.specs.Refusal.{or_else, write_refused, next_index};
ghost use Rattle.quick_writes.specs.Writes.{quick, LogFits};

use numbers::Refusal;

pub mod transfers;

// Whether a write at an index is quick: it starts no transfer. Most are told by one test.
fn is_quick(index: u16) -> bool
    ensures { result ≡ quick index }
{
    if index < 0xFF46 {
        return true;
    }
    if index == 0xFF46 {
        return false;
    }
    if index == 0xFF55 {
        return false;
    }
    true
}

// Whether the sound window, the log and its use are right: with the image's own tests, enough that nothing but a log without room refuses a write.
fn log_fits(image: &[u8], sound: usize, log: usize) -> bool
    requires { length image.now ≡ image_len }
    ensures { result ≡ true → LogFits image.now sound log }
{
    if sound != memory::SOUND_LEN {
        return false;
    }
    if savelog::LOG_LIMIT < log {
        return false;
    }
    savelog::use_in_range(image::used_at(image), log)
}

// What refuses the image, the log's use, and the lengths of what is lent, which come one by one as in `take_bytes::lengths_taken`.
pub fn taken(
    image: &[u8],
    rom: usize,
    vram: usize,
    wram: usize,
    save: usize,
    sound: usize,
    log: usize,
) -> Result<(), Refusal>
    ensures { number_given result ≡ or_else (load_call image.now).number (write_refused (load_call image.now).state rom vram wram save sound log) }
{
    image::taken(image)?;
    refusals::use_refused(image::used_at(image), log)?;
    take_bytes::lengths_taken(image, rom, vram, wram, save, sound)?;
    refusals::log_refused(log)
}

// A write that nothing refuses, with the copying that it may start.
fn put_all(
    image: &mut [u8],
    rom: &[u8],
    vram: &mut [u8],
    wram: &mut [u8],
    save: &mut [u8],
    log: &mut [u8],
    sound: &[u8],
    index: u16,
    value: u8,
)
    requires { Taken image.old vram.old wram.old save.old log.old × Own (fixed rom.now sound.now) image.old vram.old wram.old save.old }
    ensures { left done 0 image.new vram.new wram.new save.new log.new ≡ left_by (write_at (fixed rom.now sound.now) 2 (world_of image.old vram.old wram.old save.old log.old) index value) }
{
    if is_quick(index) {
        put_bytes::put_byte(image, vram, wram, save, log, index, value);
        return;
    }
    move_bytes::start(image, rom, vram, wram, save, sound, index, value);
}

// Every image, and every refusal. It answers the number, and so does `plain_word`: as a Result a write that the state refuses takes three instructions more,
// one over its budget (refused_write_state).
fn plain_byte(
    image: &mut [u8],
    rom: &[u8],
    vram: &mut [u8],
    wram: &mut [u8],
    save: &mut [u8],
    log: &mut [u8],
    sound: &[u8],
    index: u16,
    value: u8,
) -> u8
    ensures { left result 0 image.new vram.new wram.new save.new log.new ≡ world_entry (fixed rom.now sound.now) image.old vram.old wram.old save.old log.old (WriteByte index value) }
{
    match taken(
        image,
        rom.len(),
        vram.len(),
        wram.len(),
        save.len(),
        sound.len(),
        log.len(),
    ) {
        Ok(()) => match refusals::byte_room(image::used_at(image), log.len(), index) {
            Ok(()) => {
                put_all(image, rom, vram, wram, save, log, sound, index, value);
                refusals::byte_owed(index).number()
            }
            Err(refusal) => refusal.number(),
        },
        Err(refusal) => refusal.number(),
    }
}

// As the plain entry, which decodes and encodes the whole image. Where the tests that are enough pass, only a log without room refuses.
// It answers the number: as a Result each write would take three instructions more.
pub fn write_byte(
    image: &mut [u8],
    rom: &[u8],
    vram: &mut [u8],
    wram: &mut [u8],
    save: &mut [u8],
    log: &mut [u8],
    sound: &[u8],
    index: u16,
    value: u8,
) -> u8
    ensures { left result 0 image.new vram.new wram.new save.new log.new ≡ world_entry (fixed rom.now sound.now) image.old vram.old wram.old save.old log.old (WriteByte index value) }
{
    if is_quick(index) {
        if image::mapper_surely_fits(image, rom.len(), save.len()) {
            if image::rest_surely_fits(image, vram.len(), wram.len()) {
                if log_fits(image, sound.len(), log.len()) {
                    return match refusals::byte_room(image::used_at(image), log.len(), index) {
                        Ok(()) => {
                            put_bytes::put_here(image, vram, wram, save, log, index, value);
                            refusals::byte_owed(index).number()
                        }
                        Err(refusal) => refusal.number(),
                    };
                }
            }
        }
    }
    plain_byte(image, rom, vram, wram, save, log, sound, index, value)
}

// Two writes, low byte first, with the copying that they may start.
fn put_word(
    image: &mut [u8],
    rom: &[u8],
    vram: &mut [u8],
    wram: &mut [u8],
    save: &mut [u8],
    log: &mut [u8],
    sound: &[u8],
    index: u16,
    value: u16,
)
    requires { Taken image.old vram.old wram.old save.old log.old × Own (fixed rom.now sound.now) image.old vram.old wram.old save.old }
    ensures { left done 0 image.new vram.new wram.new save.new log.new ≡ left_by (word_at (fixed rom.now sound.now) (world_of image.old vram.old wram.old save.old log.old) index value) }
{
    let [low, high] = value.to_le_bytes();
    let above = refusals::next_index(index);
    put_all(image, rom, vram, wram, save, log, sound, index, low);
    put_all(image, rom, vram, wram, save, log, sound, above, high);
}

fn plain_word(
    image: &mut [u8],
    rom: &[u8],
    vram: &mut [u8],
    wram: &mut [u8],
    save: &mut [u8],
    log: &mut [u8],
    sound: &[u8],
    index: u16,
    value: u16,
) -> u8
    ensures { left result 0 image.new vram.new wram.new save.new log.new ≡ world_entry (fixed rom.now sound.now) image.old vram.old wram.old save.old log.old (WriteWord index value) }
{
    match taken(
        image,
        rom.len(),
        vram.len(),
        wram.len(),
        save.len(),
        sound.len(),
        log.len(),
    ) {
        Ok(()) => match refusals::word_room(image::used_at(image), log.len(), index) {
            Ok(()) => {
                put_word(image, rom, vram, wram, save, log, sound, index, value);
                refusals::word_owed(index).number()
            }
            Err(refusal) => refusal.number(),
        },
        Err(refusal) => refusal.number(),
    }
}

// Whether both bytes of a word are quick.
fn both_quick(index: u16) -> bool
    ensures { result ≡ true → (quick index ≡ true) × (quick (next_index index) ≡ true) }
{
    if is_quick(index) {
        return is_quick(refusals::next_index(index));
    }
    false
}

// Low byte first; as the plain entry. It answers the number, as `write_byte` does.
pub fn write_word(
    image: &mut [u8],
    rom: &[u8],
    vram: &mut [u8],
    wram: &mut [u8],
    save: &mut [u8],
    log: &mut [u8],
    sound: &[u8],
    index: u16,
    value: u16,
) -> u8
    ensures { left result 0 image.new vram.new wram.new save.new log.new ≡ world_entry (fixed rom.now sound.now) image.old vram.old wram.old save.old log.old (WriteWord index value) }
{
    if both_quick(index) {
        if image::mapper_surely_fits(image, rom.len(), save.len()) {
            if image::rest_surely_fits(image, vram.len(), wram.len()) {
                if log_fits(image, sound.len(), log.len()) {
                    return match refusals::word_room(image::used_at(image), log.len(), index) {
                        Ok(()) => {
                            put_bytes::put_both(image, vram, wram, save, log, index, value);
                            refusals::word_owed(index).number()
                        }
                        Err(refusal) => refusal.number(),
                    };
                }
            }
        }
    }
    plain_word(image, rom, vram, wram, save, log, sound, index, value)
}
