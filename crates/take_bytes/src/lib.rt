// A byte of an image and what is lent beside it. Of the state only what says where the byte is, is decoded; a byte of OAM or of the page is taken from the
// image itself. What is lent stays a parameter each, as in `mmu::write_byte`; that it fits
// (`Ready`) is a clause: C lends slices of any length, which the calls refuse.
#![tactic(auto, using(image::proofs::OpenLaws::load_length))]

ghost use Rattle.std.specs.Prelude.{List, [], ◌≡◌, ℕ, ◌≤◌, length};
ghost use Rattle.numbers.specs.Numbers.{done};
ghost use Rattle.numbers.specs.Refusal.{number_given};
ghost use Rattle.image.specs.Load.{load_call};
ghost use Rattle.memory.specs.Ranges.{sound_len};
ghost use Rattle.memory.specs.Region.{oam_start, region_of};
ghost use Rattle.memory.specs.World.{world, fixed};
ghost use Rattle.mmu.specs.Access.{Ready, read_byte};
ghost use Rattle.refusals.specs.Refusal.{or_else, lengths_refused, read_refused};
ghost use Rattle.take_bytes.specs.Bytes.{Lent, Others, Reached, Near};

use memory::Region;
use numbers::Refusal;
use refusals::Lengths;
use registers::page::Part;

// The lengths of what is lent, beside an image that is taken. They come one by one: as one value they go through memory, and some calls would miss their
// budgets.
pub fn lengths_taken(
    image: &[u8],
    rom: usize,
    vram: usize,
    wram: usize,
    save: usize,
    sound: usize,
) -> Result<(), Refusal>
    requires { (load_call image.now).number ≡ done }
    ensures { number_given result ≡ lengths_refused (load_call image.now).state.core rom vram wram save sound }
{
    let lens = Lengths {
        rom,
        vram,
        wram,
        save,
        sound,
    };
    let colour = image::banks_at(image).colour;
    if refusals::lengths_are(
        colour,
        image::cartridge_at(image),
        image::mapper_at(image),
        lens,
    ) {
        Ok(())
    } else {
        Err(Refusal::WrongLength)
    }
}

// What refuses the image, then what refuses the lengths, which come one by one as `lengths_taken` has them.
pub fn taken(
    image: &[u8],
    rom: usize,
    vram: usize,
    wram: usize,
    save: usize,
    sound: usize,
) -> Result<(), Refusal>
    ensures { number_given result ≡ or_else (load_call image.now).number (read_refused (load_call image.now).state rom vram wram save sound) }
{
    image::taken(image)?;
    lengths_taken(image, rom, vram, wram, save, sound)
}

// A byte of the save, through the mapper, or of OAM or page: these are the first 512 bytes of an image, so FE00 is its first. Apart from `lent_at`, which
// stays small enough to be put in place where it is called.
pub fn other_at(image: &[u8], save: &[u8], sound: &[u8], index: u16) -> u8
    requires { Lent image.now save.now sound.now × (Others (region_of index)) }
    ensures { (rom v w : List ℕ) → result ≡ read_byte (fixed rom sound.now) (load_call image.now).state v w save.now index }
{
    match memory::region_of(index) {
        Region::Oam => image[(index - memory::OAM_START) as usize],
        Region::Page => {
            let byte = image[(index - memory::OAM_START) as usize];
            if memory::HRAM_START <= index {
                return byte;
            }
            let joypad = image::joypad_at(image);
            registers::page::shown(
                byte,
                image::banks_at(image).colour,
                registers::page::read_line(image::lcd_at(image)),
                joypad.state,
                sound,
                (index - memory::PAGE_START) as u8,
            )
        }
        _ => {
            let registers = image::registers_at(image);
            registers.read_ram(image::cartridge_at(image), save, index)
        }
    }
}

// Called from one place, so that what `other_at` is given is stored there, and not by every read.
pub fn apart_at(image: &[u8], save: &[u8], sound: &[u8], index: u16) -> u8
    requires { Lent image.now save.now sound.now × (Others (region_of index)) }
    ensures { (rom v w : List ℕ) → result ≡ read_byte (fixed rom sound.now) (load_call image.now).state v w save.now index }
{
    other_at(image, save, sound, index)
}

// A byte of OAM or of the page, as `other_at` gives it: of the image only what the byte's part asks for. Called from one place, where the compiler puts it.
pub fn own_at(image: &[u8], sound: &[u8], index: u16) -> u8
    requires { (((load_call image.now).number ≡ done) × (sound_len ≤ length sound.now)) × (oam_start ≤ index) }
    ensures { (rom v w s : List ℕ) → result ≡ read_byte (fixed rom sound.now) (load_call image.now).state v w s index }
{
    let byte = image[(index - memory::OAM_START) as usize];
    if index < memory::PAGE_START {
        return byte;
    }
    let at = (index - memory::PAGE_START) as u8;
    match registers::page::part_of(at) {
        Part::Low => registers::page::shown_low(byte, image::joypad_at(image).state, at),
        Part::Sound => registers::page::shown_sound(sound, at),
        Part::Line => registers::page::read_line(image::lcd_at(image)),
        Part::Screen => registers::page::shown_screen(byte, at),
        Part::Colour => registers::page::shown_colour(byte, image::banks_at(image).colour, at),
    }
}

// A byte of ROM, video or work memory.
pub fn lent_at(image: &[u8], rom: &[u8], vram: &[u8], wram: &[u8], index: u16) -> u8
    requires { Reached image.now rom.now vram.now wram.now × (Near (region_of index)) }
    ensures { (s sound : List ℕ) → result ≡ read_byte (fixed rom.now sound) (load_call image.now).state vram.now wram.now s index }
{
    match memory::region_of(index) {
        Region::Rom => rom[mbc::rom_place(image::registers_at(image).rom, index)],
        Region::Vram => mmu::regions::read_cgb_lcd_ram(vram, image::banks_at(image).vram, index),
        _ => mmu::regions::read_cgb_wram(wram, image::banks_at(image).wram, index),
    }
}

pub fn byte_at(
    image: &[u8],
    rom: &[u8],
    vram: &[u8],
    wram: &[u8],
    save: &[u8],
    sound: &[u8],
    index: u16,
) -> u8
    requires { ((load_call image.now).number ≡ done) × Ready (fixed rom.now sound.now) (world (load_call image.now).state vram.now wram.now save.now []) }
    ensures { result ≡ read_byte (fixed rom.now sound.now) (load_call image.now).state vram.now wram.now save.now index }
{
    match memory::region_of(index) {
        Region::Save | Region::Oam | Region::Page => other_at(image, save, sound, index),
        _ => lent_at(image, rom, vram, wram, index),
    }
}

// As `byte_at`, for who reads one byte: called from one place, where the compiler puts it. First what a game reads most.
// Both stay: tried, a read of one byte by `byte_at` takes 16 instructions more of OAM and 15 to 21 of FF00, FF44 and FF69, over the budgets of these reads.
pub fn one_at(
    image: &[u8],
    rom: &[u8],
    vram: &[u8],
    wram: &[u8],
    save: &[u8],
    sound: &[u8],
    index: u16,
) -> u8
    requires { ((load_call image.now).number ≡ done) × Ready (fixed rom.now sound.now) (world (load_call image.now).state vram.now wram.now save.now []) }
    ensures { result ≡ read_byte (fixed rom.now sound.now) (load_call image.now).state vram.now wram.now save.now index }
{
    if index < memory::VRAM_START {
        return lent_at(image, rom, vram, wram, index);
    }
    if memory::OAM_START <= index {
        return own_at(image, sound, index);
    }
    match memory::region_of(index) {
        Region::Rom | Region::Vram | Region::Wram => lent_at(image, rom, vram, wram, index),
        _ => apart_at(image, save, sound, index),
    }
}
