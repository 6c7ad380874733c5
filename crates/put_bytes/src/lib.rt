// A byte put into an image or what is lent beside it, by its region: a write that nothing refuses, without the copying that it may start. It takes of the
// image what it needs, and changes it in place. What is lent stays a parameter each, as in
// `mmu::write_byte`; that it fits (`Taken`) is a clause: C lends slices of any length, which the calls refuse.
#![tactic(auto)]

ghost use Rattle.std.specs.Prelude.{◌≡◌, ◌-◌, ◌/◌, ◌%◌, ◌<◌, ◌≤◌, length};
ghost use Rattle.numbers.specs.Numbers.{done};
ghost use Rattle.image.specs.Layout.{image_len, image_of};
ghost use Rattle.image.specs.Load.{load_call};
ghost use Rattle.image.specs.Patches.{Mapped, Slim, mapping_put};
ghost use Rattle.in_place.specs.Held.{Held};
ghost use Rattle.mbc.specs.Mbc.{ram_len, after};
ghost use Rattle.memory.specs.Region.{save_start, wram_start, oam_start, page_start};
ghost use Rattle.mmu.specs.Access.{put};
ghost use Rattle.refusals.specs.Refusal.{next_index};
ghost use Rattle.registers.specs.Page.{write_register};
ghost use Rattle.savelog.specs.Log.{log_limit};
ghost use Rattle.put_bytes.specs.Left.{left, world_of, left_by};
ghost use Rattle.put_bytes.specs.Puts.{Taken, core_in, own_put, Saved};

use memory::Region;

// The mapper's registers after a write.
pub fn put_mapper(image: &mut [u8], at: u16, value: u8)
    requires { Mapped image.old × Slim (after (core_in image.old).cartridge (core_in image.old).mapper at value) }
    ensures { image.new ≡ mapping_put image.old (after (core_in image.old).cartridge (core_in image.old).mapper at value) (core_in image.old).used }
{
    let cartridge = image::cartridge_at(image);
    let r = image::registers_at(image);
    image::put_registers(image, r.after(cartridge, at, value));
}

// A000..BFFF: the save, its log, the log's use, and the mapper where it does not keep its registers. A log without room records nothing, and nothing changes.
fn put_save(image: &mut [u8], save: &mut [u8], log: &mut [u8], at: u16, value: u8)
    requires { (Mapped image.old × Slim (after (core_in image.old).cartridge (core_in image.old).mapper at value)) × (((save_start ≤ at) × (at < wram_start)) × ((length save.old ≡ ram_len (core_in image.old).cartridge (core_in image.old).mapper) × (length log.old ≤ log_limit))) }
    ensures { Saved image.old save.old log.old at value image.new save.new log.new }
{
    let used = image::used_at(image);
    if savelog::full(log.len(), used, 1) {
        return;
    }
    let cartridge = image::cartridge_at(image);
    let mapper = image::mapper_at(image);
    let registers = image::registers_at(image);
    let stored = registers.answer(cartridge, at, value);
    let more = mmu::regions::store_answer(stored, used, save, log);
    if mapper.keeps(at) {
        image::put_used(image, more);
        return;
    }
    put_mapper(image, at, value);
    image::put_used(image, more);
}

// A byte of OAM.
fn put_own(image: &mut [u8], at: u16, value: u8)
    requires { (length image.old ≡ image_len) × (oam_start ≤ at) }
    ensures { image.new ≡ own_put image.old at value }
{
    image[(at - memory::OAM_START) as usize] = value;
}

// A register, on the image itself.
fn put_page(image: &mut [u8], at: u16, value: u8)
    requires { Held image.old × (page_start ≤ at) }
    ensures { image.new ≡ image_of (write_register (load_call image.old).state (at - page_start) value) }
{
    in_place::page::write(image, (at - memory::PAGE_START) as u8, value);
}

// A write that nothing refuses, without the copying that it may start.
pub fn put_byte(
    image: &mut [u8],
    vram: &mut [u8],
    wram: &mut [u8],
    save: &mut [u8],
    log: &mut [u8],
    index: u16,
    value: u8,
)
    requires { Taken image.old vram.old wram.old save.old log.old }
    ensures { left done 0 image.new vram.new wram.new save.new log.new ≡ left_by (put (world_of image.old vram.old wram.old save.old log.old) index value) }
{
    match memory::region_of(index) {
        Region::Rom => put_mapper(image, index, value),
        Region::Vram => {
            mmu::regions::write_cgb_lcd_ram(vram, image::banks_at(image).vram, index, value);
        }
        Region::Save => put_save(image, save, log, index, value),
        Region::Wram => {
            mmu::regions::write_cgb_wram(wram, image::banks_at(image).wram, index, value);
        }
        Region::Oam => put_own(image, index, value),
        Region::Page => put_page(image, index, value),
    }
}

// Called from one place, so that what `put_byte` is given is stored there, and not by every write.
fn put_apart(
    image: &mut [u8],
    vram: &mut [u8],
    wram: &mut [u8],
    save: &mut [u8],
    log: &mut [u8],
    index: u16,
    value: u8,
)
    requires { Taken image.old vram.old wram.old save.old log.old }
    ensures { left done 0 image.new vram.new wram.new save.new log.new ≡ left_by (put (world_of image.old vram.old wram.old save.old log.old) index value) }
{
    put_byte(image, vram, wram, save, log, index, value);
}

// As `put_byte`, and small enough to be put in place where it is called: a byte of video or work memory or of OAM, or for the mapper, goes there at once.
// Both stay: tried, `put_byte` here takes 8 to 15 instructions more for each of these, over the budgets of these writes, and `put_here` in place of
// `put_byte` 28 to 32 more for a register or a save byte.
pub fn put_here(
    image: &mut [u8],
    vram: &mut [u8],
    wram: &mut [u8],
    save: &mut [u8],
    log: &mut [u8],
    index: u16,
    value: u8,
)
    requires { Taken image.old vram.old wram.old save.old log.old }
    ensures { left done 0 image.new vram.new wram.new save.new log.new ≡ left_by (put (world_of image.old vram.old wram.old save.old log.old) index value) }
{
    match memory::region_of(index) {
        Region::Vram => {
            mmu::regions::write_cgb_lcd_ram(vram, image::banks_at(image).vram, index, value);
        }
        Region::Wram => {
            mmu::regions::write_cgb_wram(wram, image::banks_at(image).wram, index, value);
        }
        Region::Oam => put_own(image, index, value),
        Region::Rom => put_mapper(image, index, value),
        _ => put_apart(image, vram, wram, save, log, index, value),
    }
}

// Two writes, low byte first.
pub fn put_both(
    image: &mut [u8],
    vram: &mut [u8],
    wram: &mut [u8],
    save: &mut [u8],
    log: &mut [u8],
    index: u16,
    value: u16,
)
    requires { Taken image.old vram.old wram.old save.old log.old }
    ensures { left done 0 image.new vram.new wram.new save.new log.new ≡ left_by (put (put (world_of image.old vram.old wram.old save.old log.old) index (value % 256)) (next_index index) (value / 256)) }
{
    let [low, high] = value.to_le_bytes();
    let above = refusals::next_index(index);
    put_here(image, vram, wram, save, log, index, low);
    put_here(image, vram, wram, save, log, above, high);
}
