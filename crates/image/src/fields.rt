// The fields behind the colours, group by group, read and put where src/layout.rt says; a caller who needs one group takes that alone.
// specs/Layout.antt has each group's fields, as they are read and as they are put.
// That an image has LENGTH bytes is a clause of each function and no type: C lends a slice of any length, which `taken` refuses by 4, so with an array's type
// each of some forty calls would take the array out of the slice once more (`as_mut_array`), with an arm for a length that is refused already.
ghost use Rattle.std.specs.Prelude.{true, ◌≡◌, ◌^◌, ◌<◌, ◌&&◌, eqb, length};
ghost use Rattle.std.specs.Int.{w32};
ghost use Rattle.std.proofs.Common.{of_z, to_z};
ghost use Rattle.packing.specs.Packing.{Fit};
ghost use Rattle.savelog.specs.Log.{log_limit, use_in_range};
ghost use Rattle.places.specs.Places.{field_at, put_at, Within};
ghost use Rattle.mbc.specs.Mbc.{mapper_of, registers_of};
ghost use Rattle.mbc.specs.declared.mbc.Mapper.{Mapper};
ghost use Rattle.image.specs.Layout.{image_len, field_widths, field_values, used_field, zeros_field};
ghost use Rattle.image.specs.Load.{banks_of, lcd_of, hdma_of, joypad_of, clock_of, cartridge_of, registers_in, core_from, at};
ghost use Rattle.image.specs.Patches.{fields, head_fits, mapper_fits, tail_fits, rest_fits, Mapped, mapping_bits, mapping_number, MapperFits, MachineFits, SameRange, RestFits, put, Fits, banks_fields, lines_fields, lcd_fields, hdma_fields, joypad_fields, clock_fields, cartridge_fields, numbers_fields, registers_fields, Slim, used_put, mapping_put, clock_put, groups_fields, core_fields};

use crate::{enough, layout};
use hdma::Hdma;
use joypad::Controller;
use lcd::Lcd;
use mbc::{Cartridge, Mapper, Registers};
use memory::{Banks, Clock, Core};

pub fn banks_at(image: &[u8]) -> Banks
    requires { length image.now ≡ image_len }
    ensures { result ≡ banks_of (fields image.now) }
{
    Banks {
        colour: places::flag_at(image, layout::COLOUR_AT),
        vram: places::field_at::<2>(image, layout::VRAM_AT, 1) as u8,
        wram: places::field_at::<2>(image, layout::WRAM_AT, 3) as u8,
    }
}

// A number of 32 bits as its two's complement.
fn signed_at(image: &[u8], bit: usize) -> i32
    requires { Within 64 image.now bit 32 }
    ensures { result ≡ to_z w32 (field_at image.now bit 32) }
{
    (places::field_at::<8>(image, bit, 32) as u32).cast_signed()
}

pub fn lcd_at(image: &[u8]) -> Lcd
    requires { length image.now ≡ image_len }
    ensures { result ≡ lcd_of (fields image.now) }
{
    Lcd {
        disabled: places::flag_at(image, layout::DISABLED_AT),
        line: places::field_at::<2>(image, layout::LINE_AT, 8) as u8,
        signal: places::field_at::<2>(image, layout::SIGNAL_AT, 8) as u8,
        mode: places::field_at::<2>(image, layout::MODE_AT, 8) as u8,
        delay: signed_at(image, layout::DELAY_AT),
        counter: signed_at(image, layout::COUNTER_AT),
        aux: signed_at(image, layout::AUX_AT),
        window: signed_at(image, layout::WINDOW_AT),
    }
}

pub fn hdma_at(image: &[u8]) -> Hdma
    requires { length image.now ≡ image_len }
    ensures { result ≡ hdma_of (fields image.now) }
{
    Hdma {
        on: places::flag_at(image, layout::ON_AT),
        source: places::field_at::<8>(image, layout::SOURCE_AT, 16) as u16,
        destination: places::field_at::<8>(image, layout::DESTINATION_AT, 16) as u16,
    }
}

// HDMA's range asks for the low four bits of its addresses alone. They are taken from eight bytes that no timer update stores to: a load of bytes that
// were just stored one by one has to wait for them.
fn steps_at(image: &[u8]) -> Hdma
    requires { length image.now ≡ image_len }
    ensures { SameRange result (hdma_of (fields image.now)) }
{
    let n = places::field_at::<8>(image, layout::SOURCE_AT + 12, 56);
    Hdma {
        on: places::flag_at(image, layout::ON_AT),
        source: (n / 0x10_0000_0000_0000) as u16,
        destination: (n / 0x10_0000_0000 % 65536) as u16,
    }
}

pub fn joypad_at(image: &[u8]) -> Controller
    requires { length image.now ≡ image_len }
    ensures { result ≡ joypad_of (fields image.now) }
{
    Controller {
        released: places::field_at::<2>(image, layout::RELEASED_AT, 8) as u8,
        action: places::flag_at(image, layout::ACTION_AT),
        direction: places::flag_at(image, layout::DIRECTION_AT),
        state: places::field_at::<2>(image, layout::STATE_AT, 8) as u8,
    }
}

pub fn clock_at(image: &[u8]) -> Clock
    requires { length image.now ≡ image_len }
    ensures { result ≡ clock_of (fields image.now) }
{
    Clock {
        div: places::field_at::<2>(image, layout::DIV_AT, 8) as u8,
        tima: places::field_at::<2>(image, layout::TIMA_AT, 10) as u16,
    }
}

// All that there is of a mapper, as one number: one load, of which the compiler takes what is asked for.
fn mapping_at(image: &[u8]) -> u32
    requires { length image.now ≡ image_len }
    ensures { (result ≡ mapping_number image.now) × (result < 2 ^ mapping_bits) }
{
    places::field_at::<8>(image, layout::KIND_AT, layout::MAPPING) as u32
}

pub fn cartridge_at(image: &[u8]) -> Cartridge
    requires { length image.now ≡ image_len }
    ensures { result ≡ cartridge_of (fields image.now) }
{
    let n = mapping_at(image);
    Cartridge {
        banks: Cartridge::banks_of((n / layout::LOG_UNIT % layout::LOG_SIZE) as u8),
        code: (n / layout::CODE_UNIT % layout::CODE_SIZE) as u8,
    }
}

pub fn registers_at(image: &[u8]) -> Registers
    requires { length image.now ≡ image_len }
    ensures { result ≡ registers_in (fields image.now) }
{
    let n = mapping_at(image);
    Registers {
        kind: (n / layout::KIND_UNIT) as u8,
        rom: (n / layout::ROM_UNIT % layout::ROM_SIZE) as u16,
        ram: (n / layout::RAM_UNIT % layout::RAM_SIZE) as u8,
        mode: (n / layout::BANKING_UNIT % 2) as u8,
        enabled: (n / layout::ENABLED_UNIT % 2) as u8,
        high: (n % layout::HIGH_SIZE) as u8,
    }
}

pub fn mapper_at(image: &[u8]) -> Mapper
    requires { length image.now ≡ image_len }
    ensures { result ≡ mapper_of (registers_in (fields image.now)) }
{
    Mapper::from(registers_at(image))
}

pub fn used_at(image: &[u8]) -> u16
    requires { length image.now ≡ image_len }
    ensures { result ≡ at (fields image.now) used_field }
{
    places::field_at::<8>(image, layout::USED_AT, layout::USED) as u16
}

// All of the state but its arrays.
pub fn core_at(image: &[u8]) -> Core
    requires { length image.now ≡ image_len }
    ensures { result ≡ core_from (fields image.now) }
{
    let banks = banks_at(image);
    let lcd = lcd_at(image);
    let hdma = hdma_at(image);
    let joypad = joypad_at(image);
    let clock = clock_at(image);
    let cartridge = cartridge_at(image);
    let mapper = mapper_at(image);
    Core {
        banks,
        lcd,
        hdma,
        joypad,
        clock,
        cartridge,
        mapper,
        used: used_at(image),
    }
}

// Whether the fields before the mapper are in range. The timer's remainders are: they are as wide as their ranges.
pub fn head_fits(image: &[u8]) -> bool
    requires { length image.now ≡ image_len }
    ensures { result ≡ head_fits (fields image.now) }
{
    let banks = banks_at(image);
    memory::banks_in_range(banks) && memory::hdma_in_range(hdma_at(image), banks.colour)
}

// Whether a mapper has the registers, and is in range.
fn mapper_fits(image: &[u8]) -> bool
    requires { length image.now ≡ image_len }
    ensures { result ≡ mapper_fits (fields image.now) }
{
    let n = mapping_at(image);
    enough::common_save(n).is_some()
        || enough::small_fits(n)
        || registers_at(image).fit(cartridge_at(image))
}

// Tests that are enough for a load, and for the lengths of what is lent beside the image: small, so that the compiler puts them in place where they are
// called. Who fails one is no worse off than before it.

pub fn mapper_surely_fits(image: &[u8], rom: usize, save: usize) -> bool
    ensures { result ≡ true → MapperFits image.now rom save }
{
    if image.len() != layout::LENGTH {
        return false;
    }
    let n = mapping_at(image);
    let Some(its) = enough::common_save(n) else {
        return false;
    };
    let banks: usize = 1 << (n / layout::LOG_UNIT % 8);
    rom == banks * 0x4000 && save == its
}

fn machine_surely_fits(banks: Banks, hdma: Hdma, vram: usize, wram: usize) -> bool
    ensures { result ≡ true → MachineFits banks hdma vram wram }
{
    if banks.colour {
        if !memory::banks_in_range(banks) {
            return false;
        }
        if !memory::hdma_in_range(hdma, true) {
            return false;
        }
        if wram != memory::wram_len(true) {
            return false;
        }
        return vram == memory::vram_len(true);
    }
    if !memory::banks_in_range(banks) {
        return false;
    }
    if !memory::hdma_in_range(hdma, false) {
        return false;
    }
    if wram != memory::wram_len(false) {
        return false;
    }
    vram == memory::vram_len(false)
}

pub fn rest_surely_fits(image: &[u8], vram: usize, wram: usize) -> bool
    requires { length image.now ≡ image_len }
    ensures { result ≡ true → RestFits image.now vram wram }
{
    if !end_fits(image) {
        return false;
    }
    let banks = banks_at(image);
    let hdma = steps_at(image);
    machine_surely_fits(banks, hdma, vram, wram)
}

// A load's tests in two, for who lends nothing beside the image: the length and the mapper, by tests that are enough; and the rest.

pub fn mapper_surely(image: &[u8]) -> bool
    ensures { result ≡ true → Mapped image.now }
{
    image.len() == layout::LENGTH && enough::common_save(mapping_at(image)).is_some()
}

// Whether the log's use is whole records, and the bits behind it 0: `&`, so that the byte in which both lie is tested once.
fn end_fits(image: &[u8]) -> bool
    requires { length image.now ≡ image_len }
    ensures { result ≡ (eqb (at (fields image.now) zeros_field) 0 && use_in_range (at (fields image.now) used_field) log_limit) }
{
    (places::field_at::<2>(image, layout::ZEROS_AT, layout::ZEROS) == 0)
        & savelog::use_in_range(used_at(image), savelog::LOG_LIMIT)
}

// By the kind of machine, as `machine_surely_fits` goes: in place that costs less than `head_fits`.
pub fn rest_fits(image: &[u8]) -> bool
    requires { length image.now ≡ image_len }
    ensures { result ≡ rest_fits (fields image.now) }
{
    if !end_fits(image) {
        return false;
    }
    let banks = banks_at(image);
    let hdma = steps_at(image);
    if banks.colour {
        if !memory::hdma_in_range(hdma, true) {
            return false;
        }
        return memory::banks_in_range(banks);
    }
    if !memory::hdma_in_range(hdma, false) {
        return false;
    }
    memory::banks_in_range(banks)
}

// Whether the fields from the mapper on are in range, and the bits behind them 0.
pub fn tail_fits(image: &[u8]) -> bool
    requires { length image.now ≡ image_len }
    ensures { result ≡ tail_fits (fields image.now) }
{
    if !mapper_fits(image) {
        return false;
    }
    end_fits(image)
}

pub fn put_banks(image: &mut [u8], banks: Banks)
    requires { (length image.old ≡ image_len) × Fits (banks_fields banks) }
    ensures { image.new ≡ put (banks_fields banks) image.old }
{
    places::put_flag(image, layout::COLOUR_AT, banks.colour);
    places::put_field::<2>(image, layout::VRAM_AT, 1, banks.vram as u64);
    places::put_field::<2>(image, layout::WRAM_AT, 3, banks.wram as u64);
}

fn put_lines(image: &mut [u8], lcd: Lcd)
    requires { length image.old ≡ image_len }
    ensures { image.new ≡ put (lines_fields lcd) image.old }
{
    places::put_flag(image, layout::DISABLED_AT, lcd.disabled);
    places::put_field::<2>(image, layout::LINE_AT, 8, lcd.line as u64);
    places::put_field::<2>(image, layout::SIGNAL_AT, 8, lcd.signal as u64);
    places::put_field::<2>(image, layout::MODE_AT, 8, lcd.mode as u64);
}

pub fn put_signed(image: &mut [u8], bit: usize, n: i32)
    requires { Within 40 image.old bit 32 }
    ensures { image.new ≡ put_at image.old bit 32 (of_z w32 n) }
{
    places::put_field::<5>(image, bit, 32, n.cast_unsigned() as u64);
}

pub fn put_lcd(image: &mut [u8], lcd: Lcd)
    requires { length image.old ≡ image_len }
    ensures { image.new ≡ put (lcd_fields lcd) image.old }
{
    put_lines(image, lcd);
    put_signed(image, layout::DELAY_AT, lcd.delay);
    put_signed(image, layout::COUNTER_AT, lcd.counter);
    put_signed(image, layout::AUX_AT, lcd.aux);
    put_signed(image, layout::WINDOW_AT, lcd.window);
}

pub fn put_hdma(image: &mut [u8], hdma: Hdma)
    requires { length image.old ≡ image_len }
    ensures { image.new ≡ put (hdma_fields hdma) image.old }
{
    places::put_flag(image, layout::ON_AT, hdma.on);
    places::put_field::<3>(image, layout::SOURCE_AT, 16, hdma.source as u64);
    places::put_field::<3>(image, layout::DESTINATION_AT, 16, hdma.destination as u64);
}

pub fn put_joypad(image: &mut [u8], joypad: Controller)
    requires { length image.old ≡ image_len }
    ensures { image.new ≡ put (joypad_fields joypad) image.old }
{
    places::put_flag(image, layout::ACTION_AT, joypad.action);
    places::put_flag(image, layout::DIRECTION_AT, joypad.direction);
    places::put_field::<2>(image, layout::STATE_AT, 8, joypad.state as u64);
    places::put_field::<2>(image, layout::RELEASED_AT, 8, joypad.released as u64);
}

pub fn put_clock(image: &mut [u8], clock: Clock)
    requires { (length image.old ≡ image_len) × Fits (clock_fields clock) }
    ensures { image.new ≡ clock_put image.old clock }
{
    places::put_field::<2>(image, layout::DIV_AT, 8, clock.div as u64);
    places::put_field::<3>(image, layout::TIMA_AT, 10, clock.tima as u64);
}

fn put_cartridge(image: &mut [u8], cartridge: Cartridge)
    requires { (length image.old ≡ image_len) × Fits (cartridge_fields cartridge) }
    ensures { image.new ≡ put (cartridge_fields cartridge) image.old }
{
    places::put_field::<2>(image, layout::LOG_AT, layout::LOG, cartridge.log() as u64);
    places::put_field::<2>(image, layout::CODE_AT, layout::CODE, cartridge.code as u64);
}

// A mapper's numbers but its kind: they stand side by side, so they are put as one.
fn put_numbers(image: &mut [u8], r: Registers)
    requires { (length image.old ≡ image_len) × Fits (numbers_fields r) }
    ensures { image.new ≡ put (numbers_fields r) image.old }
{
    let low = r.ram as u32 * layout::RAM_UNIT
        + r.mode as u32 * layout::BANKING_UNIT
        + r.enabled as u32 * layout::ENABLED_UNIT
        + r.high as u32;
    // Those behind the ROM bank make a byte: told so, the compiler looks for no carry out of them, which takes ten instructions.
    let n = r.rom as u32 * layout::ROM_UNIT + low as u8 as u32;
    places::put_field::<3>(image, layout::ROM_AT, layout::NUMBERS, n as u64);
}

pub fn put_used(image: &mut [u8], used: u16)
    requires { length image.old ≡ image_len }
    ensures { image.new ≡ used_put image.old used }
{
    places::put_field::<3>(image, layout::USED_AT, layout::USED, used as u64);
}

// Mapper and log use.
pub fn put_mapping(image: &mut [u8], mapper: Mapper, used: u16)
    requires { (length image.old ≡ image_len) × Slim mapper }
    ensures { image.new ≡ mapping_put image.old mapper used }
{
    let r = Registers::from(mapper);
    places::put_field::<2>(image, layout::KIND_AT, layout::KIND, r.kind as u64);
    put_numbers(image, r);
    put_used(image, used);
}

// The mapper alone, where the image has one of its kind; the log use stays.
pub fn put_registers(image: &mut [u8], r: Registers)
    requires { (length image.old ≡ image_len) × (Fits (registers_fields r) × (r.kind ≡ (registers_in (fields image.old)).kind)) }
    ensures { (p : Mapper) → r ≡ registers_of p → image.new ≡ mapping_put image.old p (at (fields image.old) used_field) }
{
    put_numbers(image, r);
}

// The groups, and the log use.
fn put_groups(image: &mut [u8], core: Core)
    requires { (length image.old ≡ image_len) × Fit field_widths (field_values core) }
    ensures { image.new ≡ put (groups_fields core) image.old }
{
    let banks = core.banks;
    put_banks(image, banks);
    let lcd = core.lcd;
    put_lcd(image, lcd);
    let hdma = core.hdma;
    put_hdma(image, hdma);
    let joypad = core.joypad;
    put_joypad(image, joypad);
    let clock = core.clock;
    put_clock(image, clock);
    let cartridge = core.cartridge;
    put_cartridge(image, cartridge);
    let mapper = core.mapper;
    put_mapping(image, mapper, core.used);
}

// All of the state but its arrays, and 0 in the bits behind.
pub fn put_core(image: &mut [u8], core: Core)
    requires { (length image.old ≡ image_len) × Fit field_widths (field_values core) }
    ensures { image.new ≡ put (core_fields core) image.old }
{
    put_groups(image, core);
    places::put_field::<2>(image, layout::ZEROS_AT, layout::ZEROS, 0);
}
