// The host of a bus: it lends the memories, each as long as the bus needs it.
ghost use Rattle.std.specs.Prelude.{◌≡◌, ◌≤◌, length, take, drop};
ghost use Rattle.bus.specs.Calls.{outcome};
ghost use Rattle.dispatch.specs.Step.{step};
ghost use Rattle.memory.specs.World.{world, fixed};
ghost use Rattle.bus_host.specs.Host.{smaller, lengths, lengths_of, lent_of, lengths_in, heard, lent_parts};

use dispatch::{Call, Performed};
use lines::line::flag;
use lines::pattern;
use mbc::{Cartridge, Mapper};
use memory::Memory;
use numbers::Refusal;

// Of the memories of which a part may be lent. The log and the sound window, of which crate refusals has the length too, are lent whole.
#[derive(Clone, Copy)]
pub struct Lengths {
    pub rom: usize,
    pub vram: usize,
    pub wram: usize,
    pub save: usize,
}

fn lengths_of(cartridge: Cartridge, mapper: Mapper, colour: bool) -> Lengths
    ensures { result ≡ lengths_of cartridge mapper colour }
{
    Lengths {
        rom: cartridge.rom_len(),
        vram: memory::vram_len(colour),
        wram: memory::wram_len(colour),
        save: mapper.ram_len(cartridge),
    }
}

impl Lengths {
    // The lengths of these.
    pub fn of(rom: &[u8], vram: &[u8], wram: &[u8], save: &[u8]) -> Lengths
        ensures { result ≡ lengths (length rom.now) (length vram.now) (length wram.now) (length save.now) }
    {
        Lengths {
            rom: rom.len(),
            vram: vram.len(),
            wram: wram.len(),
            save: save.len(),
        }
    }

    // The lengths that a bus needs, as far as there are so many bytes. What is too short is refused by its length.
    #[tactic(auto, unfolding(crate::specs::Host::smaller))]
    fn lent(self, there: Lengths) -> Lengths
        ensures { (result ≡ lent_of self there.rom there.vram there.wram there.save) × ((result.rom ≤ there.rom) × ((result.vram ≤ there.vram) × ((result.wram ≤ there.wram) × (result.save ≤ there.save)))) }
    {
        Lengths {
            rom: self.rom.min(there.rom),
            vram: self.vram.min(there.vram),
            wram: self.wram.min(there.wram),
            save: self.save.min(there.save),
        }
    }
}

// The same for a bus at hand.
pub fn lengths_in(memory: Memory, there: Lengths) -> Lengths
    ensures { (result ≡ lengths_in memory there.rom there.vram there.wram there.save) × ((result.rom ≤ there.rom) × ((result.vram ≤ there.vram) × ((result.wram ≤ there.wram) × (result.save ≤ there.save)))) }
{
    let core = memory.core;
    let needs = lengths_of(core.cartridge, core.mapper, core.banks.colour);
    needs.lent(there)
}

// One call, on the memories of this bus. What is lent stays a parameter each, as in `mmu::write_byte`.
pub fn perform(
    memory: Memory,
    rom: &[u8],
    vram: &mut [u8],
    wram: &mut [u8],
    save: &mut [u8],
    log: &mut [u8],
    sound: &[u8],
    call: Call,
) -> Performed
    ensures { let n = lengths_in memory (length rom.now) (length vram.old) (length wram.old) (length save.old) in (outcome result.number result.value (lent_parts n (world result.memory vram.new wram.new save.new log.new)) ≡ step (fixed (take n.rom rom.now) sound.now) (lent_parts n (world memory vram.old wram.old save.old log.old)) call) × ((drop n.vram vram.new ≡ drop n.vram vram.old) × ((drop n.wram wram.new ≡ drop n.wram wram.old) × (drop n.save save.new ≡ drop n.save save.old))) }
{
    let there = Lengths::of(rom, vram, wram, save);
    let n = lengths_in(memory, there);
    dispatch::perform(
        memory,
        &rom[..n.rom],
        &mut vram[..n.vram],
        &mut wram[..n.wram],
        &mut save[..n.save],
        log,
        sound,
        call,
    )
}

// Takes the 48 bytes of the sound window, which `given` begins with: what stands before them in a line's input is cut off by who calls.
#[tactic(auto, unfolding(crate::specs::Host::smaller))]
pub fn hear(given: &[u8], sound: &mut [u8])
    requires { 48 ≤ length given.now }
    ensures { sound.new ≡ heard given.now 0 sound.old }
{
    let n = sound.len().min(48);
    sound[..n].copy_from_slice(&given[..n]);
}

// What N says of a bus: mapper, log2 N, RAM code, colour. The log's length stands between these and the sound window.
#[derive(Clone, Copy)]
struct Description {
    kind: u8,
    banks: u16,
    code: u8,
    colour: bool,
}

// Colour is a flag.
impl TryFrom<[u8; 54]> for Description {
    type Error = Refusal;

    fn try_from(given: [u8; 54]) -> Result<Self, Refusal> {
        let [kind, log, code, colour, ..] = given;
        Ok(Description {
            kind,
            banks: Cartridge::banks_of(log),
            code,
            colour: flag(colour)?,
        })
    }
}

fn begin(
    d: Description,
    rom: &[u8],
    vram: &mut [u8],
    wram: &mut [u8],
    save: &[u8],
    log: &[u8],
    sound: &[u8],
) -> Result<Memory, Refusal> {
    let (cartridge, mapper) = Mapper::fresh(d.kind, d.banks, d.code)?;
    let there = Lengths::of(rom, vram, wram, save);
    let needs = lengths_of(cartridge, mapper, d.colour);
    let n = needs.lent(there);
    bus::fresh::fresh(
        d.kind,
        d.banks,
        d.code,
        d.colour,
        &rom[..n.rom],
        &mut vram[..n.vram],
        &mut wram[..n.wram],
        &save[..n.save],
        log,
        sound,
    )
}

// A fresh bus as N describes it, with save and sound window as the list says.
pub fn fresh(
    given: [u8; 54],
    rom: &[u8],
    vram: &mut [u8],
    wram: &mut [u8],
    save: &mut [u8],
    log: &[u8],
    sound: &mut [u8],
) -> Result<Memory, Refusal> {
    let d = Description::try_from(given)?;
    hear(&given[6..], sound);
    pattern::fill_save(save);
    begin(d, rom, vram, wram, save, log, sound)
}
