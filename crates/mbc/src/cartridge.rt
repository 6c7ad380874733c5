// What a cartridge is described by, and what all mappers ask of it.
#![tactic(auto, unfolding(crate::specs::Cartridge::ram_banks, crate::specs::Cartridge::has_banks, crate::specs::Cartridge::has_code, crate::specs::Cartridge::log2, crate::specs::Cartridge::banks_of))]

ghost use Rattle.std.specs.Prelude.{◌≡◌, cond, ◌&&◌, ◌<◌, ◌*◌, eqb};
ghost use Rattle.mbc.specs.PanDocs.{enables, masked};
ghost use Rattle.mbc.specs.Cartridge.{rom_len, ram_banks, has_banks, has_code, log2, banks_of};

// The value that enables RAM.
pub(crate) fn enables(value: u8) -> bool
    ensures { result ≡ enables value }
{
    value % 16 == 0x0A
}

// N, the ROM's banks of 16,384 bytes, and the header's RAM code.
#[derive(Clone, Copy, PartialEq, Eq)]
pub struct Cartridge {
    pub banks: u16,
    pub code: u8,
}

impl Cartridge {
    // N's logarithm; 0 for a number that no N is. No Option, here and in the next: an image's field and a cartridge hold a number, whose range is asked for with
    // the others, so each caller would put the 0 back.
    pub fn log(self) -> u8
        ensures { result ≡ log2 self.banks }
    {
        match self.banks {
            2 => 1,
            4 => 2,
            8 => 3,
            16 => 4,
            32 => 5,
            64 => 6,
            128 => 7,
            256 => 8,
            512 => 9,
            _ => 0,
        }
    }

    // N of its logarithm; 0, which no cartridge has, past 9.
    pub fn banks_of(log: u8) -> u16
        ensures { result ≡ banks_of log }
    {
        if 9 < log {
            return 0;
        }
        1 << log
    }

    pub fn rom_len(self) -> usize
        ensures { result ≡ rom_len self }
    {
        self.banks as usize * 0x4000
    }

    // RAM banks of 8,192 bytes.
    pub fn ram_banks(self) -> u8
        ensures { result ≡ ram_banks self.code }
    {
        match self.code {
            2 => 1,
            3 => 4,
            4 => 16,
            _ => 0,
        }
    }

    pub fn ram_len(self) -> usize
        ensures { result ≡ ram_banks self.code * 0x2000 }
    {
        self.ram_banks() as usize * 0x2000
    }

    // N is a power of two, from 2 to `most`.
    pub fn has_banks(self, most: u16) -> bool
        ensures { result ≡ has_banks most self }
    {
        self.banks <= most && matches!(self.banks, 2 | 4 | 8 | 16 | 32 | 64 | 128 | 256 | 512)
    }

    // The RAM code is one that there is, to `most`; 1 is none.
    pub fn has_code(self, most: u8) -> bool
        ensures { result ≡ has_code most self }
    {
        self.code <= most && matches!(self.code, 0 | 2 | 3 | 4)
    }

    // N is to `banks`, the RAM code to `code`.
    pub fn describes(self, banks: u16, code: u8) -> bool
        ensures { result ≡ (has_banks banks self && has_code code self) }
    {
        self.has_banks(banks) && self.has_code(code)
    }

    // Whether RAM is on after a write of `value` to 0000..1FFF, where it was `on`: a cartridge without RAM enables none.
    pub(crate) fn enabled(self, on: bool, value: u8) -> bool
        ensures { result ≡ cond (eqb self.code 0) on (enables value) }
    {
        if self.code == 0 { on } else { enables(value) }
    }

    // The Rust's `bank & (banks - 1)`: N is a power of two. `0 < banks`, here and where the mappers call it, follows from the ranges; N is no nonzero type, as
    // the all-zero state's cartridge has no banks, nor may one whose description is not tested yet.
    pub fn masked(self, bank: u16) -> u16
        requires { 0 < self.banks }
        ensures { result ≡ masked self.banks bank }
    {
        bank % self.banks
    }
}
