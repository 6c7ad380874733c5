// What ROM and save hold: oracle/README.md, "The parts", R.
ghost use Rattle.std.specs.Prelude.{◌≡◌, ℕ, ◌<◌, length, slice_index};
ghost use Rattle.lines.specs.Contents.{rom_byte, save_byte, Filled};

// The ROM that a program has, of 256 banks.
pub const ROM_LEN: usize = 0x400000;

// The largest save.
pub const SAVE_LEN: usize = 0x20000;

#[tactic(auto, using(crate::proofs::Contents::rom_sum))]
pub fn rom_byte(a: usize) -> u8
    ensures { result ≡ rom_byte a }
{
    ((a % 256 + a / 16384 % 256 * 7 + a / 256 % 256 * 3 + a / 4194304 % 256 * 13) % 256) as u8
}

#[tactic(auto, using(crate::proofs::Contents::save_sum))]
pub fn save_byte(a: usize) -> u8
    ensures { result ≡ save_byte a }
{
    ((a % 256 * 5 + a / 8192 % 256 * 11 + 17) % 256) as u8
}

// Each byte by a rule over its place.
pub fn fill<F: Fn(usize) -> u8>(bytes: &mut [u8], rule: F)
    requires { F.IsAlwaysCallable rule }
    ensures { (a : ℕ) → a < length bytes.new → F.post rule a (slice_index bytes.new a) }
{
    for (a, byte) in bytes.iter_mut().enumerate() {
        *byte = rule(a);
    }
}

pub fn fill_rom(rom: &mut [u8])
    ensures { Filled rom_byte rom.new (length rom.new) }
{
    fill(rom, rom_byte);
}

pub fn fill_save(save: &mut [u8])
    ensures { Filled save_byte save.new (length save.new) }
{
    fill(save, save_byte);
}
