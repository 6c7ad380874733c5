// Where each field of an image lies: how many bits stand before it, one field behind the other. The order and the widths are those of
// specs/Layout.antt, to which the proofs hold them.

// The bytes of an image.
pub const LENGTH: usize = 666;

// Red, green and blue of 32 background colours, then of 32 sprite colours.

pub const COLORS_AT: usize = 4096;

pub const CHANNEL: usize = 5;

pub const COLOR: usize = 3 * CHANNEL;

// Before the mapper.

pub const COLOUR_AT: usize = 5056;

pub const DISABLED_AT: usize = COLOUR_AT + 1;

pub const ON_AT: usize = DISABLED_AT + 1;

pub const VRAM_AT: usize = ON_AT + 1;

pub const WRAM_AT: usize = VRAM_AT + 1;

pub const ACTION_AT: usize = WRAM_AT + 3;

pub const DIRECTION_AT: usize = ACTION_AT + 1;

pub const STATE_AT: usize = DIRECTION_AT + 1;

pub const RELEASED_AT: usize = STATE_AT + 8;

pub const LINE_AT: usize = RELEASED_AT + 8;

pub const SIGNAL_AT: usize = LINE_AT + 8;

pub const MODE_AT: usize = SIGNAL_AT + 8;

pub const DIV_AT: usize = MODE_AT + 8;

pub const TIMA_AT: usize = DIV_AT + 8;

pub const SOURCE_AT: usize = TIMA_AT + 10;

pub const DESTINATION_AT: usize = SOURCE_AT + 16;

pub const DELAY_AT: usize = DESTINATION_AT + 16;

pub const COUNTER_AT: usize = DELAY_AT + 32;

pub const AUX_AT: usize = COUNTER_AT + 32;

pub const WINDOW_AT: usize = AUX_AT + 32;

// From the mapper on: widths, then places.

pub const KIND: usize = 2;

pub const LOG: usize = 4;

pub const CODE: usize = 3;

pub const ROM: usize = 9;

pub const RAM: usize = 4;

pub const HIGH: usize = 2;

// ROM bank, RAM bank, mode, enabled and high bits, side by side.
pub const NUMBERS: usize = ROM + RAM + 1 + 1 + HIGH;

// With the kind and the description before them: all that there is of a mapper.
pub const MAPPING: usize = KIND + LOG + CODE + NUMBERS;

pub const USED: usize = 16;

pub const ZEROS: usize = 3;

pub const KIND_AT: usize = WINDOW_AT + 32;

pub const LOG_AT: usize = KIND_AT + KIND;

pub const CODE_AT: usize = LOG_AT + LOG;

pub const ROM_AT: usize = CODE_AT + CODE;

pub const RAM_AT: usize = ROM_AT + ROM;

pub const BANKING_AT: usize = RAM_AT + RAM;

pub const ENABLED_AT: usize = BANKING_AT + 1;

pub const HIGH_AT: usize = ENABLED_AT + 1;

pub const USED_AT: usize = HIGH_AT + HIGH;

pub const ZEROS_AT: usize = USED_AT + USED;

// All of them as one number: what each counts there, 2 to the bits that stand behind it.

pub const KIND_UNIT: u32 = 1 << (USED_AT - LOG_AT);

pub const LOG_UNIT: u32 = 1 << (USED_AT - CODE_AT);

pub const CODE_UNIT: u32 = 1 << (USED_AT - ROM_AT);

pub const ROM_UNIT: u32 = 1 << (USED_AT - RAM_AT);

pub const RAM_UNIT: u32 = 1 << (USED_AT - BANKING_AT);

pub const BANKING_UNIT: u32 = 1 << (USED_AT - ENABLED_AT);

pub const ENABLED_UNIT: u32 = 1 << (USED_AT - HIGH_AT);

// And how many values each has.

pub const LOG_SIZE: u32 = 1 << LOG;

pub const CODE_SIZE: u32 = 1 << CODE;

pub const ROM_SIZE: u32 = 1 << ROM;

pub const RAM_SIZE: u32 = 1 << RAM;

pub const HIGH_SIZE: u32 = 1 << HIGH;
