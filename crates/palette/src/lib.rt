// The colour palettes of a colour machine, as `update_color_palette` and `set_color_palette` of the Rust's mmu/mod.rs, on one palette memory:
// the background's (FF68, FF69) and the sprites' (FF6A, FF6B) work alike. Leans on bit_utils.
#![tactic(auto)]

ghost use Rattle.std.specs.Prelude.{◌≡◌, ◌<◌};
ghost use Rattle.std.specs.List.{list_all};
ghost use Rattle.palette.specs.PanDocs.{address_of, color_of, number_of, low_byte, high_byte, with_low, with_high, channels, byte_in, put_in, moves};
ghost use Rattle.palette.specs.Palette.{
  write_index,
  write_data,
  next_index,
  shown_after,
  data_written,
  in_range,
  colors_in_range,
};

// The Rust's CGBColor: each channel has 5 bits.
#[derive(Clone, Copy, Debug, PartialEq, Eq)]
pub struct Color {
    pub red: u8,
    pub green: u8,
    pub blue: u8,
}

// The index register, the data register, and the 32 colours, at palette * 4 + colour.
#[derive(Clone, Copy, Debug, PartialEq, Eq)]
pub struct Palette {
    pub index: u8,
    pub data: u8,
    pub colors: [Color; 32],
}

// What a write of data leaves of the registers, and of the colour at the address.
#[derive(Clone, Copy, Debug, PartialEq, Eq)]
pub struct Written {
    pub index: u8,
    pub data: u8,
    pub color: Color,
}

// The colour that the index register's address is in.
pub fn color_of(value: u8) -> usize
    ensures { (result ≡ color_of (address_of value)) × (result < 32) }
{
    let index = value / 2 % 4;
    let pal = value / 8 % 8;
    (pal * 4 + index) as usize
}

// The two bytes of a colour, and the colour once one of them is written: four formulas, each by the channels of its byte, and not one with another constant.

// Red, and the low half of green.
fn low_byte(c: Color) -> u8
    ensures { result ≡ low_byte (number_of c) }
{
    c.red % 32 + c.green % 8 * 32
}

// The high half of green, and blue.
fn high_byte(c: Color) -> u8
    ensures { result ≡ high_byte (number_of c) }
{
    c.blue % 32 * 4 + c.green / 8 % 4
}

// A state's channels are below 32: the `% 32` of one that is not written changes nothing, and spares a `requires`.
fn with_low(c: Color, value: u8) -> Color
    ensures { result ≡ channels (with_low (number_of c) value) }
{
    Color {
        red: value % 32,
        green: c.green / 8 % 4 * 8 + value / 32,
        blue: c.blue % 32,
    }
}

fn with_high(c: Color, value: u8) -> Color
    ensures { result ≡ channels (with_high (number_of c) value) }
{
    Color {
        red: c.red % 32,
        green: c.green % 8 + value % 4 * 8,
        blue: value / 4 % 32,
    }
}

// The byte of a colour at the address in `value`.
#[tactic(auto, using(crate::proofs::Bytes::half))]
pub fn byte_of(c: Color, value: u8) -> u8
    ensures { result ≡ byte_in c (address_of value) }
{
    if bit_utils::within::is_set(value, 0) {
        return high_byte(c);
    }
    low_byte(c)
}

// A colour once the byte at the address in `index` is written.
#[tactic(auto, using(crate::proofs::Bytes::half))]
fn with_byte(c: Color, index: u8, value: u8) -> Color
    ensures { result ≡ put_in c (address_of index) value }
{
    if bit_utils::within::is_set(index, 0) {
        return with_high(c, value);
    }
    with_low(c, value)
}

// Whether a write of data moves the address up.
fn moves(index: u8) -> bool
    ensures { result ≡ moves index }
{
    bit_utils::within::is_set(index, 7)
}

// The index register after a write of data; where the address moves, bit 6 becomes 0.
#[tactic(auto, unfolding(crate::specs::Palette::next_index))]
pub fn next_index(index: u8) -> u8
    ensures { result ≡ next_index index }
{
    if moves(index) {
        let address = (index % 64 + 1) % 64;
        return index / 128 * 128 + address;
    }
    index
}

// What the data register shows after a write of data: where the address moved, the byte there.
#[tactic(auto, unfolding(crate::specs::Palette::shown_after))]
fn shown(index: u8, next: Color, value: u8) -> u8
    ensures { result ≡ shown_after index next value }
{
    if moves(index) {
        return byte_of(next, next_index(index));
    }
    value
}

// A write of data on what it needs: the index register, the colour at its address, and the colour at the address after. That one is as it was: the address
// moves before the colour is set.
pub fn set_color_palette(index: u8, c: Color, next: Color, value: u8) -> Written
    ensures { result ≡ data_written index c next value }
{
    let color = with_byte(c, index, value);
    Written {
        index: next_index(index),
        data: shown(index, next, value),
        color,
    }
}

// FF68 and FF6A on a colour machine: the data register shows the byte at the address.
#[tactic(auto, unfolding(crate::specs::PanDocs::byte_at))]
pub fn write_index(p: Palette, value: u8) -> Palette
    ensures { result ≡ write_index p value }
{
    let c = p.colors[color_of(value)];
    Palette {
        index: value,
        data: byte_of(c, value),
        ..p
    }
}

// FF69 and FF6B on a colour machine.
#[tactic(auto, using(crate::proofs::Bytes::data_parts))]
pub fn write_data(p: Palette, value: u8) -> Palette
    ensures { result ≡ write_data p value }
{
    let at = color_of(p.index);
    let to = color_of(next_index(p.index));
    let w = set_color_palette(p.index, p.colors[at], p.colors[to], value);
    let mut n = Palette {
        index: w.index,
        data: w.data,
        ..p
    };
    n.colors[at] = w.color;
    n
}

// Whether every channel is below 32.
#[tactic(auto, unfolding(crate::specs::Palette::in_range))]
fn in_range(c: Color) -> bool
    ensures { result ≡ in_range c }
{
    c.red < 32 && c.green < 32 && c.blue < 32
}

fn all_in_range(colors: &[Color]) -> bool
    ensures { result ≡ list_all in_range colors.now }
{
    colors.iter().all(|c| in_range(*c))
}

#[tactic(auto, using(crate::proofs::Bytes::all_in_range))]
pub fn colors_in_range(colors: [Color; 32]) -> bool
    ensures { result ≡ colors_in_range colors }
{
    all_in_range(&colors)
}
