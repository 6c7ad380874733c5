// The colours: 32 of them as 96 channels, red, green, blue; and one of the 64 at its place.
ghost use Rattle.std.specs.Prelude.{◌≡◌, true, ◌<◌, length};
ghost use Rattle.packing.specs.Packing.{repacked, eights, fives};
ghost use Rattle.palette.specs.Palette.{in_range, colors_in_range};
ghost use Rattle.image.specs.Layout.{image_len, channels};
ghost use Rattle.image.specs.Load.{colors_of};
ghost use Rattle.image.specs.Patches.{color_in, color_put};

use crate::layout;
use palette::Color;

pub fn channels_of(colors: [Color; 32]) -> [u8; 96]
    ensures { result ≡ channels colors }
{
    let mut out = [0; 96];
    for (i, c) in colors.iter().enumerate() {
        packing::put(&mut out, i * 3, &[c.red, c.green, c.blue]);
    }
    out
}

fn colors_of(channels: [u8; 96]) -> [Color; 32]
    ensures { result ≡ colors_of channels }
{
    let mut out = [Color {
        red: 0,
        green: 0,
        blue: 0,
    }; 32];
    for (i, c) in out.iter_mut().enumerate() {
        *c = Color {
            red: channels[i * 3],
            green: channels[i * 3 + 1],
            blue: channels[i * 3 + 2],
        };
    }
    out
}

// 32 colours in 60 bytes, and back.
pub fn bytes_of(colors: [Color; 32]) -> [u8; 60]
    requires { colors_in_range colors ≡ true }
    ensures { result ≡ repacked (fives 96) (eights 60) (channels colors) }
{
    packing::pack_channels(channels_of(colors))
}

pub fn colors_at(bytes: &[u8]) -> [Color; 32]
    requires { length bytes.now ≡ 60 }
    ensures { result ≡ colors_of (repacked (eights 60) (fives 96) bytes.now) }
{
    colors_of(packing::unpack_channels(bytes))
}

// Background colours from 0 on, sprite colours from 32 on.
pub fn color_at(image: &[u8], k: usize) -> Color
    requires { (length image.now ≡ image_len) × (k < 64) }
    ensures { result ≡ color_in image.now k }
{
    let bit = layout::COLORS_AT + k * layout::COLOR;
    Color {
        red: places::field_at::<2>(image, bit, layout::CHANNEL) as u8,
        green: places::field_at::<2>(image, bit + layout::CHANNEL, layout::CHANNEL) as u8,
        blue: places::field_at::<2>(image, bit + 2 * layout::CHANNEL, layout::CHANNEL) as u8,
    }
}

pub fn put_color(image: &mut [u8], k: usize, c: Color)
    requires { (length image.old ≡ image_len) × ((k < 64) × (in_range c ≡ true)) }
    ensures { image.new ≡ color_put image.old k c }
{
    let bit = layout::COLORS_AT + k * layout::COLOR;
    places::put_field::<2>(image, bit, layout::CHANNEL, c.red as u64);
    places::put_field::<2>(
        image,
        bit + layout::CHANNEL,
        layout::CHANNEL,
        c.green as u64,
    );
    places::put_field::<2>(
        image,
        bit + 2 * layout::CHANNEL,
        layout::CHANNEL,
        c.blue as u64,
    );
}
