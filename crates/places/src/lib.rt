// A field of a row of bytes, read and stored by its place: how many bits stand before it, and its width. specs/Places.antt says what the field is.
// It is taken from the N bytes that end where it ends, so the last field of all needs no room behind it. With constants for place and width the compiler
// makes a load, a shift and a mask of a read of two or eight bytes, and a store touches its N bytes alone.
#![tactic(auto)]

ghost use Rattle.std.specs.Prelude.{cond, ◌≡◌, ◌+◌, ◌-◌, ◌*◌, ◌/◌, ◌^◌, ◌<◌, ◌≤◌, eqb, length, take, drop};
ghost use Rattle.packing.specs.Packing.{packed, eights};
ghost use Rattle.places.specs.Places.{field_at, replaced, put_at, Within};

// A field within N bytes. Here and below `Within` is a fact of a slice and two numbers, each of which the function uses by itself: a type of the three would
// be made at each call and taken apart here, and in `put_field` it would hold the borrow.
// A load of more bytes than were stored at once has to wait for them, so N is 2 where a field of two bytes was just put.
pub fn field_at<const N: usize>(bytes: &[u8], bit: usize, width: usize) -> u64
    requires { (N ≤ 8) × ((width < 64) × (((bit + width + 7) / 8 * 8 ≤ bit + 8 * N) × Within (8 * N) bytes.now bit width)) }
    ensures { (result ≡ field_at bytes.now bit width) × (result < 2 ^ width) }
{
    let end = (bit + width + 7) / 8;
    let shift = end * 8 - (bit + width);
    let n = window::<N>(bytes, end);
    (n >> shift) % (1 << width)
}

// The number of the N bytes up to `end`.
fn window<const N: usize>(bytes: &[u8], end: usize) -> u64
    requires { (N ≤ 8) × ((N ≤ end) × (end ≤ length bytes.now)) }
    ensures { result ≡ packed (eights N) (take N (drop (end - N) bytes.now)) }
{
    if N == 8 {
        return packing::eight_at(bytes, end - N);
    }
    packing::pack::<8>(&bytes[end - N..end])
}

// A field of 64 bits, as two of 32.
pub fn u64_at(bytes: &[u8], bit: usize) -> u64
    requires { Within 96 bytes.now bit 64 }
    ensures { result ≡ field_at bytes.now bit 64 }
{
    field_at::<8>(bytes, bit, 32) * 0x1_0000_0000 + field_at::<8>(bytes, bit + 32, 32)
}

// A field of one bit.
pub fn flag_at(bytes: &[u8], bit: usize) -> bool
    requires { Within 16 bytes.now bit 1 }
    ensures { result ≡ eqb (field_at bytes.now bit 1) 1 }
{
    field_at::<2>(bytes, bit, 1) == 1
}

// Stores a field within N bytes; every other bit stays.
pub fn put_field<const N: usize>(bytes: &mut [u8], bit: usize, width: usize, value: u64)
    requires { (N < 8) × (((bit + width + 7) / 8 * 8 ≤ bit + 8 * N) × ((value < 2 ^ width) × Within (8 * N) bytes.old bit width)) }
    ensures { bytes.new ≡ put_at bytes.old bit width value }
{
    let end = (bit + width + 7) / 8;
    let shift = end * 8 - (bit + width);
    let window = &mut bytes[end - N..end];
    let n = replaced(packing::pack::<8>(window), shift, width, value);
    packing::unpack::<8>(window, n);
}

pub fn put_u64(bytes: &mut [u8], bit: usize, value: u64)
    requires { Within 72 bytes.old bit 64 }
    ensures { bytes.new ≡ put_at bytes.old bit 64 value }
{
    put_field::<5>(bytes, bit, 32, value / 0x1_0000_0000);
    put_field::<5>(bytes, bit + 32, 32, value % 0x1_0000_0000);
}

pub fn put_flag(bytes: &mut [u8], bit: usize, value: bool)
    requires { Within 16 bytes.old bit 1 }
    ensures { bytes.new ≡ put_at bytes.old bit 1 (cond value 1 0) }
{
    put_field::<2>(bytes, bit, 1, value as u64);
}

// A number with the field above its `shift` lowest bits replaced.
fn replaced(n: u64, shift: usize, width: usize, value: u64) -> u64
    requires { (width + shift < 64) × (value < 2 ^ width) }
    ensures { result ≡ replaced n shift width value }
{
    let high = n >> (width + shift);
    (((high << width) + value) << shift) + n % (1 << shift)
}
