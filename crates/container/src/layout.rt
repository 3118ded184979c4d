// Where the granules and the header bytes of a container lie.
ghost use Rattle.std.specs.Prelude.{◌≡◌, ◌/◌, ◌%◌, ◌^◌};
ghost use Rattle.container.specs.Layout.{start, format_of, header, msg_start, bit};

use slices::byte_at;

// One above the largest format.
pub const FORMATS: u32 = 2;

// The bytes of a container.
pub const CONTAINER: usize = 256;

// The granules of a container.
pub const GRANULES: u8 = 12;

// The bytes of a granule that a longer message goes on in.
pub const WIDE: usize = 20;

// The first byte of granule g.
pub fn locate_granule(g: u8) -> usize
    ensures { result ≡ start g }
{
    let granule = g as usize;
    64 * (granule / 3) + 20 * (granule % 3)
}

// The bytes of granule g.
pub fn measure_granule(format: u32, g: u8) -> usize
    ensures { result ≡ (format_of format).size g }
{
    if format == 0 {
        return WIDE;
    }
    match g {
        5 => 16,
        11 => 10,
        _ => WIDE,
    }
}

// The place of header byte Pi.
pub fn locate_header(format: u32, i: u8) -> usize
    ensures { result ≡ (format_of format).place i }
{
    let at = i as usize;
    if format != 0 {
        return 246 + at;
    }
    if at < 2 {
        return 126 + at;
    }
    if at < 6 {
        return 186 + at;
    }
    246 + at
}

// Header byte Pi, 0 where the container ends before it.
pub fn read_header(format: u32, container: &[u8], i: u8) -> u8
    ensures { result ≡ header (format_of format) container.now i }
{
    byte_at(container, locate_header(format, i))
}

// MsgStart, one bit a granule.
pub fn read_msgstart(format: u32, container: &[u8]) -> u16
    ensures { result ≡ msg_start (format_of format) container.now }
{
    let low = read_header(format, container, 0) as u16;
    let high = read_header(format, container, 1) as u16;
    low + 256 * (high % 16)
}

// Bit g of MsgStart, as a number.
pub fn start_bit(msgstart: u16, g: u8) -> u8
    ensures { result ≡ msgstart / 2 ^ g % 2 }
{
    if 15 < g {
        return 0;
    }
    ((msgstart >> (g as u16)) % 2) as u8
}

// Whether bit g of MsgStart is set.
pub fn starts_at(msgstart: u16, g: u8) -> bool
    ensures { result ≡ bit msgstart g }
{
    start_bit(msgstart, g) == 1
}
