// A granule filled in its own part of the container, and the header written.
ghost use Rattle.std.specs.Prelude.{◌≡◌, ◌≤◌, ◌<◌, length};
ghost use Rattle.lists.specs.Parts.{put, pad};
ghost use Rattle.container.specs.Layout.{format_of, start};
ghost use Rattle.writer.specs.Laying.{header_bytes, set_all};

use container::{CONTAINER, Grant, locate_granule, locate_header, measure_granule};
use slices::{clear, copy_into};

// The bytes of a protocol header.
const HEADER: usize = 10;

// Copies src to the front of a part and writes zeros behind it.
fn copy_and_zero(part: &mut [u8], src: &[u8])
    requires { length src.now ≤ length part.old }
    ensures { part.new ≡ pad (length part.old) src.now }
{
    let (front, rest) = part.split_at_mut(src.len());
    copy_into(front, 0, src);
    clear(rest);
}

// Fills granule g with src and zeros behind it.
pub(crate) fn fill_granule(container: &mut [u8; CONTAINER], format: u32, g: u8, src: &[u8])
    requires g_bound { g < 12 }
    requires src_len_bound { length src.now ≤ (format_of format).size g }
    ensures { container.new ≡ put (start g) (pad ((format_of format).size g) src.now) container.old }
{
    let from = locate_granule(g);
    let end = from + measure_granule(format, g);
    copy_and_zero(&mut container[from..end], src);
}

// The header bytes under a MsgStart and a grant.
fn form_header(msgstart: u16, grant: Grant) -> [u8; HEADER]
    requires { grant.rp < 8 }
    ensures { result ≡ header_bytes grant msgstart }
{
    let [low, high] = msgstart.to_le_bytes();
    let form = u8::from(grant.shc) + 2 * grant.rp;
    [
        low, high, form, grant.req, grant.rsp, grant.snp, grant.dat, 0, 0, 0,
    ]
}

// Writes the header bytes, each at its place.
#[tactic(auto, using(crate::proofs::HeaderLaws::set_all_more), unfolding(crate::specs::Laying::set_all))]
pub(crate) fn write_header(
    container: &mut [u8; CONTAINER],
    format: u32,
    msgstart: u16,
    grant: Grant,
)
    requires { grant.rp < 8 }
    ensures { container.new ≡ set_all (format_of format).place 0 (header_bytes grant msgstart) container.old }
{
    let header = form_header(msgstart, grant);
    for i in 0..HEADER {
        container[locate_header(format, i as u8)] = header[i];
    }
}
