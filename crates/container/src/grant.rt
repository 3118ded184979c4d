// The grant form and the reserved bits of a header.
ghost use Rattle.std.specs.Prelude.{◌≡◌, not};
ghost use Rattle.container.specs.Layout.{format_of};
ghost use Rattle.container.specs.Grants.{grant_of, header_grant, plane_allowed, form_ok, no_counts, reserved_ok};

use crate::layout::read_header;

// A grant: ShC, RP and the REQ, RSP, SNP and DAT counts (terms of document 01).
#[derive(Clone, Copy, Debug, PartialEq, Eq)]
pub struct Grant {
    pub shc: bool,
    pub rp: u8,
    pub req: u8,
    pub rsp: u8,
    pub snp: u8,
    pub dat: u8,
}

// The grant of a form's five bytes.
pub fn decode_grant(first: u8, req: u8, rsp: u8, snp: u8, dat: u8) -> Grant
    ensures { result ≡ grant_of first req rsp snp dat }
{
    Grant {
        shc: first % 2 == 1,
        rp: first / 2 % 8,
        req,
        rsp,
        snp,
        dat,
    }
}

// The grant of a container's header.
pub fn read_grant(format: u32, container: &[u8]) -> Grant
    ensures { result ≡ header_grant (format_of format) container.now }
{
    let first = read_header(format, container, 2);
    let req = read_header(format, container, 3);
    let rsp = read_header(format, container, 4);
    let snp = read_header(format, container, 5);
    let dat = read_header(format, container, 6);
    decode_grant(first, req, rsp, snp, dat)
}

// Whether the grant keeps the rule that ShC 1 requires RP 0.
pub fn allows_plane(grant: Grant) -> bool
    ensures { result ≡ plane_allowed grant }
{
    !grant.shc || grant.rp == 0
}

// Whether a byte may be the first of a grant form.
pub fn is_form(first: u8) -> bool
    ensures { result ≡ form_ok first }
{
    first < 16 && allows_plane(decode_grant(first, 0, 0, 0, 0))
}

// Whether one of the four counts is not zero.
pub fn has_counts(grant: Grant) -> bool
    ensures { result ≡ not (no_counts grant) }
{
    grant.req != 0 || grant.rsp != 0 || grant.snp != 0 || grant.dat != 0
}

// Whether the reserved bits of a container's header are zero.
pub fn keeps_reserved(format: u32, container: &[u8]) -> bool
    ensures { result ≡ reserved_ok (format_of format) container.now }
{
    read_header(format, container, 1) < 16
        && read_header(format, container, 2) < 16
        && read_header(format, container, 7) == 0
        && read_header(format, container, 8) == 0
        && read_header(format, container, 9) == 0
}
