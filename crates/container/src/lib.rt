// Container bytes: granules, protocol header and grant forms of both formats (document 01, "Container bytes").
#![tactic(auto)]

mod grant;
mod idle;
mod layout;

pub use grant::{
    Grant, allows_plane, decode_grant, has_counts, is_form, keeps_reserved, read_grant,
};
pub use idle::is_idle;
pub use layout::{
    CONTAINER, FORMATS, GRANULES, WIDE, locate_granule, locate_header, measure_granule,
    read_header, read_msgstart, start_bit, starts_at,
};
