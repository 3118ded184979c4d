// The idle container: nothing but zeros outside the link header.
ghost use Rattle.std.specs.Prelude.{◌≡◌, length};
ghost use Rattle.container.specs.Layout.{format_of};
ghost use Rattle.container.specs.Idle.{idle_from, idle};

use crate::layout::CONTAINER;
use slices::is_zero;

// Whether format X has zeros outside bytes 60-63, 124 and 125.
#[tactic(auto, using(crate::proofs::IdleLaws::idle_x))]
fn is_idle_x(container: &[u8]) -> bool
    requires { length container.now ≡ 256 }
    ensures { result ≡ idle_from (format_of 0).link container.now 0 }
{
    is_zero(&container[0..60])
        && is_zero(&container[64..124])
        && is_zero(&container[126..CONTAINER])
}

// Whether format Y has zeros outside bytes 60-63, 120-127, 188-191 and 242-245.
#[tactic(auto, using(crate::proofs::IdleLaws::idle_y))]
fn is_idle_y(container: &[u8]) -> bool
    requires { length container.now ≡ 256 }
    ensures { result ≡ idle_from (format_of 1).link container.now 0 }
{
    is_zero(&container[0..60])
        && is_zero(&container[64..120])
        && is_zero(&container[128..188])
        && is_zero(&container[192..242])
        && is_zero(&container[246..CONTAINER])
}

// Whether a container has 256 bytes, and nothing but zeros outside the link header.
#[tactic(auto, using(crate::proofs::IdleLaws::idle_other))]
pub fn is_idle(format: u32, container: &[u8]) -> bool
    ensures { result ≡ idle (format_of format) container.now }
{
    if container.len() != CONTAINER {
        return false;
    }
    if format == 0 {
        return is_idle_x(container);
    }
    is_idle_y(container)
}
