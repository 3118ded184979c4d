// An entry that is handed to the audit.
ghost use Rattle.std.specs.Prelude.{◌<◌};

use container::CONTAINER;

// An entry: a container of a direction.
#[derive(Clone, Copy)]
pub(crate) struct Entry<'a> {
    pub direction: usize,
    pub container: &'a [u8; CONTAINER],
    ghost is_direction: { direction < 2 },
}
