// What a fill reads.
ghost use Rattle.std.specs.Prelude.{◌≡◌, ◌≤◌, ◌%◌, length};

use container::Grant;

// What a container is filled from: a format and a header grant, the tail that is owed, and the list.
#[derive(Clone, Copy)]
pub(crate) struct Input<'a> {
    pub format: u32,
    pub grant: Grant,
    pub tail: &'a [u8],
    pub list: &'a [u8],
    ghost list_fits: { length list.now ≤ 4096 },
    ghost tail_fits: { (length tail.now ≤ 100) × (length tail.now % 20 ≡ 0) },
}
