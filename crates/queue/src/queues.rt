// Up to 16 queues over one lent slice. It has no ghost field beside the slice, so that a function can take it by value
// and change it: where fewer places are lent than the layout was made for, there is no queue. The three numbers are said
// one by one in contracts: a layout changes two of them, and a caller cites one.
ghost use Rattle.std.specs.Prelude.{◌≡◌, ℕ, ◌*◌, ◌<◌, ◌≤◌, length, slice_index_or};
ghost use Rattle.queue.specs.Rings.{no_ring};

use crate::ring::Ring;

mod methods;
mod sizes;

// `count` queues with `each` places, the one behind the other, among so many lent places. The sixteen rings are there
// whatever the count, since nothing is allocated.
#[derive(Clone, Copy)]
struct Layout {
    rings: [Ring; 16],
    count: usize,
    each: usize,
    lent: usize,
    ghost sixteen: { length rings ≡ 16 },
    ghost few: { count ≤ 16 },
    ghost fits: { count * each ≤ lent },
    ghost rooms: { (k : ℕ) → k < 16 → (slice_index_or rings k no_ring).room ≡ each },
}

#[derive(Drop)]
pub struct Queues<'a, T> {
    layout: Layout,
    places: &'a mut [T],
}
