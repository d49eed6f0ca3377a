// Which places the items of a ring have. It holds no items, so that a ring over a slice of its own
// and a ring over a part of a shared one count alike. The memory is lent and nothing is allocated, so no `Vec` or
// `VecDeque` knows the length.
ghost use Rattle.std.specs.Prelude.{◌≤◌};

mod items;
mod methods;

#[derive(Clone, Copy)]
pub struct Ring {
    first: usize,
    len: usize,
    room: usize,
    ghost within: { (first ≤ room) × (len ≤ room) },
}
