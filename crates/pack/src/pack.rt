use boards::inner::Core;

mod calls;
mod perform;
mod read;
mod start;

// Contracts speak of a pack by `state`. It is no `impl Model`, whose value may have no functions, and a state has them.
#[derive(Drop)]
pub struct Pack<'a, W, T> {
    core: Core<'a, W>,
    tally: T,
}
