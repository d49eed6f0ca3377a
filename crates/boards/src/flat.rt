// One board's part of a flat slice, and writes of it: part b is the `each` items from b * each on.
ghost use Rattle.std.specs.Prelude.{◌≡◌, ◌+◌, ◌*◌, ◌≤◌, length, slice_set};
ghost use Rattle.theory.specs.Lists.{parts, wiped};

use theory::memory::Cell;

pub(crate) fn part<T>(xs: &[T], each: u32, b: u32) -> &[T]
    requires { b * each + each ≤ length xs.now }
    ensures { result.now ≡ parts xs.now each b }
{
    let start = b as usize * each as usize;
    let end = start + each as usize;
    &xs[start..end]
}

// A place past the end is no place, and nothing is written there.
pub(crate) fn store<T: Copy>(part: &mut [T], at: usize, x: T)
    ensures { part.new ≡ slice_set part.old at x }
{
    // no `get_mut`: of a slice it tells only the length when the loan is over
    if at < part.len() {
        part[at] = x;
    }
}

pub(crate) fn wipe(part: &mut [Cell], from: usize, count: usize, x: Cell)
    requires { from + count ≤ length part.old }
    ensures { part.new ≡ wiped part.old from count x }
{
    part[from..from + count].fill(x);
}
