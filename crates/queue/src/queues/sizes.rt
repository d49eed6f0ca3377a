ghost use Rattle.std.specs.Prelude.{◌≡◌};
ghost use Rattle.queue.specs.QueuesOf.{places_len};

use super::Queues;

impl<T> Queues<'_, T> {
    // How many places all queues have to share.
    pub fn places(&self) -> usize
        ensures { result ≡ places_len self.now }
    {
        self.places.len()
    }
}
