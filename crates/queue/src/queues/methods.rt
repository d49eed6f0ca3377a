ghost use Rattle.std.specs.Prelude.{◌≡◌, ◌+◌, ◌*◌, ◌<◌, ◌≤◌, false, [], length, if◌then◌else◌};
ghost use Rattle.std.specs.List.{slice_get};
ghost use Rattle.theory.specs.Functions.{put};
ghost use Rattle.theory.specs.Lists.{head, tail};
ghost use Rattle.queue.specs.Layouts.{layout_fits, layout_answer};
ghost use Rattle.queue.specs.Pushes.{pushed_at, push_answer, has_room_at};
ghost use Rattle.queue.specs.QueuesOf.{queues, count_of, each_of, places_len};

use super::{Layout, Queues};
use crate::ring::Ring;
use crate::{Full, TooSmall};

#[tactic(auto, using(crate::proofs::QueuesOf::queue_parts))]
impl<'a, T: Copy> Queues<'a, T> {
    // No queue yet.
    pub fn over(places: &'a mut [T]) -> Queues<'a, T>
        ensures after { queues result ≡ (λ _. []) }
        ensures count { count_of result ≡ 0 }
        ensures each { each_of result ≡ 0 }
        ensures places { places_len result ≡ length places.old }
    {
        let layout = Layout {
            rings: [Ring::new(0); 16],
            count: 0,
            each: 0,
            lent: 0,
        };
        Queues { layout, places }
    }

    // Empty queues, so many with so many places each. What was queued before is dropped.
    pub fn lay_out(&mut self, count: usize, each: usize) -> Result<(), TooSmall>
        ensures answer { result ≡ layout_answer (layout_fits count each (places_len self.old)) }
        ensures after { queues self.new ≡ (if layout_fits count each (places_len self.old) then (λ _. []) else queues self.old) }
        ensures count { count_of self.new ≡ (if layout_fits count each (places_len self.old) then count else count_of self.old) }
        ensures each { each_of self.new ≡ (if layout_fits count each (places_len self.old) then each else each_of self.old) }
        ensures places { places_len self.new ≡ places_len self.old }
        ensures refused { layout_fits count each (places_len self.old) ≡ false → self.new ≡ self.old }
    {
        if count > 16 {
            return Err(TooSmall);
        }
        let lent = self.places.len();
        if count as u128 * each as u128 > lent as u128 {
            return Err(TooSmall);
        }
        self.layout = Layout {
            rings: [Ring::new(each); 16],
            count,
            each,
            lent,
        };
        Ok(())
    }

    // How many queues there are.
    pub fn count(&self) -> usize
        ensures is { result ≡ count_of self.now }
        ensures few { result ≤ 16 }
    {
        if self.layout.lent <= self.places.len() {
            self.layout.count
        } else {
            0
        }
    }

    // How many items queue b has: none where there is no such queue.
    pub fn len(&self, b: usize) -> usize
        ensures { result ≡ length (queues self.now b) }
    {
        if b < self.count() {
            self.layout.rings[b].len()
        } else {
            0
        }
    }

    // The item at i of queue b, in order.
    pub fn get(&self, b: usize, i: usize) -> Option<T>
        ensures { result ≡ slice_get (queues self.now b) i }
    {
        if b >= self.count() {
            return None;
        }
        let start = self.start(b);
        self.layout.rings[b].item(&self.places[start..start + self.layout.each], i)
    }

    pub fn first(&self, b: usize) -> Option<T>
        ensures { result ≡ head (queues self.now b) }
    {
        self.get(b, 0)
    }

    // Refuses where there is no queue b, or no room in it.
    pub fn push(&mut self, b: usize, x: T) -> Result<(), Full>
        ensures after { queues self.new ≡ pushed_at (count_of self.old) (each_of self.old) b x (queues self.old) }
        ensures answer { result ≡ push_answer (has_room_at (count_of self.old) (each_of self.old) b (queues self.old)) }
        ensures count { count_of self.new ≡ count_of self.old }
        ensures each { each_of self.new ≡ each_of self.old }
        ensures places { places_len self.new ≡ places_len self.old }
        ensures refused { has_room_at (count_of self.old) (each_of self.old) b (queues self.old) ≡ false → self.new ≡ self.old }
    {
        if b >= self.count() {
            return Err(Full);
        }
        let from = self.start(b);
        let to = from + self.layout.each;
        // by a copy (tried without): in a struct with ghost fields, a call on an element by `&mut` gets no proof
        let mut ring = self.layout.rings[b];
        ring.push_into(&mut self.places[from..to], x)?;
        self.layout.rings[b] = ring;
        Ok(())
    }

    // The first item of queue b, which leaves it: none where there is no such queue.
    pub fn pop(&mut self, b: usize) -> Option<T>
        ensures answer { result ≡ head (queues self.old b) }
        ensures after { queues self.new ≡ put (queues self.old) b (tail (queues self.old b)) }
        ensures count { count_of self.new ≡ count_of self.old }
        ensures each { each_of self.new ≡ each_of self.old }
        ensures places { places_len self.new ≡ places_len self.old }
    {
        if b >= self.count() {
            return None;
        }
        let start = self.start(b);
        // by a copy, as in `push`, and with a read of its own, as in `Queue::pop`
        let mut rest = self.layout.rings[b];
        let at = rest.pop()?;
        self.layout.rings[b] = rest;
        Some(self.places[start + at])
    }

    // Where the places of queue b begin.
    fn start(&self, b: usize) -> usize
        requires { b < count_of self.now }
        ensures is { result ≡ b * each_of self.now }
        ensures within { result + each_of self.now ≤ places_len self.now }
    {
        b * self.layout.each
    }
}
