// Queues that hold the numbers of a table's rows, each in order from 0.
ghost use Rattle.std.specs.Prelude.{◌≡◌, ℕ, ◌*◌, ◌<◌, ◌≤◌, []};
ghost use Rattle.queue.specs.QueuesOf.{queues, count_of, each_of, places_len};
ghost use Rattle.theory.specs.Functions.{masked, put};
ghost use Rattle.theory.specs.Lists.{below};

use queue::queues::Queues;

// Queue b, which is empty, gets the numbers below `each`.
fn number_one(free: &mut Queues<'_, u16>, b: usize, each: u16)
    requires queue { b < count_of free.old }
    requires room { each ≤ each_of free.old }
    requires empty { queues free.old b ≡ [] }
    ensures after { queues free.new ≡ put (queues free.old) b (below each) }
    ensures count { count_of free.new ≡ count_of free.old }
    ensures each { each_of free.new ≡ each_of free.old }
    ensures places { places_len free.new ≡ places_len free.old }
{
    for number in 0..each {
        let _ = free.push(b, number);
    }
}

// Lays out `count` queues with all the numbers below `each` in each.
pub(crate) fn number_all(free: &mut Queues<'_, u16>, count: usize, each: u16)
    requires few { count ≤ 16 }
    requires room { count * each ≤ places_len free.old }
    ensures after { queues free.new ≡ masked count [] (λ _. below each) }
    ensures count { count_of free.new ≡ count }
    ensures each { each_of free.new ≡ each }
    ensures places { places_len free.new ≡ places_len free.old }
{
    let _ = free.lay_out(count, each as usize);
    for b in 0..count {
        number_one(free, b, each);
    }
}
