// Two wires of any kind, driven alike and compared in every answer and every list.
use crate::draws::{Draws, message};
use std::process::Abort;
use std::test::Fail;
use theory::fault::WireFault;
use theory::message::{Message, Pair};
use wire::Wire;
use wire::transfer::transfer;

// A lifetime for each: with one for both, the borrow checker does not cover the calls of the methods.
#[derive(Drop)]
pub(crate) struct Both<'a, 'b, A, B> {
    a: &'a mut A,
    b: &'b mut B,
}

impl<'a, 'b, A, B> Both<'a, 'b, A, B> {
    pub(crate) fn of(a: &'a mut A, b: &'b mut B) -> Both<'a, 'b, A, B> {
        Both { a, b }
    }
}

impl<A: Wire, B: Wire> Both<'_, '_, A, B> {
    // The messages of a pair, in order: each is taken and sent back, so that all stand as before.
    fn same_pair(&mut self, rt: &impl Abort, pair: Pair) -> Result<(), Fail> {
        let count = self.a.len(pair);
        assert_eq!(rt; self.b.len(pair), count);
        for _ in 0..count {
            let message = self.a.take(pair)?;
            assert_eq!(rt; self.b.take(pair)?, message);
            self.send(pair, message)?;
        }
        Ok(())
    }

    fn same_row(&mut self, rt: &impl Abort, from: u32, boards: u32) -> Result<(), Fail> {
        for to in 0..boards {
            self.same_pair(rt, Pair { from, to })?;
        }
        Ok(())
    }

    // All that can be seen of two wires, and of the boards that they do not join.
    fn same(&mut self, rt: &impl Abort) -> Result<(), Fail> {
        let boards = self.a.boards();
        assert_eq!(rt; self.b.boards(), boards);
        assert_eq!(rt; self.b.capacity(), self.a.capacity());
        assert_eq!(rt; self.b.total(), self.a.total());
        for from in 0..boards + 2 {
            self.same_row(rt, from, boards + 2)?;
        }
        Ok(())
    }

    // A send or a take on both wires, now and then on a pair that neither joins.
    fn step(&mut self, rt: &impl Abort, draws: &mut Draws, number: u32) -> Result<(), Fail> {
        let boards = self.a.boards();
        let pair = draws.pair_below(boards + 1);
        if draws.below(16) < 9 {
            let sent = self.a.send(pair, message(number));
            assert_eq!(rt; self.b.send(pair, message(number)), sent);
        } else {
            let taken = self.a.take(pair);
            assert_eq!(rt; self.b.take(pair), taken);
        }
        assert_eq!(rt; self.b.total(), self.a.total());
        self.same_pair(rt, pair)
    }

    // So many steps, and all lists compared after the first of each hundred and at the end.
    pub(crate) fn steps(&mut self, rt: &impl Abort, seed: u32, steps: u32) -> Result<(), Fail> {
        let mut draws = Draws::seeded(seed);
        for number in 0..steps {
            self.step(rt, &mut draws, number)?;
            if number % 100 == 0 {
                self.same(rt)?;
            }
        }
        self.same(rt)
    }

    fn send(&mut self, pair: Pair, message: Message) -> Result<(), Fail> {
        self.a.send(pair, message)?;
        self.b.send(pair, message)?;
        Ok(())
    }

    // So many messages on either wire.
    fn send_all(&mut self, rt: &impl Abort, draws: &mut Draws, count: u32) -> Result<(), Fail> {
        let boards = self.a.boards();
        assert!(rt; boards > 0);
        for number in 0..count {
            let pair = draws.pair_below(boards);
            self.send(pair, message(number))?;
        }
        Ok(())
    }
}

// The target has what it had and behind it, pair by pair, what the source had; a further hundred messages
// and one do not fit, and stay where they are.
pub(crate) fn moves_all<A: Wire, B: Wire, C: Wire>(
    rt: &impl Abort,
    source: &mut A,
    target: &mut B,
    expected: &mut C,
) -> Result<(), Fail> {
    let mut draws = Draws::seeded(7);
    Both::of(target, expected).send_all(rt, &mut draws, 200)?;
    Both::of(source, expected).send_all(rt, &mut draws, 300)?;
    transfer(source, target)?;
    assert_eq!(rt; source.total(), 0);
    Both::of(target, expected).same(rt)?;
    let pair = Pair { from: 0, to: 1 };
    for number in 0..101 {
        source.send(pair, message(number))?;
    }
    assert_eq!(rt; transfer(source, target), Err(WireFault::Full));
    assert_eq!(rt; source.len(pair), 101);
    Both::of(target, expected).same(rt)
}
