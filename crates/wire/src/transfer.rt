// Moving all messages from one wire to another, whatever wires they are.
ghost use Rattle.std.specs.Prelude.{◌≡◌, ◌<◌, Ok, OnErr};
ghost use Rattle.wire.specs.Moves.{Moved, Ready, one_pair, row};
ghost use Rattle.wire.specs.Transfer.{transferred};

use crate::Wire;
use theory::fault::WireFault;
use theory::message::Pair;

// Moves what waits on one pair.
fn move_pair<A: Wire, B: Wire>(source: &mut A, target: &mut B, pair: Pair) -> Result<(), WireFault>
    requires ready { Ready (A.Wire.means source.old) (B.Wire.means target.old) }
    requires sender { pair.from < (A.Wire.means source.old).boards }
    requires taker { pair.to < (A.Wire.means source.old).boards }
    ensures moved { Moved (one_pair pair.from pair.to) (A.Wire.means source.old) (B.Wire.means target.old) (A.Wire.means source.new) (B.Wire.means target.new) }
    ensures never_refused { result ≡ Ok tt }
{
    let waiting = A::len(source, pair);
    for _ in 0..waiting {
        let message = A::take(source, pair)?;
        B::send(target, pair, message)?;
    }
    Ok(())
}

// Moves what one board has sent to each of the boards.
fn move_row<A: Wire, B: Wire>(
    source: &mut A,
    target: &mut B,
    from: u32,
    boards: u32,
) -> Result<(), WireFault>
    requires ready { Ready (A.Wire.means source.old) (B.Wire.means target.old) }
    requires boards { boards ≡ (A.Wire.means source.old).boards }
    requires sender { from < boards }
    ensures moved { Moved (row from boards) (A.Wire.means source.old) (B.Wire.means target.old) (A.Wire.means source.new) (B.Wire.means target.new) }
    ensures never_refused { result ≡ Ok tt }
{
    for to in 0..boards {
        move_pair(source, target, Pair { from, to })?;
    }
    Ok(())
}

// Moves every message that waits on the source to the target, behind what waits there on the same
// pair, or refuses and changes nothing: the target may join fewer boards, or have too little room.
pub fn transfer<A: Wire, B: Wire>(source: &mut A, target: &mut B) -> Result<(), WireFault>
    ensures does_its_step { ((A.Wire.means source.new, B.Wire.means target.new), result) ≡ transferred (A.Wire.means source.old) (B.Wire.means target.old) }
    ensures refused_leaves_all_as_it_was { OnErr result ((source.new ≡ source.old) × (target.new ≡ target.old)) }
{
    let boards = A::boards(source);
    if B::boards(target) < boards {
        return Err(WireFault::NoPair);
    }
    let free = B::capacity(target) - B::total(target);
    if free < A::total(source) {
        return Err(WireFault::Full);
    }
    for from in 0..boards {
        move_row(source, target, from, boards)?;
    }
    Ok(())
}
