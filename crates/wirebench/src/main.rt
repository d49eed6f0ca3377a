// wirebench TURNS: how many messages a second go through each wire while 1, 100 and 1,325 wait on it.
#![tactic(auto)]

use chains::{Chains, Link};
use line::{Letter, Line};
use std::env;
use std::time::Instant;
use theory::fault::WireFault;
use theory::message::{Message, Pair};
use wire::Wire;
use wire::opening::Open;

const BOARDS: u32 = 16;

// What a pack of 16 boards needs with the most credit.
const PLACES: usize = 1325;

fn pair(number: u32) -> Pair {
    Pair {
        from: number / BOARDS % BOARDS,
        to: number % BOARDS,
    }
}

// Sends so many messages, one pair after the other.
fn fill<W: Wire>(wire: &mut W, waiting: u32) -> Result<(), WireFault> {
    for i in 0..waiting {
        wire.send(pair(i), Message::Want)?;
    }
    Ok(())
}

// Takes the first message of a pair and sends it back.
fn turn<W: Wire>(wire: &mut W, pair: Pair) -> Result<(), WireFault> {
    let message = wire.take(pair)?;
    wire.send(pair, message)
}

// Goes round the pairs on which messages wait, so many turns, and says how many turns that is a second.
fn rate<W: Open>(rt: &HostRuntime, wire: &mut W, waiting: u32, turns: u32) -> anyhow::Result<u128> {
    wire.open(BOARDS)?;
    fill(wire, waiting)?;
    let pairs = waiting.clamp(1, BOARDS * BOARDS);
    let start = Instant::now(rt)?;
    for i in 0..turns {
        turn(wire, pair(i % pairs))?;
    }
    let nanos = start.elapsed(rt)?.as_nanos();
    Ok(u128::from(turns) * 1_000_000_000 / nanos.max(1))
}

// A row of the table: both wires with so many messages waiting, and the ratio of the two.
fn row(rt: &HostRuntime, waiting: u32, turns: u32) -> anyhow::Result<()> {
    // Each wire's memory is given back before the next one's is taken.
    let line = {
        let mut letters = vec![in rt.alloc(); Letter::BLANK; PLACES]?;
        rate(rt, &mut Line::over(&mut letters), waiting, turns)?
    };
    let chains = {
        let mut links = vec![in rt.alloc(); Link::BLANK; PLACES]?;
        rate(rt, &mut Chains::over(&mut links), waiting, turns)?
    };
    let tenths = chains.saturating_mul(10) / line.max(1);
    println!(rt;
        "{waiting:>7} {line:>13} {chains:>13} {:>9}.{}",
        tenths / 10,
        tenths % 10
    )?;
    Ok(())
}

fn main(rt: HostRuntime) -> anyhow::Result<()> {
    let mut args = env::args(&rt)?;
    let _ = args.next();
    let Some(turns) = args.next() else {
        println!(rt; "usage: wirebench TURNS")?;
        return Ok(());
    };
    let turns = turns.parse::<u32>()?;
    println!(rt; "waiting   line/second chains/second chains/line")?;
    row(&rt, 1, turns)?;
    row(&rt, 100, turns)?;
    row(&rt, PLACES as u32, turns)
}
