// Wires by the rules, wires driven alike, and messages moved from one wire to another.
#![tactic(auto)]

#[cfg(test)]
mod draws;
#[cfg(test)]
mod drive;
#[cfg(test)]
mod rules;
#[cfg(test)]
mod tests;
