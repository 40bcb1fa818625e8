//! Tests of the search over a memory: agreement with plain minimax, what is asked and noted, and slices.
#![tactic(auto)]

#[cfg(test)]
mod agreement;
#[cfg(test)]
mod analogous;
#[cfg(test)]
mod assertions;
#[cfg(test)]
mod below;
#[cfg(test)]
mod commuting;
#[cfg(test)]
mod exchanges;
#[cfg(test)]
mod forgetful;
#[cfg(test)]
mod hash_moves;
#[cfg(test)]
mod last_plies;
#[cfg(test)]
mod lines;
#[cfg(test)]
mod oracle;
#[cfg(test)]
mod passed;
#[cfg(test)]
mod plain;
#[cfg(test)]
mod positions;
#[cfg(test)]
mod ranks;
#[cfg(test)]
mod recorder;
#[cfg(test)]
mod searches;
#[cfg(test)]
mod settled_rows;
#[cfg(test)]
mod table_rows;
#[cfg(test)]
mod tables;
#[cfg(test)]
mod turns;
#[cfg(test)]
mod values;
