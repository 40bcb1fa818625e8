//! Tests of the pieces and positions, of SFEN, of the rules and of the values: what is known from
//! elsewhere.
#![tactic(auto)]

#[cfg(test)]
mod assertions;
#[cfg(test)]
mod boards;
#[cfg(test)]
mod comparison;
#[cfg(test)]
mod evaluation;
#[cfg(test)]
mod exchanges;
#[cfg(test)]
mod legal_moves;
#[cfg(test)]
mod mates;
#[cfg(test)]
mod passes;
#[cfg(test)]
mod pieces;
#[cfg(test)]
mod plain;
#[cfg(test)]
mod replies;
#[cfg(test)]
mod sfen;
