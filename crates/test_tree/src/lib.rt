//! Tests of trees, of landmarks, of proofs in certificates and of requests to cosigners; of two
//! strings with one hash; and of the nodes that are retained, of the frames for tiles and of the
//! store of tiles.
#![tactic(auto)]

#[cfg(test)]
mod finding;
#[cfg(test)]
mod framing;
#[cfg(test)]
mod hashing;
#[cfg(test)]
mod joining;
#[cfg(test)]
mod keeping;
#[cfg(test)]
mod known;
#[cfg(test)]
mod marking;
#[cfg(test)]
mod proving;
#[cfg(test)]
mod requesting;
#[cfg(test)]
mod signing;
#[cfg(test)]
mod storing;
#[cfg(test)]
mod writing;
