//! Laws of devices on memory that nobody else writes meanwhile: what a round comes to there. The crate has no code of its own.
//!
//! `specs/World.antt` says what each action hears and makes, and `specs/Meaning.antt` what a take finds and what a give and a round
//! of the entropy device come to; `proofs/Takes.antt` and `proofs/Rounds.antt` have the laws. The block device, the console and the
//! balloon have a file each in both folders.
#![tactic(auto)]
