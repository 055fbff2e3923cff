//! What a transcript is, for any machine that answers lines: definitions and their laws, without code.
//! `specs/Transcript.antt` has the relations, `proofs/Runs.antt` how runs go on.
#![tactic(auto)]
