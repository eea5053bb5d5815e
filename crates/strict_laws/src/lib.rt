// What the stricter reading promises (FORMAT.md, Stricter reading): proofs/Strict.antt.
#![tactic(auto)]
