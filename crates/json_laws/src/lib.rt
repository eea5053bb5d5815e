// What the checker of JSON promises, in proofs/Laws.antt: said of the grammar alone, for every byte string.
#![tactic(auto)]
