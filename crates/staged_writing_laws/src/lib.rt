// The laws of writing a staged view in pieces: what runs of steps from a begun state write. No code of its own.
#![tactic(auto)]
