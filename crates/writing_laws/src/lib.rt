// The laws of writing an image in pieces: what runs of steps from a begun state write. No code of its own.
#![tactic(auto)]
