// The checker of JSON as a machine: a mode, a stack of what is open, and tables. This is the shape of the code, and nobody has to believe
// it: the laws of json_laws say what it answers in terms of the grammar alone.
#![tactic(auto)]
