// The paper layer of the table: maps from bit strings to zone numbers, the tree of a set, the path
// of a key and the slices of a listing. Definitions in specs/, laws in proofs/, and no code.

#![tactic(auto)]
