// What a planned edit makes of a table: on words that hold a map, the plan of a store and of a
// remove, the words once it is written, and the records that the planning looked at. Laws alone; no
// code.

#![tactic(auto)]
