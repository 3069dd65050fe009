// The small cases M1 to M12 of paper 01 as one proved statement. No code: specs/Cases.antt is all.

#![tactic(auto)]
