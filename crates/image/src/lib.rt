// The image of a list, as the file that ships: what each byte is. Definitions and laws; no code.

#![tactic(auto)]
