// What is demanded of the calls on a panel: definitions and laws alone. specs/Demands.antt states the three demands on the definitions
// that the contracts cite, specs/Marked.antt document 01's edges M1 to M12; proofs/ prove them.

#![tactic(auto)]
