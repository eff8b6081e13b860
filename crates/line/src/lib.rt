// Demand 3, the line that loses, repeats and moves chunks: specs/Line.antt has the statement, proofs/ the proof. A theorem over
// the definitions of `chunk`, and so about its code, whose contracts are equations to them. Then request W7, the same line read
// straight through: specs/Straight.antt, over the definitions of `stream`.
#![tactic(auto)]
