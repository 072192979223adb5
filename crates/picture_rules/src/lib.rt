// Area pictures: definitions and laws alone. specs/Picture.antt says what CSS Grid Level 1, 7.3, calls an area,
// specs/Steps.antt how a picture is taken row by row; proofs/ join them.

#![tactic(auto)]
