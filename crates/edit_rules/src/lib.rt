// What an edit is, and what edits after a sheet come to: definitions and laws alone.

#![tactic(auto)]
