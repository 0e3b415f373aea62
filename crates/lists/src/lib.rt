// Lists, rows and searches: definitions and laws that know nothing of cells, settings or bytes, for all crates above.
// This crate has no code of its own: see specs/ and proofs/.
#![tactic(auto)]

ghost use Rattle.std.specs.Prelude.{◌≡◌};
