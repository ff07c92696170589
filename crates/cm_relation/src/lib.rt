//! Two readings of the rules of the language that are related operation by operation are related on every well typed
//! body: definitions and proofs alone.
#![tactic(auto)]
