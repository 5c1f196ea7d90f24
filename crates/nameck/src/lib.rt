// Names: atoms, who owns a label, the global declaration of a symbol (carries lookup_label, lookup_symbol of nameck.rs).
// The math string of a statement goes in as a part of the text; what naming leaves in the words is `specs/Named.antt`.
#![tactic(auto)]

pub mod intern;
pub mod lookup;
pub mod naming;
