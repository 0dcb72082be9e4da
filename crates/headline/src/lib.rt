//! The headline: whatever events of a server, of installations beside it and of the machine come in any order, the
//! rules file is one whole accepted text, each decision is by the text that stood there, and the limits are kept.
//!
//! All here is of definitions alone, and no program uses it: `docs/internals/HEADLINE.md` reads `laws::headline` phrase
//! by phrase. `whole_yard` ties calls to it. `laws::taken`, `witness`, `older` and `refusals` show that it is not about
//! nothing.
#![tactic(auto)]

pub mod laws;
