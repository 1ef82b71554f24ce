//! A certificate: what shows that an answer is true to somebody who trusts neither the machine nor the solver.
//!
//! It names a point or says that there is none, and gives a tree that parts the model's root box into boxes without a
//! better point, with a reason for each of these. Its text is a matter of other crates, and so is judging it.
#![tactic(auto)]

mod certificate;
mod laws;
mod node;

pub use certificate::Certificate;
pub use laws::trees_are_counted;
pub use node::CertNode;
