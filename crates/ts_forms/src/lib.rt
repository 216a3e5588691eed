//! Expressions by numbers: a table of nodes in which each expression that comes up stands once, after its parts.
//!
//! What a letter leaves of an expression, its normal form and which words it has are kept beside it, so that each is
//! worked out once, whatever expressions it is a part of. Two expressions are the same where their numbers are, and of
//! two others the first parts that differ tell the order. So the work for the residuals of a pattern grows with their
//! different parts, and not with the sizes of the trees.
//!
//! ```text
//! let mut forms = Forms::new(alloc);
//! let whole = forms.add(&pattern)?;
//! let left = forms.residual(alloc, whole, Letter::Less)?;
//! ```
//!
//! Calls go as deep into the stack as an expression is nested.
#![tactic(auto)]

mod derivative;
mod forms;
mod known;
mod node;
mod normal_form;
mod order;
mod tree;

pub use forms::Forms;
pub use known::Known;
pub use node::Node;
