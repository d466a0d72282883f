// The tick machine of one filing line: its types here, its definitions in specs/, its law in proofs/.
// The functions of `theorems` and `cases` carry the theorems; nothing here runs a link.

#![tactic(auto)]

pub mod call;
pub mod cases;
pub mod packet;
pub mod refusal;
pub mod theorems;
